//! Lines of a text: line endings, blank lines, ATX headings, the starts of lines, and runs of spaces. Also how much
//! the rest of a text holds, judged by the part that was read.
#![tactic(auto)]

pub mod lanes;
pub mod lines;
pub mod places;
pub mod sample;
