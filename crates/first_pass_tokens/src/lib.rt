//! The tokens of a line: backslash escapes (CommonMark 2.4), references (2.5), possible code, emphasis, HTML, links
//! and images (6.1 to 6.6), hard and soft line breaks (6.7, 6.8), smart punctuation, and math.
#![tactic(auto)]

pub mod braces;
pub mod laws;
pub mod line;
pub mod named;
pub mod pieces;
