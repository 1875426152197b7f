//! The lines of leaf blocks. Raw: indented and fenced code, metadata and HTML. With tokens: paragraphs, headings and
//! their attributes, and thematic breaks.
#![tactic(auto)]

pub mod attributes;
pub mod extent;
pub mod fenced_code;
pub mod heading;
pub mod html_block;
pub mod indented_code;
mod line_break;
pub mod metadata_block;
pub mod paragraph;
pub mod raw_line;
pub mod rule;
pub mod verdict;
