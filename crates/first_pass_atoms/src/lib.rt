//! Atoms of the inline structure: autolinks, raw HTML and the text of code spans in the content of a chain, and the
//! tokens with which code spans and math end. Each newline of a content is one byte, and 'blank' means a space, a tab
//! or a newline.
#![tactic(auto)]

pub mod autolinks;
pub mod blanks;
pub mod code_text;
pub mod html_ends;
pub mod laws;
pub mod raw_html;
mod tags;
pub mod token_ends;
