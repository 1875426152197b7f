//! The content of a chain of tokens: its bytes without the prefixes of containers, each with its range in the text.
#![tactic(auto)]

mod builder;
pub mod content;
pub mod laws;
pub mod parts;
mod run;
pub mod tokens;
