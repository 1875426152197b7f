//! Emphasis, strikethrough, superscript, subscript and smart quotes of a chain.
#![tactic(auto)]

pub mod laws;
pub mod levels;
mod quotes;
mod reduce;
pub mod role;
mod run;
mod token;
