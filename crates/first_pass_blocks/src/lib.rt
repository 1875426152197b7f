//! The block pass of CommonMark: a text goes in, the tree of its blocks comes out (`pass::run_first_pass`).
#![tactic(auto)]

pub mod definition;
pub mod footnote;
mod leaf;
mod opening;
pub mod parser;
pub mod pass;
pub mod state;
pub mod text;
mod title;
