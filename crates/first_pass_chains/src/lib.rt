//! The chains of a derived tree: the tokens of each block with inline content are in order.
#![tactic(auto)]

pub mod laws;
