//! A text and its places, how far a line continues the open nodes, and how a block is opened and closed.
#![tactic(auto)]

pub mod front;
pub mod indentation;
pub mod open_block;
pub mod place;
pub mod prefixes;
pub mod source;
