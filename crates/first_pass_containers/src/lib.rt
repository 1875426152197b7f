//! The containers of the block pass: how far a line continues those that are open, and which begin in it
//! (CommonMark 5). Its lemmas: the state of the pass still begins a derivation after a line is entered, a container is
//! opened or a leaf block is added.
#![tactic(auto)]

pub mod containers;
pub mod footnote_place;
pub mod laws;
pub mod openers;
