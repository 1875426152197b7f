//! The base of the block pass: options, items, texts, the tree, the line scanners, delimiter runs, and the walk over
//! the special bytes.
#![tactic(auto)]

pub mod below;

pub use first_pass_walk::{flank, walk};
