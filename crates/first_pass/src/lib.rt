//! The block pass of CommonMark: reads a text and returns the tree of its blocks (`run_first_pass`). The original's
//! calls are methods of `pass::FirstPass`, each of which does one part of the pass's work. The crate also re-exports
//! the names of the crates below.
#![tactic(auto)]

mod attributes;
mod definition;
mod footnote;
mod interrupt;
mod laws;
mod leaf;
mod line;
mod list;
pub mod pass;
mod raw;
mod state;
mod table;

pub use crate::laws::{
    block_begins, ended_block_is_closable, law_of_dashes, lines_are_tokens, nodes_are_counted,
    reading_continues_later,
};
pub use first_pass_attributes::attrs;
pub use first_pass_below::below::{Item, ItemBody, Options, Tree};
pub use first_pass_below::{below, flank, walk};
pub use first_pass_blocks::pass::run_first_pass;
pub use first_pass_containers::laws::{ready_is_completed, ready_is_whole};
pub use first_pass_names::items;

/// The open containers, and how far a line continues them (CommonMark 5).
pub mod containers {
    pub use first_pass_open::prefixes::scan_containers;
}
