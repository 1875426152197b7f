//! The block that begins at a place, and the lines that interrupt a paragraph.
#![tactic(auto)]

pub mod interrupt;
pub mod kinds;
pub mod next_front;
pub mod table_start;
