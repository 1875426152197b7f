//! The types of the block pass: its options, the items of its tree, and strings.
#![tactic(auto)]

pub mod cow_str;
pub mod item;
pub mod option_set;
