//! The attribute block at the end of a heading, and its attributes.
#![tactic(auto)]

pub mod attrs;
pub mod heading_attributes;
pub mod laws;
pub mod short_list;
pub mod words;
