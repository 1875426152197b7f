//! Backslash escapes, references, link destinations, link labels, and the heads of footnote definitions.
#![tactic(auto)]

pub mod destination;
pub mod escape;
pub mod footnote;
pub mod label;
pub mod laws;
mod plain;
