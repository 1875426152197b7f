//! The lines of the links of a text: what they are, where, and where they lead.
#![tactic(auto)]

pub mod definitions;
pub mod form;
pub mod laws;
pub mod lines;
pub mod links;
pub mod part;
pub mod plain;
pub mod report;
pub mod target;
