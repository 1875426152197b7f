//! Entity and numeric character references.
#![tactic(auto)]

pub mod entity;
