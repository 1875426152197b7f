//! The links of a chain: pairs of brackets, and what they are.
#![tactic(auto)]

mod chain;
mod follows;
pub mod inlines;
mod judge;
pub mod labels;
pub mod laws;
mod look;
pub mod mark;
pub mod pair;
mod walk;
