//! A client of the pass, which calls each of its methods, in each mode. Its contracts say that the nodes stay in order
//! and that the open ones can be closed, so that other methods can be called next. They follow from the contracts and
//! the laws of `first_pass` alone: this crate has no lemma on nodes, lists or tokens. Its tests make these calls and
//! those of the pass, and compare what they return. `surface` has each public name.
#![tactic(auto)]

pub mod definitions;
pub mod leaves;
pub mod lists;
pub mod surface;
pub mod tables;
#[cfg(test)]
mod tests;
pub mod texts;
