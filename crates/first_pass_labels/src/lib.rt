//! Labels, which are equal if their case foldings are, and tables of the definitions of a text by label.
#![tactic(auto)]

mod folding;
pub mod in_order;
pub mod label_key;
pub mod label_table;
pub mod laws;
mod search;
mod slot;
