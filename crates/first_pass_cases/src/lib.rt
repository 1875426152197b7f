//! The common parts of the programs for tables of cases: the table and the report; the form of texts and control
//! characters; the arguments of a call and the printed form of its result; the fault that ends a run; the number of
//! cases that differ. Two parts for `block_cases`: a check whether the ranges of a tree are in order, from its nodes
//! and the text only, and the fewest pieces of a text for which a property holds.
#![tactic(auto)]

pub mod answer;
pub mod breach;
pub mod fault;
pub mod given;
mod open;
pub mod pictures;
pub mod pieces;
pub mod ranges;
pub mod table;
pub mod tally;
pub mod texts;
