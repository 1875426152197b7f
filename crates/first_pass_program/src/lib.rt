//! The runs of the programs `blocks`, `links` and `tree`, and of `bench`, which times runs of the pass on a text. Also
//! the words of the command `first_pass`.
#![tactic(auto)]

pub mod bench;
pub mod run;
pub mod timed;
pub mod words;
