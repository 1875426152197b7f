//! What the programs `blocks` and `links` print of a text.
#![tactic(auto)]

pub mod printed;
pub mod references;
