//! The links of a text as lines of JSON.
#![tactic(auto)]

pub mod links;
mod quoted;
