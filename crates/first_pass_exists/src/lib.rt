//! Existence: every text has a derived tree, and open nodes can always be completed.
#![tactic(auto)]

mod laws;

pub use laws::{always_a_completion, every_text_derives, some_completion_derives};
