//! Completion: blocks that complete the open nodes after more is read also complete those that were open before.
#![tactic(auto)]
