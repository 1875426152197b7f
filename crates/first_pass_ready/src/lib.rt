//! Closing and opening blocks: the state of the pass still begins a derivation.
#![tactic(auto)]
