//! Closing and opening blocks: nodes stay in order, nested, few and named, and tables stay whole.
#![tactic(auto)]
