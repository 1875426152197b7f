//! The work of the programs, each fault of a run, reports that no program has, and the printed form of nodes made
//! without a text.
#![tactic(auto)]

#[cfg(test)]
mod tests;
