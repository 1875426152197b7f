//! Possible inline markup: the special bytes and the walk over them, and delimiter runs: whether they can open or close
//! (CommonMark 6.2, GFM 4.10 and 6.5). Unicode punctuation (2.1).
#![tactic(auto)]

pub mod flank;
pub mod walk;
