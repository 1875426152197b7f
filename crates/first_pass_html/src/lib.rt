//! The scanners of HTML blocks: the start conditions of all seven kinds, and the end conditions of the first five.
//! CommonMark 4.6.
#![tactic(auto)]

pub mod ends;
pub mod names;
pub mod starts;
pub mod tags;
