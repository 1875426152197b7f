//! Targets of inline links, and labels of references and footnotes, in the content of a chain (CommonMark 6.3).
#![tactic(auto)]

pub mod definition_index;
pub mod destination;
pub mod footnote;
pub mod footnote_index;
pub mod key;
pub mod label;
pub mod part;
pub mod target;
pub mod title;
