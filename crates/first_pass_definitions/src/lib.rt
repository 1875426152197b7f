//! Link reference definitions: their labels, white space, destinations and titles, over the lines that they cross;
//! heads of footnote definitions. Which lines may head a table: `line_may_head_table` of `first_pass_kinds`.
#![tactic(auto)]

pub mod footnote_head;
pub mod label;
pub mod laws;
pub mod reference;
pub mod space;
pub mod target;
pub mod title;
