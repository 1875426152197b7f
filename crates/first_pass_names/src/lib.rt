//! What belongs to a tree but is not in it: the tables of link definitions and footnote labels, and three lists. Nodes
//! refer to entries of the lists by index. The lists have strings, column alignments and heading attributes.
#![tactic(auto)]

pub mod items;
pub mod lines;
pub mod parse;
