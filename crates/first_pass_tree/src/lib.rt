//! The tree of the block pass: items in reading order, each with its depth, and the path of the open nodes.
#![tactic(auto)]

pub mod forest;
mod node_list;
pub mod subtrees;
pub mod tight;
pub mod tree_index;
