//! The printed form of a tree: a line for each node and for each link definition.

pub mod heading;
pub mod links;
pub mod node;
pub mod run;
pub mod table;
