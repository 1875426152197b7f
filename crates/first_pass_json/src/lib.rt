//! A tree and its tables as lines of JSON: an object for each node, each link definition and each footnote's label.
//! Also a page that shows a text with its tree.
#![tactic(auto)]

pub mod array;
pub mod definition;
pub mod heading;
pub mod laws;
pub mod node;
pub mod page;
pub mod page_laws;
pub mod placed;
pub mod range;
pub mod run;
pub mod script;
pub mod script_lines;
pub mod table;
pub mod template;
pub mod token;
pub mod values;
