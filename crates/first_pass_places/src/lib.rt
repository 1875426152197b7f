//! The range that an info string, a footnote's label or a heading's attributes have in the text. A node names each of
//! these by an index. Also the node of each footnote's first definition.
#![tactic(auto)]

pub mod attribute_block;
pub mod attributes;
pub mod footnote_label;
pub mod footnotes;
pub mod info_string;
pub mod laws;
pub mod line_column;
pub mod line_table;
pub mod name;
