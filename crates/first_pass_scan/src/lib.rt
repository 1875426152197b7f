//! Scanners for the start of a line: thematic breaks, setext heading underlines, code fences, indentation in columns,
//! and the markers of containers. Scanners of metadata blocks, with the record of their closing lines. Scanners of
//! tables: delimiter rows, and the pipes and the number of columns of a header row.
#![tactic(auto)]

pub mod leaf_scan;
pub mod line_start;
mod markers;
pub mod metadata_scan;
pub mod metadata_search;
pub mod pipes;
pub mod table_scan;
pub mod table_start;
