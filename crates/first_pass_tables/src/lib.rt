//! Tables: the cells of a row, the rows, and the table (GFM 4.10).
#![tactic(auto)]

pub mod cells;
pub mod row;
pub mod rows;
