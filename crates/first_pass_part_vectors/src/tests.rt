//! The tests, by what they call.

mod columns;
mod labels;
mod line_columns;
mod pieces;
mod places;
mod ranges;
mod samples;
mod steps;
mod subtrees;
mod titles;
mod tree;
mod walks;
