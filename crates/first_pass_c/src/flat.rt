//! The flat form of a tree and its tables, for other languages: records of numbers in C's layout, and the strings. The
//! strings are the bytes of all strings and alignments, one after the other; the records have ranges of them.

pub mod attributes;
pub mod definitions;
pub mod kinds;
pub mod laws;
pub mod names;
pub mod nodes;
pub mod numbers;
pub mod records;
pub mod side;
