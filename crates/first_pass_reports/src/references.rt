//! The lines of link definitions, and the bytes of a token in a text.

pub mod label;
pub mod lines;
