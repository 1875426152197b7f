//! The tests, by what they call.

mod bench;
mod contents;
mod fakes;
mod faults;
mod json_lines;
mod links;
mod outline;
mod table_lines;
mod tree;
