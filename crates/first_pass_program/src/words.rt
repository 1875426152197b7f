//! The words of the command `first_pass`: names of options, names of files, and the call that all words denote.

pub mod call;
pub mod command;
pub mod file_list;
pub mod option_names;
