//! The outline of a text: its headings, each with its level, its id and its range. The work of the program `outline`,
//! which lists them. Also the headings with their texts, in lines of JSON, and nested by their levels as a table of
//! contents: as a Markdown list, or as objects in JSON.
#![tactic(auto)]

pub mod contents;
pub mod contents_json;
pub mod contents_list;
pub mod entry_text;
pub mod lines;
pub mod outline;
pub mod run;
pub mod titles;
