//! The state of the pass, and the calls that change it. They open containers and lists, continue lists, make them
//! loose, and close them.
#![tactic(auto)]

pub mod list;
pub mod state;
pub mod titles;
