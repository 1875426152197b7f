//! A call of the table, as the functions that make the calls take it.

use first_pass_cases::given::Given;
use std::alloc::Global;

/// A call of the table: its name, its arguments other than the text, and the text.
#[derive(Drop)]
pub struct Call<'t> {
    /// The allocator for the results that need memory.
    pub alloc: Global,
    pub name: &'t str,
    pub given: &'t Given,
    pub text: &'t str,
}
