//! The block pass as the parser of a report.

use crate::pass::run_first_pass;
use first_pass_items::item::Item;
use first_pass_items::option_set::Options;
use first_pass_names::items::Allocations;
use first_pass_names::parse::Parse;
use first_pass_tree::forest::Tree;
use std::alloc::{AllocError, Global};

/// The parser whose call is `run_first_pass`.
#[derive(Drop)]
pub struct BlockParser;

impl Parse for BlockParser {
    fn parse<'a>(
        &self,
        alloc: Global,
        text: &'a str,
        options: Options,
    ) -> Result<(Tree<Item>, Allocations<'a>), AllocError> {
        run_first_pass(alloc, text, options)
    }
}
