//! The parser that a report calls.

ghost use Rattle.first_pass_grammar.specs.Derivation.{Derives};
ghost use Rattle.first_pass_grammar.specs.Leaves.{document};
ghost use Rattle.first_pass_names.specs.TableEntries.{names_of, tables_of};
ghost use Rattle.std.specs.Prelude.{IfOk};

use crate::items::Allocations;
use first_pass_items::item::Item;
use first_pass_items::option_set::Options;
use first_pass_tree::forest::Tree;
use std::alloc::{AllocError, Global};

/// A parser of blocks. `BlockParser` of `first_pass_blocks` is one. A report is proved for every parser, so its proof
/// needs nothing of that crate.
pub trait Parse {
    /// Returns the tree that the block grammar derives from a text's lines under options, and the tables of what the
    /// text defines. Fails only if an allocation fails.
    fn parse<'a>(
        &self,
        alloc: Global,
        text: &'a str,
        options: Options,
    ) -> Result<(Tree<Item>, Allocations<'a>), AllocError>
        ensures { IfOk result (λ answer. Derives (document text.now options (names_of answer.1)) answer.0.nodes
            (tables_of answer.1)) };
}
