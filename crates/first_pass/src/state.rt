//! The state of a pass.

ghost use Rattle.std.specs.Prelude.{IsUtf8};

use first_pass_blocks::state::BlockPass;
use first_pass_tokens::braces::BraceContexts;

/// A pass over a text: the tree so far, and the entries that its nodes name. Its two tables of labels are not
/// sorted: a look-up may go through a whole table, unless `Allocations::sort_tables` was called after the last
/// definition.
#[derive(Drop)]
pub struct FirstPass<'a> {
    /// The pass over blocks: the text and the options; the tree and the other state between two lines; and the entries
    /// that the tree's nodes name.
    pub pass: BlockPass<'a>,
    /// The brace contexts that `parse_line`, `parse_table_row` and `parse_table_row_inner` read and update: the
    /// nesting of braces around a dollar sign (this project).
    pub braces: BraceContexts,
}

// Recalls the invariant of a text, for the proof of a caller.
pub(crate) fn recall_utf8(text: &str)
    ensures { IsUtf8 text.now }
{
    let _bytes = text.as_bytes();
}
