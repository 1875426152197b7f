//! Thematic breaks.

ghost use Rattle.first_pass_grammar.specs.Leaves.{rule_block};
ghost use Rattle.first_pass_open.specs.Between.{AddsBetween};
ghost use Rattle.first_pass_tree.specs.Forest.{added};
ghost use Rattle.std.specs.Prelude.{◌≡◌, ℕ, ◌+◌, ◌<◌, ◌≤◌, ◌^◌, List, IsCharBoundary, IfOk, OnOk};

use first_pass_items::item::{Item, ItemBody};
use first_pass_tree::forest::Tree;
use std::alloc::AllocError;

/// Appends a thematic break to the innermost open node. It begins at the offset `ix` into a text, and has `hrule_size`
/// bytes, its line ending included. Returns the offset after it (CommonMark 4.1).
pub fn parse_hrule(tree: &mut Tree<Item>, hrule_size: usize, ix: usize) -> Result<usize, AllocError>
    requires { ix + hrule_size < 2 ^ 64 }
    ensures block { OnOk result (tree.new ≡ added tree.old (rule_block ix hrule_size)) }
    ensures fits { OnOk result ((text : List ℕ) (from : ℕ) → from ≤ ix → IsCharBoundary text ix
        → IsCharBoundary text (ix + hrule_size) → AddsBetween text from (ix + hrule_size) tree.old tree.new) }
    ensures following { IfOk result (λ next. next ≡ ix + hrule_size) }
{
    let end = ix + hrule_size;
    tree.append(Item {
        start: ix,
        end,
        body: ItemBody::Rule,
    })?;
    Ok(end)
}
