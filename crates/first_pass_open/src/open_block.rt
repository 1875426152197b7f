//! How a block is opened, filled and closed in a tree.

ghost use Rattle.first_pass_items.specs.declared.item.Item.{Item};
ghost use Rattle.first_pass_open.specs.OpenBlock.{closed_by, opened_block, with_child};
ghost use Rattle.std.specs.Prelude.{◌≡◌, slice_get, length, IsSome, Some, IfOk, OnOk};

use first_pass_items::item::{Item, ItemBody};
use first_pass_tree::forest::Tree;
use first_pass_tree::tree_index::TreeIndex;
use std::alloc::AllocError;

/// How far a block and the reading of its lines go. `end` is the end of the block. `next` is the start of the first
/// unread line, or the end of the text if no line is left.
#[derive(Clone, Copy)]
pub struct BlockLines {
    pub end: usize,
    pub next: usize,
}

/// Appends a block that starts at the offset `start`, opens it, and returns its index. Its end is 0 until it is closed.
/// Fails only if an allocation fails.
#[inline(always)]
pub fn open_block(
    tree: &mut Tree<Item>,
    start: usize,
    body: ItemBody,
) -> Result<TreeIndex, AllocError>
    ensures tree { OnOk result (tree.new ≡ opened_block tree.old start body) }
    ensures index { IfOk result (λ ix. ix.0 ≡ length tree.old.nodes) }
{
    tree.append(Item {
        start,
        end: 0,
        body,
    })?;
    tree.push()
}

/// Closes the innermost open node, sets its end to the offset `end`, and returns its index. A node other than the root
/// has to be open.
pub fn close_block(tree: &mut Tree<Item>, end: usize) -> TreeIndex
    requires { IsSome (slice_get tree.old.spine 0) }
    ensures tree { tree.new ≡ closed_by tree.old end tree.old.spine }
    ensures index { slice_get tree.old.spine 0 ≡ Some result }
{
    tree.recall_forest();
    let ix = tree.pop().unwrap();
    tree.set_end(ix, end);
    ix
}

/// If a node is given, appends it to the innermost open node. It is the break between two lines, or a task list item
/// marker. Fails only if an allocation fails.
pub fn append_item(tree: &mut Tree<Item>, item: Option<Item>) -> Result<(), AllocError>
    ensures { OnOk result (tree.new ≡ with_child tree.old item) }
{
    match item {
        Some(item) => {
            tree.append(item)?;
            Ok(())
        }
        None => Ok(()),
    }
}
