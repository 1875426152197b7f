//! Calls of a tree as values, so that a table can list them.

use first_pass_items::item::{Item, ItemBody};
use first_pass_tree::forest::Tree;
use std::alloc::AllocError;

/// A call of a tree, with what it is given.
#[derive(Clone, Copy, Drop)]
pub enum Step {
    /// `append`.
    Append(Item),
    /// `append_text`.
    AppendText(usize, usize, bool),
    /// `push`.
    Push,
    /// `pop`.
    Pop,
    /// `truncate_siblings`.
    Truncate(usize),
    /// `remember`.
    Remember,
    /// `note_end`.
    NoteEnd,
}

/// Returns a node's item.
pub fn item(start: usize, end: usize, body: ItemBody) -> Item {
    Item { start, end, body }
}

/// Returns the body of a text, escaped or not.
pub fn text(backslash_escaped: bool) -> ItemBody {
    ItemBody::Text { backslash_escaped }
}

// Takes a step. Fails if an allocation fails, or if no node is current that `push` can open.
fn take(tree: &mut Tree<Item>, step: Step) -> Result<(), AllocError> {
    match step {
        Step::Append(item) => tree.append(item).map(drop),
        Step::AppendText(start, end, escaped) => tree.append_text(start, end, escaped),
        Step::Push if tree.cur() != None => tree.push().map(drop),
        Step::Push => Err(AllocError),
        Step::Remember => tree.remember(),
        Step::Pop => {
            tree.pop();
            Ok(())
        }
        Step::Truncate(end) => {
            tree.truncate_siblings(end);
            Ok(())
        }
        Step::NoteEnd => {
            tree.note_end();
            Ok(())
        }
    }
}

/// Takes the steps in turn. Fails if one of them fails.
pub fn take_each(tree: &mut Tree<Item>, steps: &[Step]) -> Result<(), AllocError> {
    for step in steps {
        take(tree, *step)?;
    }
    Ok(())
}
