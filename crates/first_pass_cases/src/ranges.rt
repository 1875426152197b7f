//! Checks the nodes of a finished tree against the text.

use crate::breach::{Breach, Flaw};
use crate::open::Open;
use first_pass_items::item::{Item, ItemBody};
use std::alloc::{AllocError, Global};

/// Returns the first node in reading order that is wrong for a text, or `None` if all are right. `nodes` are those of
/// a finished tree, as `Tree::nodes` returns them. Both ends of each range must be character boundaries, and each
/// range must lie within its parent and after the sibling before it.
///
/// Only a task list item marker that is first in a paragraph, a heading or a title may start before that block. It
/// must lie within the list item around it, after the sibling before that block.
pub fn find_breach(
    alloc: Global,
    text: &str,
    nodes: &[(usize, Item)],
) -> Result<Option<Breach>, AllocError> {
    let whole = Item {
        start: 0,
        end: text.len(),
        body: ItemBody::Root,
    };
    if nodes.first() != Some(&(0, whole)) {
        return breach_at(0, Flaw::Root);
    }
    let mut around = Vec::new(alloc);
    around.push(Open::new(whole, None))?;
    for (place, (depth, item)) in nodes.iter().enumerate().skip(1) {
        if let Some(flaw) = enter(&mut around, text, *depth, *item)? {
            return breach_at(place, flaw);
        }
    }
    if has_too_many(text, nodes) {
        return breach_at(0, Flaw::TooMany);
    }
    Ok(None)
}

// A breach as a result.
fn breach_at(place: usize, flaw: Flaw) -> Result<Option<Breach>, AllocError> {
    Ok(Some(Breach { place, flaw }))
}

// Enters a node at a depth, or returns what is wrong with it. `around` has the nodes around it.
fn enter(
    around: &mut Vec<Open>,
    text: &str,
    depth: usize,
    item: Item,
) -> Result<Option<Flaw>, AllocError> {
    if around.len() < depth {
        return Ok(Some(Flaw::Depth));
    }
    around.truncate(depth);
    let Some(parent) = around.last_mut() else {
        return Ok(Some(Flaw::Depth));
    };
    let flaw = match own_flaw(text, item) {
        Some(flaw) => Some(flaw),
        None => parent.flaw_of(item),
    };
    if flaw.is_none() {
        let entered = parent.enter(item);
        around.push(entered)?;
    }
    Ok(flaw)
}

// What is wrong with a node on its own.
fn own_flaw(text: &str, item: Item) -> Option<Flaw> {
    if item.end < item.start {
        Some(Flaw::Turned)
    } else if text.len() < item.end {
        Some(Flaw::PastText)
    } else if !text.is_char_boundary(item.start) || !text.is_char_boundary(item.end) {
        Some(Flaw::InCharacter)
    } else if item.body == ItemBody::MaybeDefinitionListTitle {
        Some(Flaw::PossibleTitle)
    } else {
        None
    }
}

// Whether there are more nodes than the root, four for each byte of the text, and the inserted cells.
fn has_too_many(text: &str, nodes: &[(usize, Item)]) -> bool {
    let most = text.len().saturating_mul(4).saturating_add(1);
    most.saturating_add(count_inserted(nodes)) < nodes.len()
}

// The number of inserted cells: the empty cells at the end of a row.
fn count_inserted(nodes: &[(usize, Item)]) -> usize {
    let mut inserted: usize = 0;
    let mut row_end = None;
    for (_, item) in nodes {
        match item.body {
            ItemBody::TableHead => row_end = None,
            ItemBody::TableRow => row_end = Some(item.end),
            ItemBody::TableCell if row_end == Some(item.start) && item.start == item.end => {
                inserted = inserted.saturating_add(1);
            }
            _ => {}
        }
    }
    inserted
}
