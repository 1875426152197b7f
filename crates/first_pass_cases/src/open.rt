//! A node while its descendants are checked.

use crate::breach::Flaw;
use first_pass_items::item::{Item, ItemBody};

/// A node, and its state before its next child.
#[derive(Clone, Copy)]
pub(crate) struct Open {
    item: Item,
    // The least start of the next child: the end of the last one, otherwise the start of the node.
    from: usize,
    // Whether a child has been checked.
    has_child: bool,
    // The least start of a task list item marker before the node, if one is permitted.
    room: Option<usize>,
}

impl Open {
    /// Returns a node before its first child, with the room for a task list item marker before it.
    pub(crate) fn new(item: Item, room: Option<usize>) -> Open {
        Open {
            item,
            from: item.start,
            has_child: false,
            room,
        }
    }

    /// Returns what is wrong with the range of the next child.
    pub(crate) fn flaw_of(&self, child: Item) -> Option<Flaw> {
        if self.is_marker_before(child) {
            return match self.room {
                Some(from) if from <= child.start && child.end <= self.item.start => None,
                _ => Some(Flaw::TaskMarker),
            };
        }
        if child.start < self.item.start || self.item.end < child.end {
            return Some(Flaw::Outside);
        }
        if child.start < self.from {
            return Some(Flaw::Overlap);
        }
        None
    }

    /// Adds the next child, and returns it as a node before its first child.
    pub(crate) fn enter(&mut self, child: Item) -> Open {
        let room = self.room_before(child.body);
        if !self.is_marker_before(child) {
            self.from = child.end;
        }
        self.has_child = true;
        Open::new(child, room)
    }

    // Whether a child is a task list item marker that is first in a paragraph, a heading or a title, and starts
    // before it.
    fn is_marker_before(&self, child: Item) -> bool {
        matches!(child.body, ItemBody::TaskListMarker(_))
            && !self.has_child
            && is_text_block(self.item.body)
            && child.start < self.item.start
    }

    // The least start of a task list item marker before the next child, if one is permitted. Before a paragraph, a
    // heading or a definition list directly in a list item, it is the end of the sibling before. Before the title
    // that is first in such a definition list, it is that before the list.
    fn room_before(&self, child: ItemBody) -> Option<usize> {
        match (self.item.body, child) {
            (ItemBody::ListItem(_), ItemBody::DefinitionList(_)) => Some(self.from),
            (ItemBody::ListItem(_), _) if is_text_block(child) => Some(self.from),
            (ItemBody::DefinitionList(_), ItemBody::DefinitionListTitle) if !self.has_child => {
                self.room
            }
            _ => None,
        }
    }
}

// Whether a node is a paragraph, a heading or a title.
fn is_text_block(body: ItemBody) -> bool {
    matches!(
        body,
        ItemBody::Paragraph
            | ItemBody::TightParagraph
            | ItemBody::Heading(_, _)
            | ItemBody::DefinitionListTitle
    )
}
