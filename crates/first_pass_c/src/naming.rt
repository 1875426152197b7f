//! The range in which a text has what a node names.

ghost use Rattle.first_pass_c.specs.Naming.{body_of, flat_range, range_named};
ghost use Rattle.std.specs.Option.{option_map};
ghost use Rattle.std.specs.Prelude.{◌≡◌};

use crate::flat::records::FlatNode;
use first_pass_items::item::{CowIndex, HeadingIndex, HeadingLevel, Item, ItemBody};
use first_pass_places::name::name_range_in;

/// A range of a text, in bytes.
#[repr(C)]
#[derive(Clone, Copy)]
pub struct FlatRange {
    pub start: usize,
    pub end: usize,
}

/// Returns the range in which a text has what a node names. Returns `None` if it names nothing that the text has, or if
/// the range of the node is not in the text.
pub(crate) fn range_named(text: &[u8], node: &FlatNode) -> Option<FlatRange>
    ensures { result ≡ option_map flat_range (range_named text.now node.now) }
{
    let item = Item {
        start: node.start as usize,
        end: node.end as usize,
        body: body_of(node),
    };
    if item.end < item.start || text.len() < item.end {
        return None;
    }
    match name_range_in(text, &item) {
        None => None,
        Some(range) => Some(FlatRange {
            start: range.start,
            end: range.end,
        }),
    }
}

// The body of a node that names something that the text has, with some index; the root for any other node.
fn body_of(node: &FlatNode) -> ItemBody
    ensures { result ≡ body_of node.now }
{
    match (node.kind, node.second) {
        (4, 0) => ItemBody::Root,
        (4, _) => ItemBody::Heading(HeadingLevel::H1, Some(HeadingIndex(0))),
        (5, _) => ItemBody::FencedCodeBlock(CowIndex(0)),
        (11, _) => ItemBody::FootnoteDefinition(CowIndex(0)),
        _ => ItemBody::Root,
    }
}
