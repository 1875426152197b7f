//! The range that an info string, a footnote's label or a heading's attributes have in the text (this project).

ghost use Rattle.first_pass_places.specs.NamePlaces.{HasWholeStart, name_range};
ghost use Rattle.first_pass_places.specs.RangeEnds.{EndsAreBoundaries, IsIn};
ghost use Rattle.std.specs.Prelude.{◌≡◌, ◌≤◌, length, IfSome, IsUtf8};

use crate::attribute_block::attribute_block_range_in;
use crate::footnote_label::label_range;
use crate::info_string::info_range;
use first_pass_items::item::{Item, ItemBody};
use std::ops::Range;

/// Returns the range of the info string of a fenced code block, of the label of a footnote definition, or of all bytes
/// between the braces of a heading's attribute block, as byte offsets into the text. Returns `None` for any other node,
/// and for a heading without an index of attributes. In a tree, such a heading has no attribute block (this project).
/// Both ends are on character boundaries if the node meets `HasWholeStart`, as each node of a tree from
/// `run_first_pass` does.
pub fn name_range(text: &str, node: &Item) -> Option<Range<usize>>
    requires order { node.now.start ≤ node.now.«end» }
    requires within { node.now.«end» ≤ length text.now }
    ensures value { result ≡ name_range text.now node.now }
    ensures range { IfSome result (λ range. IsIn text.now range) }
    ensures boundary { HasWholeStart node.now.body text.now node.now.start
        → IfSome result (λ range. EndsAreBoundaries text.now range) }
{
    name_range_in(text.as_bytes(), node)
}

/// Returns the same for a text that is given as bytes.
pub fn name_range_in(text: &[u8], node: &Item) -> Option<Range<usize>>
    requires order { node.now.start ≤ node.now.«end» }
    requires within { node.now.«end» ≤ length text.now }
    ensures value { result ≡ name_range text.now node.now }
    ensures range { IfSome result (λ range. IsIn text.now range) }
    ensures boundary { IsUtf8 text.now → HasWholeStart node.now.body text.now node.now.start
        → IfSome result (λ range. EndsAreBoundaries text.now range) }
{
    match node.body {
        ItemBody::FencedCodeBlock(_) => Some(info_range(text, node.start)),
        ItemBody::FootnoteDefinition(_) => Some(label_range(text, node.start)),
        _ => attribute_block_range_in(text, node),
    }
}
