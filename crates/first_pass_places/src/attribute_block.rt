//! Where the attribute block of a heading is written (this project).

ghost use Rattle.first_pass_places.specs.AttributeBlockPlaces.{attribute_block_range, upto_last};
ghost use Rattle.first_pass_places.specs.RangeEnds.{EndsAreBoundaries, IsIn};
ghost use Rattle.std.specs.List.{suffix_len};
ghost use Rattle.std.specs.Prelude.{◌≡◌, ◌≤◌, ◌==◌, not, length, IfSome, IsCharBoundary};

use first_pass_items::item::{Item, ItemBody};
use std::ops::Range;

/// Returns the range of the bytes between the braces of a heading's attribute block, as byte offsets into the text.
/// Returns `None` if the node is not a heading, or has no index of attributes. In a tree, a heading without the index
/// has no attribute block. In the heading's text, only white space, line endings or a final backslash of a setext
/// heading follow the block (this project). If the heading starts on a character boundary, both ends of the range are
/// on character boundaries too.
pub fn attribute_block_range(text: &str, heading: &Item) -> Option<Range<usize>>
    requires order { heading.now.start ≤ heading.now.«end» }
    requires within { heading.now.«end» ≤ length text.now }
    ensures value { result ≡ attribute_block_range text.now heading.now }
    ensures range { IfSome result (λ range. IsIn text.now range) }
    ensures boundary { IsCharBoundary text.now heading.now.start
        → IfSome result (λ range. EndsAreBoundaries text.now range) }
{
    attribute_block_range_in(text.as_bytes(), heading)
}

/// Returns the range between the braces of a heading's attribute block, if the node is a heading with attributes.
#[tactic(auto, unfolding(crate::specs::AttributeBlockPlaces::block_range))]
pub(crate) fn attribute_block_range_in(text: &[u8], heading: &Item) -> Option<Range<usize>>
    requires order { heading.now.start ≤ heading.now.«end» }
    requires within { heading.now.«end» ≤ length text.now }
    ensures value { result ≡ attribute_block_range text.now heading.now }
    ensures range { IfSome result (λ range. IsIn text.now range) }
{
    let ItemBody::Heading(_, Some(_)) = heading.body else {
        return None;
    };
    let bytes = &text[heading.start..heading.end];
    let closing = upto_last(bytes, b'}').saturating_sub(1);
    let opening = upto_last(&bytes[..closing], b'{');
    Some(heading.start + opening..heading.start + closing)
}

// The number of bytes up to and including the last byte that equals `byte`; 0 if no byte does.
fn upto_last(bytes: &[u8], byte: u8) -> usize
    ensures value { result ≡ upto_last byte bytes.now }
    ensures within { result ≤ length bytes.now }
{
    bytes.len() - scan_after_last(bytes, byte)
}

// The number of bytes after the last byte that equals `byte`; if no byte does, the length of `bytes`.
fn scan_after_last(bytes: &[u8], byte: u8) -> usize
    ensures value { result ≡ suffix_len (λ b. not (b == byte)) bytes.now }
    ensures within { result ≤ length bytes.now }
{
    bytes.iter().rev().take_while(|b| **b != byte).count()
}
