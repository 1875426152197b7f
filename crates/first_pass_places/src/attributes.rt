//! Where the attributes in the attribute block of a heading are written (this project).

ghost use Rattle.first_pass_places.specs.AttributePlaces.{attribute_place, attribute_ranges, key_place, range_of, word_range, word_ranges};
ghost use Rattle.first_pass_places.specs.RangeEnds.{HasWholeCharacters, IsIn};
ghost use Rattle.std.specs.Prelude.{◌≡◌, ◌<◌, ◌≤◌, ◌++◌, ◌+◌, length, map, IfOk, OnOk, OnErr, All, IsCharBoundary};

use crate::attribute_block::attribute_block_range_in;
use first_pass_attributes::words::{scan_key, scan_word};
use first_pass_items::item::Item;
use std::alloc::{AllocError, Global};
use std::ops::Range;

/// What an attribute of a heading is (this project).
#[derive(Clone, Copy, PartialEq, Eq)]
pub enum AttributeKind {
    /// `#install`.
    Id,
    /// `.wide`.
    Class,
    /// `draft` or `lang=en`.
    Key,
}

/// Where an attribute of a heading is written, as byte offsets into the text (this project).
#[derive(Drop)]
pub struct AttributeRanges {
    pub kind: AttributeKind,
    /// The range of the id or the class without its mark, or of the key.
    pub name: Range<usize>,
    /// The range of the key's value, if there is a `=`.
    pub value: Option<Range<usize>>,
}

/// Returns the ranges of each attribute in the attribute block of a heading, in the order of the text. Words of one
/// byte are left out. The result also has each id that a later id replaces. The result is empty if the node is not a
/// heading, or has no index of attributes. In a tree, a heading without the index has no attribute block. If the
/// heading starts on a character boundary, both ends of each range are on character boundaries too. Fails only if an
/// allocation fails. Without an attribute it doesn't fail (this project).
pub fn attribute_ranges(
    alloc: Global,
    text: &str,
    heading: &Item,
) -> Result<Vec<AttributeRanges>, AllocError>
    requires order { heading.now.start ≤ heading.now.«end» }
    requires within { heading.now.«end» ≤ length text.now }
    ensures value { IfOk result (λ places. places.items ≡ attribute_ranges text.now heading.now) }
    ensures boundary { IsCharBoundary text.now heading.now.start
        → IfOk result (λ places. All (HasWholeCharacters text.now) places.items) }
    ensures err { OnErr result (0 < length (attribute_ranges text.now heading.now)) }
{
    attribute_ranges_in(alloc, text.as_bytes(), heading)
}

// Where the attributes of a heading are written.
fn attribute_ranges_in(
    alloc: Global,
    text: &[u8],
    heading: &Item,
) -> Result<Vec<AttributeRanges>, AllocError>
    requires order { heading.now.start ≤ heading.now.«end» }
    requires within { heading.now.«end» ≤ length text.now }
    ensures value { IfOk result (λ places. places.items ≡ attribute_ranges text.now heading.now) }
    ensures err { OnErr result (0 < length (attribute_ranges text.now heading.now)) }
{
    let mut places = Vec::new(alloc);
    if let Some(block) = attribute_block_range_in(text, heading) {
        add_words(&mut places, text, block.start, block.end)?;
    }
    Ok(places)
}

// Adds the ranges of the attributes between two offsets to `places`.
fn add_words(
    places: &mut Vec<AttributeRanges>,
    text: &[u8],
    start: usize,
    end: usize,
) -> Result<(), AllocError>
    requires { end ≤ length text.now }
    ensures value { OnOk result (places.new.items
        ≡ places.old.items ++ map (attribute_place text.now) (word_ranges text.now start end)) }
    ensures err { OnErr result (0 < length (word_ranges text.now start end)) }
{
    let mut from = start;
    while from < end {
        let next = from + scan_word(&text[from..end]);
        add_word(places, text, &(from..next))?;
        from = next + 1;
    }
    Ok(())
}

// If the word has two bytes or more, adds the ranges of its attribute to `places`.
fn add_word(
    places: &mut Vec<AttributeRanges>,
    text: &[u8],
    word: &Range<usize>,
) -> Result<(), AllocError>
    requires { IsIn text.now word.now }
    ensures value { OnOk result (places.new.items
        ≡ places.old.items ++ map (attribute_place text.now) (word_range word.now.start word.now.«end»)) }
    ensures err { OnErr result (word.now.start + 1 < word.now.«end») }
{
    if 2 <= word.end - word.start {
        places.push(attribute_place(text, word.start, word.end))?;
    }
    Ok(())
}

// Where the attribute of a word is written.
fn attribute_place(text: &[u8], start: usize, end: usize) -> AttributeRanges
    requires order { start < end }
    requires within { end ≤ length text.now }
    ensures { result ≡ attribute_place text.now (range_of start end) }
{
    match text[start] {
        b'#' => AttributeRanges {
            kind: AttributeKind::Id,
            name: start + 1..end,
            value: None,
        },
        b'.' => AttributeRanges {
            kind: AttributeKind::Class,
            name: start + 1..end,
            value: None,
        },
        _ => key_place(text, start, end),
    }
}

// Where a key and its value are written.
fn key_place(text: &[u8], start: usize, end: usize) -> AttributeRanges
    requires order { start < end }
    requires within { end ≤ length text.now }
    ensures { result ≡ key_place text.now (range_of start end) }
{
    match scan_key(&text[start..end]) {
        None => AttributeRanges {
            kind: AttributeKind::Key,
            name: start..end,
            value: None,
        },
        Some(at) => AttributeRanges {
            kind: AttributeKind::Key,
            name: start..start + at,
            value: Some(start + at + 1..end),
        },
    }
}
