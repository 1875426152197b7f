//! The kinds of nodes, as numbers.

ghost use Rattle.first_pass_c.specs.Kinds.{alignment_byte, kind_number, metadata_number, of_first, of_flags, of_number, quote_number, values_of};
ghost use Rattle.std.specs.Prelude.{◌≡◌};

use bitflags::Flags;
use first_pass_items::item::{Alignment, BlockQuoteKind, ItemBody, MetadataBlockKind};

/// The values of a node's kind, as numbers. `FlatNode` explains each field.
#[derive(Clone, Copy)]
pub struct FlatValues {
    pub number: u64,
    pub first: u8,
    pub second: u8,
    pub third: u8,
}

impl FlatValues {
    pub(crate) fn of_number(number: u64) -> FlatValues
        ensures { result ≡ of_number number }
    {
        FlatValues {
            number,
            first: 0,
            second: 0,
            third: 0,
        }
    }

    pub(crate) fn of_first(first: u8) -> FlatValues
        ensures { result ≡ of_first first }
    {
        FlatValues {
            number: 0,
            first,
            second: 0,
            third: 0,
        }
    }

    fn of_small(first: u8, second: u8, third: u8) -> FlatValues
        ensures { result ≡ record { number = 0; first = first; second = second; third = third } }
    {
        FlatValues {
            number: 0,
            first,
            second,
            third,
        }
    }

    fn of_flags(number: u64, first: bool, second: bool) -> FlatValues
        ensures { result ≡ of_flags number first second }
    {
        FlatValues {
            number,
            first: u8::from(first),
            second: u8::from(second),
            third: 0,
        }
    }
}

/// Returns the values of a node's kind. All are 0 for a kind without values.
#[inline(always)]
pub fn values_of(body: &ItemBody) -> FlatValues
    ensures { result ≡ values_of body.now }
{
    match *body {
        ItemBody::Heading(level, attributes) => {
            FlatValues::of_small(level as u8, u8::from(attributes.is_some()), 0)
        }
        ItemBody::BlockQuote(kind) => FlatValues::of_first(quote_number(kind)),
        ItemBody::List(flags, byte, number) => FlatValues {
            number,
            first: flags.bits(),
            second: byte,
            third: 0,
        },
        ItemBody::ListItem(columns) => FlatValues::of_number(columns as u64),
        ItemBody::MetadataBlock(kind) => FlatValues::of_first(metadata_number(kind)),
        ItemBody::DefinitionList(flags) => FlatValues::of_first(flags.bits()),
        ItemBody::DefinitionListDefinition(columns) => FlatValues::of_number(columns as u64),
        ItemBody::Text { backslash_escaped } => FlatValues::of_first(u8::from(backslash_escaped)),
        ItemBody::HardBreak(by_backslash) => FlatValues::of_first(u8::from(by_backslash)),
        ItemBody::MaybeEmphasis(left, can_open, can_close) => {
            FlatValues::of_flags(left as u64, can_open, can_close)
        }
        ItemBody::MaybeMath(can_open, can_close, context) => {
            FlatValues::of_flags(u64::from(context), can_open, can_close)
        }
        ItemBody::MaybeSmartQuote(byte, can_open, can_close) => {
            FlatValues::of_small(u8::from(can_open), byte, u8::from(can_close))
        }
        ItemBody::MaybeCode(count, escaped) => {
            FlatValues::of_flags(count as u64, escaped, false)
        }
        ItemBody::MaybeLinkClose(active) => FlatValues::of_first(u8::from(active)),
        ItemBody::SynthesizeChar(character) => FlatValues::of_number(character as u64),
        ItemBody::TaskListMarker(checked) => FlatValues::of_first(u8::from(checked)),
        _ => FlatValues::of_number(0),
    }
}

// The number of the kind that a tag gives a block quote; 0 without a tag.
fn quote_number(kind: Option<BlockQuoteKind>) -> u8
    ensures { result ≡ quote_number kind }
{
    match kind {
        None => 0,
        Some(BlockQuoteKind::Note) => 1,
        Some(BlockQuoteKind::Tip) => 2,
        Some(BlockQuoteKind::Important) => 3,
        Some(BlockQuoteKind::Warning) => 4,
        Some(BlockQuoteKind::Caution) => 5,
    }
}

// The number of the kind of a metadata block.
fn metadata_number(kind: MetadataBlockKind) -> u8
    ensures { result ≡ metadata_number kind }
{
    match kind {
        MetadataBlockKind::YamlStyle => 0,
        MetadataBlockKind::PlusesStyle => 1,
    }
}

/// Returns the byte of a column's alignment: `-`, `l`, `c` or `r` (GFM 4.10).
pub fn alignment_byte(alignment: Alignment) -> u8
    ensures { result ≡ alignment_byte alignment }
{
    match alignment {
        Alignment::None => b'-',
        Alignment::Left => b'l',
        Alignment::Center => b'c',
        Alignment::Right => b'r',
    }
}

/// Returns the number of a node's kind: from 0 for the root to 35 for a task list item marker.
pub fn kind_number(body: &ItemBody) -> u8
    ensures { result ≡ kind_number body.now }
{
    match *body {
        ItemBody::Root => 0,
        ItemBody::Paragraph => 1,
        ItemBody::TightParagraph => 2,
        ItemBody::Rule => 3,
        ItemBody::Heading(..) => 4,
        ItemBody::FencedCodeBlock(_) => 5,
        ItemBody::IndentCodeBlock => 6,
        ItemBody::HtmlBlock => 7,
        ItemBody::BlockQuote(_) => 8,
        ItemBody::List(..) => 9,
        ItemBody::ListItem(_) => 10,
        ItemBody::FootnoteDefinition(_) => 11,
        ItemBody::MetadataBlock(_) => 12,
        ItemBody::DefinitionList(_) => 13,
        ItemBody::MaybeDefinitionListTitle => 14,
        ItemBody::DefinitionListTitle => 15,
        ItemBody::DefinitionListDefinition(_) => 16,
        ItemBody::Table(_) => 17,
        ItemBody::TableHead => 18,
        ItemBody::TableRow => 19,
        ItemBody::TableCell => 20,
        ItemBody::Text { .. } => 21,
        ItemBody::SoftBreak => 22,
        ItemBody::HardBreak(_) => 23,
        ItemBody::MaybeEmphasis(..) => 24,
        ItemBody::MaybeMath(..) => 25,
        ItemBody::MaybeSmartQuote(..) => 26,
        ItemBody::MaybeCode(..) => 27,
        ItemBody::MaybeHtml => 28,
        ItemBody::MaybeLinkOpen => 29,
        ItemBody::MaybeLinkClose(_) => 30,
        ItemBody::MaybeImage => 31,
        ItemBody::Html => 32,
        ItemBody::SynthesizeText(_) => 33,
        ItemBody::SynthesizeChar(_) => 34,
        ItemBody::TaskListMarker(_) => 35,
    }
}
