//! The block that begins at a place in a line.

ghost use Rattle.first_pass_grammar.specs.Kinds.{html_kind, later_kind, metadata_at, IsKind, unindented};
ghost use Rattle.first_pass_kinds.specs.BlockStart.{kind_of, IsFoundWithCondition};
ghost use Rattle.first_pass_lines.specs.Lines.{atx_level};
ghost use Rattle.first_pass_lines.specs.Places.{IsPlaceOf};
ghost use Rattle.first_pass_lines.specs.Rest.{indent};
ghost use Rattle.first_pass_scan.specs.MetadataSearch.{IsKnownOf};
ghost use Rattle.std.specs.Option.{option_map};
ghost use Rattle.std.specs.Prelude.{◌≡◌, ◌+◌, ◌≤◌, min, length, drop, Some, None, IfSome};

use bitflags::Flags;
use first_pass_html::ends::HtmlEnd;
use first_pass_html::starts::{get_html_end_tag, starts_html_block_type_6};
use first_pass_html::tags::scan_html_type_7;
use first_pass_items::item::HeadingLevel;
use first_pass_items::option_set::Options;
use first_pass_lines::lines::{scan_atx_heading, scan_blank_line};
use first_pass_open::indentation::scan_indentation;
use first_pass_open::place::Place;
use first_pass_open::source::Source;
use first_pass_scan::leaf_scan::{scan_code_fence, scan_hrule};
use first_pass_scan::metadata_search::{MetadataEnds, metadata_at};

/// The block that begins at a place at which no container begins: its kind, and the values that were read with it.
#[derive(Clone, Copy)]
pub enum BlockStart {
    /// A blank line (CommonMark 4.9).
    Blank,
    /// Link reference definitions, a paragraph, a setext heading or a table (CommonMark 4.7, 4.8, 4.3, GFM 4.10).
    Paragraph,
    /// An HTML block that ends before a blank line: type 6 or 7 (CommonMark 4.6).
    HtmlToBlank,
    /// Another leaf block.
    Marked(MarkedLeaf),
}

/// A leaf block that is recognized by its indentation or by the mark at its start. HTML blocks of types 6 and 7 are not
/// among these: they are `BlockStart::HtmlToBlank`.
#[derive(Clone, Copy)]
pub enum MarkedLeaf {
    /// Indented code (CommonMark 4.4).
    IndentedCode,
    /// A metadata block, with the byte of its marks: `-` or `+`.
    Metadata(u8),
    /// An HTML block of types 1 to 5, with its end condition (CommonMark 4.6).
    HtmlToEnd(HtmlEnd),
    /// A thematic break, with its length in bytes, its line ending included (CommonMark 4.1).
    ThematicBreak(usize),
    /// An ATX heading (CommonMark 4.2).
    AtxHeading(HeadingLevel),
    /// A fenced code block, with the length of its fence and the byte of the fence (CommonMark 4.5).
    FencedCode(usize, u8),
}

/// Returns the HTML block of types 1 to 6 that begins here, if there is one (CommonMark 4.6).
#[inline(always)]
pub fn html_kind(bytes: &[u8]) -> Option<BlockStart>
    ensures kind { option_map kind_of result ≡ html_kind bytes.now }
    ensures end { IfSome result (λ found. IsFoundWithCondition bytes.now found) }
{
    let [b'<', rest @ ..] = bytes else {
        return None;
    };
    if let Some(end) = get_html_end_tag(rest) {
        return Some(BlockStart::Marked(MarkedLeaf::HtmlToEnd(end)));
    }
    if starts_html_block_type_6(rest) {
        return Some(BlockStart::HtmlToBlank);
    }
    None
}

// The thematic break, the fenced code block or the paragraph that begins here. The bytes begin no ATX heading.
fn later_kind(bytes: &[u8]) -> BlockStart
    requires { atx_level bytes.now ≡ None }
    ensures kind { kind_of result ≡ later_kind bytes.now }
    ensures end { IsFoundWithCondition bytes.now result }
{
    if let Some(size) = scan_hrule(bytes) {
        return BlockStart::Marked(MarkedLeaf::ThematicBreak(size));
    }
    match scan_code_fence(bytes) {
        Some((count, byte)) => BlockStart::Marked(MarkedLeaf::FencedCode(count, byte)),
        None => BlockStart::Paragraph,
    }
}

// The byte of the metadata block at the offset `at` into the text. A metadata block has no columns before it.
fn scan_metadata(
    text: &[u8],
    at: usize,
    columns: usize,
    options: Options,
    ends: &mut MetadataEnds,
) -> Option<u8>
    requires known { IsKnownOf text.now ends.old }
    requires within { at ≤ length text.now }
    ensures value { result ≡ metadata_at columns options (drop at text.now) }
    ensures known { IsKnownOf text.now ends.new }
{
    if columns > 0 {
        return None;
    }
    let yaml = options.contains(Options::ENABLE_YAML_STYLE_METADATA_BLOCKS);
    let pluses = options.contains(Options::ENABLE_PLUSES_DELIMITED_METADATA_BLOCKS);
    metadata_at(text, at, yaml, pluses, ends)
}

/// Returns the block that begins at a place at which no container begins, and the columns before it, or 4 if there
/// are more. Moves the place past all these columns (CommonMark 4).
pub fn kind_at<'a>(
    source: &Source<'_>,
    place: &mut Place<'a>,
    ends: &mut MetadataEnds,
) -> (BlockStart, usize)
    requires place { IsPlaceOf source.now.text.now place.old }
    requires known { IsKnownOf source.now.text.now ends.old }
    ensures kind { IsKind source.now.options place.old.rest (kind_of result.0) }
    ensures end { IsFoundWithCondition (unindented place.old).rest.left result.0 }
    ensures columns { result.1 ≡ min 4 (indent place.old.rest) }
    ensures place { place.new ≡ unindented place.old }
    ensures known { IsKnownOf source.now.text.now ends.new }
{
    let blank = scan_blank_line(place.rest.left()).is_some();
    let columns = scan_indentation(&mut place.rest);
    if blank {
        return (BlockStart::Blank, columns);
    }
    if columns >= 4 {
        return (BlockStart::Marked(MarkedLeaf::IndentedCode), columns);
    }
    // An ATX heading is tried before metadata, HTML blocks and thematic breaks, which precede it in the grammar: none
    // of these begins with `#`.
    if let Some(level) = scan_atx_heading(place.rest.left()) {
        return (BlockStart::Marked(MarkedLeaf::AtxHeading(level)), columns);
    }
    let bytes = source.text.as_bytes();
    let at = place.line + place.rest.bytes_scanned();
    if let Some(byte) = scan_metadata(bytes, at, columns, source.options, ends) {
        return (BlockStart::Marked(MarkedLeaf::Metadata(byte)), columns);
    }
    let left = place.rest.left();
    if let Some(found) = html_kind(left) {
        return (found, columns);
    }
    if scan_html_type_7(left).is_some() {
        return (BlockStart::HtmlToBlank, columns);
    }
    (later_kind(left), columns)
}
