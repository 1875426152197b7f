//! The text of an ATX heading.

ghost use Rattle.first_pass_grammar.specs.Headings.{heading_attributes_of};
ghost use Rattle.first_pass_grammar.specs.Leaves.{document, is_space_or_line_end, kept_len as kept_len_of, heading_text_at};
ghost use Rattle.first_pass_grammar.specs.Names.{Names, Extends, NamesAttributes};
ghost use Rattle.first_pass_leaves.specs.Appends.{AppendsHeading, AddsHeading, line_from, attribute_place};
ghost use Rattle.first_pass_leaves.specs.PlainHeadings.{IsPlainHeading};
ghost use Rattle.first_pass_lines.specs.Lines.{atx_level as atx_level_of, level_number as number_of};
ghost use Rattle.first_pass_names.specs.TableEntries.{names_of, NamesMore};
ghost use Rattle.first_pass_open.specs.Between.{AddsBetween, line_end_at};
ghost use Rattle.first_pass_open.specs.OpenBlock.{IsJustPushed};
ghost use Rattle.first_pass_tokens.specs.Braces.{no_braces};
ghost use Rattle.first_pass_tokens.specs.Pieces.{source, text_upto};
ghost use Rattle.first_pass_walk.specs.Walk.{MarksSpecial};
ghost use Rattle.std.specs.List.{slice_range, suffix_len};
ghost use Rattle.std.specs.Option.{option_map, option_map_or, unwrap_or};
ghost use Rattle.std.specs.Prelude.{◌≡◌, ℕ, ◌==◌, ◌+◌, ◌-◌, take, drop, ◌≤◌, Some, length, None, IfOk, IfSome, OnOk, IsCharBoundary, false};

use crate::attributes::name_attributes;
use crate::paragraph::append_last_backslash;
use bitflags::Flags;
use first_pass_items::item::{HeadingIndex, HeadingLevel, Item, ItemBody};
use first_pass_items::option_set::Options;
use first_pass_lines::lines::{level_number, scan_whitespace_no_nl};
use first_pass_lines::places::{next_line, rest_of};
use first_pass_names::items::Allocations;
use first_pass_open::open_block::{close_block, open_block};
use first_pass_open::source::Source;
use first_pass_tokens::braces::BraceContexts;
use first_pass_tokens::line::{line_end_len, scan_plain_content};
use first_pass_tokens::pieces::Content;
use first_pass_tree::forest::Tree;
use first_pass_tree::tree_index::TreeIndex;
use std::alloc::AllocError;

// The number of spaces and line endings at the end.
fn trailing_space_len(text: &[u8]) -> usize
    ensures value { result ≡ suffix_len is_space_or_line_end text.now }
    ensures within { result ≤ length text.now }
{
    text.iter()
        .rev()
        .take_while(|b| matches!(**b, b' ' | b'\n' | b'\r'))
        .count()
}

// The start of a heading's text: after its number signs and the white space after them.
fn heading_text_start(bytes: &[u8], start: usize, level: HeadingLevel) -> usize
    requires within { start ≤ length bytes.now }
    requires heading { atx_level_of (drop start bytes.now) ≡ Some level }
    ensures value { result ≡ heading_text_at bytes.now start (number_of level) }
    ensures within { result ≤ length bytes.now }
{
    let signs_end = start + level_number(level);
    signs_end + scan_whitespace_no_nl(rest_of(bytes, signs_end))
}

// The length of the run of this byte at the end.
fn trailing_run(text: &[u8], byte: u8) -> usize
    ensures value { result ≡ suffix_len (λ b. b == byte) text.now }
    ensures within { result ≤ length text.now }
{
    text.iter().rev().take_while(|b| **b == byte).count()
}

// The first `count` bytes.
fn first_bytes(text: &[u8], count: usize) -> &[u8]
    requires { count ≤ length text.now }
    ensures { result.now ≡ take count text.now }
{
    &text[..count]
}

// The length in bytes of a heading's text without its closing sequence (CommonMark 4.2).
fn kept_len(text: &[u8]) -> usize
    ensures value { result ≡ kept_len_of text.now }
    ensures within { result ≤ length text.now }
{
    let trimmed = text.len() - trailing_space_len(text);
    let signs = trailing_run(first_bytes(text, trimmed), b'#');
    if signs == 0 {
        return trimmed;
    }
    let opening = trimmed - signs;
    let spaces = trailing_run(first_bytes(text, opening), b' ');
    if opening == 0 || 0 < spaces {
        opening - spaces
    } else {
        trimmed
    }
}

// The start of an ATX heading's attribute block, and the end of its line: offsets into the text.
#[derive(Clone, Copy, Drop)]
struct AttributeBlock {
    opening: usize,
    line_end: usize,
}

// Returns where a heading's attribute block begins, where the line of the heading ends, and the index of its
// attributes; none of these if there is no block. The heading's text begins at the offset `start`. Adds the attributes
// to `allocs`. Without the option for heading attributes, it does not search for the end of the line, which reading the
// tokens finds anyway. Fails only if an allocation fails (this project).
#[inline(always)]
fn name_attribute_block<'a>(
    source: &Source<'a>,
    allocs: &mut Allocations<'a>,
    start: usize,
) -> Result<(Option<AttributeBlock>, Option<HeadingIndex>), AllocError>
    requires { start ≤ length source.now.text.now }
    ensures more { OnOk result (NamesMore allocs.old allocs.new) }
    ensures place { IfOk result (λ found. found.0 ≡ attribute_place source.now.options source.now.text.now start) }
    ensures named { IfOk result (λ found. (more : Names) → Extends more (names_of allocs.new)
        → NamesAttributes more found.1
        (heading_attributes_of source.now.options (line_from source.now.text.now start))) }
{
    if !source.options.contains(Options::ENABLE_HEADING_ATTRIBUTES) {
        return Ok((None, None));
    }
    let line_end = next_line(source.text.as_bytes(), start);
    let (opening, index) = name_attributes(source, allocs, start, line_end)?;
    if index.is_none() {
        return Ok((None, None));
    }
    Ok((Some(AttributeBlock { opening, line_end }), index))
}

// The start of the attribute block, if there is one: an offset into the text.
fn opening_of(block: Option<AttributeBlock>) -> Option<usize>
    ensures { result ≡ option_map (λ b. b.opening) block }
{
    block.map(|found| found.opening)
}

// The end of a heading's line: that recorded with its attribute block, or `next` if it has no block.
fn line_end_of(block: Option<AttributeBlock>, next: usize) -> usize
    ensures { result ≡ option_map_or (λ b. b.line_end) block next }
{
    match block {
        Some(found) => found.line_end,
        None => next,
    }
}

// A heading with at most one token, a text: the end of that token, and the end of the line after its line ending.
#[derive(Clone, Copy)]
struct PlainHeading {
    text_end: usize,
    next: usize,
}

// The length of a heading's text between two offsets without its closing sequence (CommonMark 4.2).
fn kept_between(text: &[u8], start: usize, end: usize) -> usize
    requires order { start ≤ end }
    requires within { end ≤ length text.now }
    ensures value { result ≡ kept_len_of (slice_range text.now start end) }
    ensures within { start + result ≤ end }
{
    kept_len(&text[start..end])
}

// Returns the ends of a heading with at most one token, if it has no attribute block and the first special byte of its
// content ends its line. A backslash is a special byte, so none is before the line ending then. Returns `None` for
// other headings, and if the content is empty.
#[inline(always)]
fn scan_plain_heading(content: Content<'_>) -> Option<PlainHeading>
    requires set { IfSome content.«end» (λ e. e ≤ length content.whole.now) }
    requires within { content.start ≤ length (text_upto content.whole.now content.«end») }
    requires marks { MarksSpecial content.special.now content.options }
    requires no_cell { content.row ≡ false }
    ensures whole { IfSome result (λ plain. content.entry.«end» ≡ None) }
    ensures plain { IfSome result (λ plain.
        IsPlainHeading (source content.entry no_braces) plain.text_end plain.next) }
{
    if content.end.is_some() {
        return None;
    }
    let found = scan_plain_content(content)?;
    let bytes = content.whole.as_bytes();
    if found.end <= content.start {
        return None;
    }
    let next = found.end + line_end_len(bytes, found.end);
    let kept = kept_between(bytes, content.start, next);
    let text_end = (content.start + kept).min(found.token_end);
    Some(PlainHeading { text_end, next })
}

/// Appends an ATX heading of this level to the innermost open node. It begins at the offset `start` into the text, and
/// its chain ends before its attribute block. Returns the offset at which its line ends, after the line ending
/// (CommonMark 4.2). Adds the attributes, and the texts that tokens name, to `allocs`. Fails only if an allocation
/// fails.
pub fn parse_atx_heading<'a>(
    source: &Source<'a>,
    tree: &mut Tree<Item>,
    allocs: &mut Allocations<'a>,
    start: usize,
    atx_level: HeadingLevel,
) -> Result<usize, AllocError>
    requires within { start ≤ length source.now.text.now }
    requires heading { atx_level_of (drop start source.now.text.now) ≡ Some atx_level }
    ensures more { OnOk result (NamesMore allocs.old allocs.new) }
    ensures block { IfOk result (λ next.
        AddsHeading (document source.now.text.now source.now.options (names_of allocs.new)) start atx_level
        tree.old tree.new next) }
    ensures fits { IfOk result (λ next. (from : ℕ) → from ≤ start → IsCharBoundary source.now.text.now start
        → AddsBetween source.now.text.now from next tree.old tree.new) }
{
    let header_start = heading_text_start(source.text.as_bytes(), start, atx_level);
    let (place, index) = name_attribute_block(source, allocs, header_start)?;
    let body = ItemBody::Heading(atx_level, index);
    let content = Content {
        options: source.options,
        whole: source.text,
        special: &source.special,
        start: header_start,
        end: opening_of(place),
        row: false,
    };
    // Most headings are plain text.
    if let Some(plain) = scan_plain_heading(content) {
        let end = plain.next;
        tree.append_with_text(Item { start, end, body }, header_start, plain.text_end)?;
        return Ok(end);
    }
    let heading_ix = open_block(tree, start, body)?;
    let next = heading_text(content, tree, allocs, heading_ix)?;
    let end = line_end_of(place, next);
    close_block(tree, end);
    Ok(end)
}

// Appends the chain of a heading with this content to `node_ix`, the innermost open node, which was just opened.
// Returns the end of the content, after its line ending if it has one. Adds the texts that tokens name to `allocs`.
#[inline(always)]
fn heading_text(
    content: Content<'_>,
    tree: &mut Tree<Item>,
    allocs: &mut Allocations<'_>,
    node_ix: TreeIndex,
) -> Result<usize, AllocError>
    requires set { IfSome content.«end» (λ e. e ≤ length content.whole.now) }
    requires within { content.start ≤ length (text_upto content.whole.now content.«end») }
    requires marks { MarksSpecial content.special.now content.options }
    requires no_cell { content.row ≡ false }
    requires opened { IsJustPushed tree.old node_ix }
    ensures more { OnOk result (NamesMore allocs.old allocs.new) }
    ensures place { IfOk result (λ next.
        next ≡ line_end_at (text_upto content.entry.whole.now content.entry.«end») content.entry.start) }
    ensures line { IfOk result (λ next. AppendsHeading (names_of allocs.new).texts (source content.entry no_braces)
        (slice_range content.entry.whole.now content.entry.start (unwrap_or content.entry.«end» next))
        tree.old tree.new) }
{
    let mut braces = BraceContexts::new();
    let (next, line_break) = allocs.append_line(content, tree, &mut braces)?;
    append_last_backslash(tree, line_break)?;
    let end = content.end.unwrap_or(next);
    let kept = kept_len(&content.whole.as_bytes()[content.start..end]);
    if kept == 0 {
        tree.drop_children(node_ix);
        return Ok(next);
    }
    tree.truncate_siblings(content.start + kept);
    Ok(next)
}
