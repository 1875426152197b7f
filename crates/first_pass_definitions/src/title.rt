//! The title of a link reference definition.

ghost use Rattle.first_pass_definitions.specs.Memory.{title_asks, text_asks};
ghost use Rattle.first_pass_definitions.specs.Reading.{ClosesTitle, stops_title_line, is_title_text, goes_on_at};
ghost use Rattle.first_pass_entities.specs.Texts.{Borrows};
ghost use Rattle.first_pass_grammar.specs.Definitions.{title_at, title_end, title_text, title_prefix};
ghost use Rattle.first_pass_items.specs.Bytes.{line_feed};
ghost use Rattle.first_pass_items.specs.CowText.{text_of};
ghost use Rattle.first_pass_kinds.specs.Memory.{line_may_head_table};
ghost use Rattle.first_pass_kinds.specs.Rests.{IsRestOf};
ghost use Rattle.first_pass_lines.specs.Lanes.{IsRunIn};
ghost use Rattle.first_pass_lines.specs.Lines.{is_line_end, begins, blank_len, eol_len};
ghost use Rattle.first_pass_lines.specs.Places.{line_rest};
ghost use Rattle.first_pass_links.specs.Destinations.{unescaped_upto};
ghost use Rattle.first_pass_links.specs.Units.{part};
ghost use Rattle.first_pass_open.specs.Path.{context_of};
ghost use Rattle.std.specs.List.{list_any};
ghost use Rattle.std.specs.Option.{option_and_then, option_map_or};
ghost use Rattle.std.specs.Prelude.{◌≡◌, ℕ, ◌+◌, ◌<◌, ◌≤◌, ◌++◌, ◌||◌, length, slice_index, drop, None, Some, [], true, slice_get, IfOk, IfSome, OnErr, IsSomeAnd, MatchOption, IsCharBoundary, IsUtf8, false};
ghost use Rattle.std.specs.String.{string_bytes};

use first_pass_items::cow_str::CowStr;
use first_pass_items::item::Item;
use first_pass_kinds::interrupt::scan_line_crossed;
use first_pass_lines::lanes::{LANES, first_set};
use first_pass_lines::lines::{begins, is_line_end, scan_blank_line, scan_eol};
use first_pass_lines::places::rest_of;
use first_pass_links::destination::unit_len;
use first_pass_open::source::Source;
use first_pass_tree::forest::Tree;
use std::alloc::AllocError;
use std::simd::prelude::*;

/// Reads the title at the start of `text`, which is the rest of the whole text from a place on. Returns its length in
/// bytes, with its delimiters (`'..'`, `".."` or `(..)`), and the text between these, not yet unescaped. The title
/// continues over the lines that a definition crosses, each without the prefixes and the indentation before its text.
/// Each line ending is one `\n`. If there is no line ending, the text is borrowed and needs no memory.
///
/// Returns `None` if no title begins there. Also returns `None` if a blank line, a line that ends the definition or the
/// end of the text comes before the end of the title. A title in parentheses may not have an unescaped `(` either.
/// Fails only if an allocation fails. That can happen only if the title has a line ending, and the line after the first
/// one either continues the title or may head a table (CommonMark 4.7, 6.3).
pub fn scan_refdef_title<'t>(
    source: &Source<'_>,
    tree: &Tree<Item>,
    text: &'t str,
) -> Result<Option<(usize, CowStr<'t>)>, AllocError>
    requires { IsRestOf source.now.text.now text.now }
    ensures value { IfOk result (λ answer. MatchOption (title_at (context_of source.now.options tree.now) text.now)
        (answer ≡ None)
        (λ title. IsSomeAnd answer (λ found. (found.0 ≡ title.0) × (text_of found.1 ≡ title.1)))) }
    ensures fits { IfOk result (λ answer. IfSome answer (λ found. (1 < found.0) × IsCharBoundary text.now found.0)) }
    ensures borrowed { IfOk result (λ answer. IfSome answer (λ found.
        list_any is_line_end (text_of found.1) ≡ false → Borrows (text_of found.1) found.1)) }
    ensures err { OnErr result (title_asks (context_of source.now.options tree.now) text.now ≡ true) }
{
    let bytes = text.as_bytes();
    let Some(close) = title_end(bytes) else {
        return Ok(None);
    };
    match scan_title_text(source, tree, &text[1..], close)? {
        Some((len, title)) => Ok(Some((len + 1, title))),
        None => Ok(None),
    }
}

// The byte that ends the title that begins here.
fn title_end(bytes: &[u8]) -> Option<u8>
    ensures value { result ≡ option_and_then title_end (slice_get bytes.now 0) }
    ensures some { IfSome result (λ _. 0 < length bytes.now) }
    ensures closes { IfSome result ClosesTitle }
{
    match bytes {
        [b'"', ..] => Some(b'"'),
        [b'\'', ..] => Some(b'\''),
        [b'(', ..] => Some(b')'),
        _ => None,
    }
}

// The title after its first byte, given the byte that ends it: its length in bytes, with its end, and its text.
fn scan_title_text<'t>(
    source: &Source<'_>,
    tree: &Tree<Item>,
    text: &'t str,
    close: u8,
) -> Result<Option<(usize, CowStr<'t>)>, AllocError>
    requires rest { IsRestOf source.now.text.now text.now }
    requires close { ClosesTitle close }
    ensures value { IfOk result (λ answer. MatchOption
        (title_text (title_prefix (context_of source.now.options tree.now)) close text.now)
        (answer ≡ None)
        (λ title. IsSomeAnd answer (λ found. (found.0 ≡ title.0) × (text_of found.1 ≡ title.1)))) }
    ensures fits { IfOk result (λ answer. IfSome answer (λ found. (0 < found.0) × IsCharBoundary text.now found.0)) }
    ensures borrowed { IfOk result (λ answer. IfSome answer (λ found.
        list_any is_line_end (text_of found.1) ≡ false → Borrows (text_of found.1) found.1)) }
    ensures err { OnErr result (text_asks (context_of source.now.options tree.now) close text.now ≡ true) }
{
    let bytes = text.as_bytes();
    let mut written = String::new(source.alloc);
    let mut from = 0;
    loop {
        let at = from + scan_title_line(rest_of(bytes, from), close);
        if begins(close, rest_of(bytes, at)) {
            return Ok(Some((at + 1, finish(written, text, from, at)?)));
        }
        let Some(next) = scan_title_break(source, tree, bytes, at)? else {
            return Ok(None);
        };
        written.push_str(&text[from..at])?;
        written.push('\n')?;
        from = next;
    }
}

// The number of bytes before the end of the title or of the line.
fn scan_title_line(bytes: &[u8], close: u8) -> usize
    requires { ClosesTitle close }
    ensures value { result ≡ unescaped_upto (stops_title_line close) 0 bytes.now }
    ensures within { result ≤ length bytes.now }
{
    let mut at = 0;
    while at < bytes.len() && !stops_title_line(bytes[at], close) {
        at += unit_len(rest_of(bytes, at));
        at += title_run(rest_of(bytes, at));
    }
    at
}

// The number of bytes at the start at which reading of a line never stops and which escape nothing: at most 16, or 0 if
// there are fewer than 16 bytes.
#[inline(always)]
fn title_run(bytes: &[u8]) -> usize
    ensures within { result ≤ length bytes.now }
    ensures text { (k : ℕ) → k < result → is_title_text (slice_index bytes.now k) ≡ true }
{
    if bytes.len() < LANES {
        return 0;
    }
    title_lanes(bytes)
}

// The same for at least 16 bytes.
#[inline(always)]
fn title_lanes(bytes: &[u8]) -> usize
    requires { 16 ≤ length bytes.now }
    ensures { IsRunIn is_title_text bytes.now 0 16 result }
{
    let lanes = u8x16::from_slice(bytes);
    let marks = lanes.simd_lt(u8x16::splat(b'*')) & lanes.simd_ne(u8x16::splat(b' '));
    let others = marks | lanes.simd_eq(u8x16::splat(b'\\'));
    first_set(others.to_bitmask())
}

// Whether reading a line of a title stops at this byte if it is unescaped: a byte of a line ending, the closing byte,
// or in parentheses `(`.
fn stops_title_line(byte: u8, close: u8) -> bool
    requires { ClosesTitle close }
    ensures { result ≡ stops_title_line close byte }
{
    // Reading stops at no byte greater than `)`. Most bytes of a title are letters, and need only this test.
    if byte > b')' {
        return false;
    }
    is_line_end(byte) || byte == close || close == b')' && byte == b'('
}

// The offset at which a title continues after the line ending at the offset `at`; `None` if no line ends there, or if
// the title does not continue.
fn scan_title_break(
    source: &Source<'_>,
    tree: &Tree<Item>,
    bytes: &[u8],
    at: usize,
) -> Result<Option<usize>, AllocError>
    requires rest { IsRestOf source.now.text.now bytes.now }
    requires utf8 { IsUtf8 bytes.now }
    requires at { IsCharBoundary bytes.now at }
    ensures value { IfOk result (λ answer. answer
        ≡ goes_on_at (title_prefix (context_of source.now.options tree.now)) bytes.now at) }
    ensures place { IfOk result (λ answer. IfSome answer (λ next. (at < next) × IsCharBoundary bytes.now next)) }
    ensures texts { IfOk result (λ answer. IfSome answer (λ next. begins line_feed (drop next bytes.now) ≡ false)) }
    ensures err { OnErr result (option_map_or (λ e. line_may_head_table (context_of source.now.options tree.now)
        (line_rest (drop (at + e) bytes.now))) (eol_len (drop at bytes.now)) false ≡ true) }
{
    let Some(line_end) = scan_eol(rest_of(bytes, at)) else {
        return Ok(None);
    };
    let next = at + line_end;
    match scan_title_prefix(source, tree, rest_of(bytes, next))? {
        Some(prefix) => Ok(Some(next + prefix)),
        None => Ok(None),
    }
}

// How many bytes of the first line of `bytes` (the rest of the text) precede the place where a title continues. `None`
// if it does not continue in that line.
fn scan_title_prefix(
    source: &Source<'_>,
    tree: &Tree<Item>,
    bytes: &[u8],
) -> Result<Option<usize>, AllocError>
    requires { IsRestOf source.now.text.now bytes.now }
    ensures value { IfOk result (λ answer.
        answer ≡ title_prefix (context_of source.now.options tree.now) bytes.now) }
    ensures place { IfOk result (λ answer. IfSome answer (λ n. IsCharBoundary bytes.now n)) }
    ensures text { IfOk result (λ answer. IfSome answer (λ n. blank_len (drop n bytes.now) ≡ None)) }
    ensures err { OnErr result (line_may_head_table (context_of source.now.options tree.now)
        (line_rest bytes.now) ≡ true) }
{
    let start = source.text.len() - bytes.len();
    let Some(rest) = scan_line_crossed(source, tree, start, false)? else {
        return Ok(None);
    };
    let mut text = rest;
    text.scan_all_space();
    if scan_blank_line(text.left()).is_some() {
        return Ok(None);
    }
    Ok(Some(text.bytes_scanned()))
}

// The title whose last line begins at the offset `from` and ends at the offset `at`.
fn finish<'t>(
    mut written: String,
    text: &'t str,
    from: usize,
    at: usize,
) -> Result<CowStr<'t>, AllocError>
    requires order { from ≤ at }
    requires from { IsCharBoundary text.now from }
    requires at { IsCharBoundary text.now at }
    requires nothing { from ≡ 0 → string_bytes written ≡ [] }
    requires lines { 0 < from → list_any is_line_end (string_bytes written) ≡ true }
    ensures value { IfOk result (λ title. text_of title ≡ string_bytes written ++ part text.now from at) }
    ensures borrowed { IfOk result (λ title.
        list_any is_line_end (text_of title) ≡ false → Borrows (text_of title) title) }
    ensures err { OnErr result (0 < from) }
{
    if from == 0 {
        return Ok(CowStr::Borrowed(&text[..at]));
    }
    written.push_str(&text[from..at])?;
    Ok(CowStr::Boxed(written.into_boxed_str()))
}
