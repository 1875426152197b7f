//! Backslash escapes (CommonMark 2.4) and references (2.5) in a text, replaced by their characters.

ghost use Rattle.first_pass_entities.specs.Entities.{entity_at, name_at, numeric_at};
ghost use Rattle.first_pass_entities.specs.Texts.{Borrows, TakesNoMemory};
ghost use Rattle.first_pass_items.specs.Bytes.{small_x, capital_x};
ghost use Rattle.first_pass_items.specs.CowText.{text_of};
ghost use Rattle.first_pass_lines.specs.Lanes.{IsRunIn};
ghost use Rattle.first_pass_links.specs.Changes.{change_at, IsChange};
ghost use Rattle.first_pass_links.specs.Escapes.{unescaped};
ghost use Rattle.first_pass_links.specs.Plain.{is_unmarked};
ghost use Rattle.first_pass_links.specs.Units.{part};
ghost use Rattle.std.specs.Char.{is_ascii_digit};
ghost use Rattle.std.specs.Prelude.{◌≡◌, ◌==◌, ◌||◌, false, ◌+◌, ◌<◌, ◌≤◌, ◌++◌, length, drop, unwrap_or, IfOk, IsOkAnd, OnOk, IfSome, IfNone, IsCharBoundary};
ghost use Rattle.std.specs.String.{string_bytes};

use crate::plain::unmarked_run;
use first_pass_entities::entity::scan_reference;
use first_pass_items::cow_str::CowStr;
use first_pass_lines::lanes::LANES;
use first_pass_lines::lines::begins;
use first_pass_lines::places::rest_of;
use std::alloc::{AllocError, Global};

/// Returns the text with each backslash escape and each reference replaced by its character. In a table, a backslash
/// directly before a pipe is dropped first. If nothing changes, the result borrows the text and takes no memory.
/// Fails only if an allocation fails, which can happen only if something changes. CommonMark 2.4, 2.5, GFM 4.10.
#[inline(always)]
pub fn unescape<'a>(alloc: Global, text: &'a str, in_table: bool) -> Result<CowStr<'a>, AllocError>
    ensures value { IfOk result (λ answer. text_of answer ≡ unescaped in_table text.now) }
    ensures borrowed { unescaped in_table text.now ≡ text.now → IsOkAnd result (Borrows text.now) }
    ensures changed { IfOk result (λ answer. TakesNoMemory answer → unescaped in_table text.now ≡ text.now) }
{
    match next_mark(text.as_bytes()) {
        None => Ok(CowStr::Borrowed(text)),
        Some(_) => unescape_marked(alloc, text, in_table),
    }
}

// The same, not inlined: most texts have no backslash and no `&`, so the code that writes a string stays out of the
// callers.
#[inline(never)]
fn unescape_marked<'a>(
    alloc: Global,
    text: &'a str,
    in_table: bool,
) -> Result<CowStr<'a>, AllocError>
    ensures value { IfOk result (λ answer. text_of answer ≡ unescaped in_table text.now) }
    ensures borrowed { unescaped in_table text.now ≡ text.now → IsOkAnd result (Borrows text.now) }
    ensures changed { IfOk result (λ answer. TakesNoMemory answer → unescaped in_table text.now ≡ text.now) }
{
    let mut written = String::new(alloc);
    let mut from = 0;
    while let Some((at, len, character)) = next_change(text.as_bytes(), from, in_table) {
        push_between(&mut written, text, from, at)?;
        written.push(character)?;
        from = at + len;
    }
    if from == 0 {
        return Ok(CowStr::Borrowed(text));
    }
    written.push_str(&text[from..])?;
    Ok(CowStr::Boxed(written.into_boxed_str()))
}

// Appends the bytes of the text from one offset up to another. Between two changes there are often none.
#[inline(always)]
fn push_between(written: &mut String, text: &str, from: usize, to: usize) -> Result<(), AllocError>
    requires order { from ≤ to }
    requires from { IsCharBoundary text.now from }
    requires to { IsCharBoundary text.now to }
    ensures bytes { OnOk result (string_bytes written.new ≡ string_bytes written.old ++ part text.now from to) }
{
    if from == to {
        return Ok(());
    }
    written.push_str(&text[from..to])
}

// The first bytes at or after the offset `from` that unescaping replaces by one character: their offset, their number,
// and that character.
fn next_change(bytes: &[u8], from: usize, in_table: bool) -> Option<(usize, usize, char)>
    requires { from ≤ length bytes.now }
    ensures some { IfSome result (λ change. IsChange in_table bytes.now from change) }
    ensures none { IfNone result (unescaped in_table (drop from bytes.now) ≡ drop from bytes.now) }
{
    // Changes often follow each other directly.
    if let Some((len, character)) = change_at(rest_of(bytes, from), in_table) {
        return Some((from, len, character));
    }
    let mut at = from;
    while let Some(plain) = next_mark(rest_of(bytes, at)) {
        at += plain;
        if let Some((len, character)) = change_at(rest_of(bytes, at), in_table) {
            return Some((at, len, character));
        }
        at += 1;
    }
    None
}

// The offset of the first backslash or `&`. Most texts are short, and `memchr2` costs more before it tests the first
// byte.
#[inline(always)]
fn next_mark(bytes: &[u8]) -> Option<usize>
    ensures within { IfSome result (λ at. at < length bytes.now) }
    ensures first { IsRunIn is_unmarked bytes.now 0 (length bytes.now) (unwrap_or result (length bytes.now)) }
{
    let mut at = 0;
    while bytes.len() - at >= LANES {
        let run = unmarked_run(bytes, at);
        at += run;
        if run < LANES {
            return Some(at);
        }
    }
    while at < bytes.len() {
        if matches!(bytes[at], b'\\' | b'&') {
            return Some(at);
        }
        at += 1;
    }
    None
}

// The bytes at the start that unescaping replaces by one character: their number, and that character.
#[inline(always)]
#[tactic(auto, unfolding(crate::specs::Changes::change_at, crate::specs::Escapes::replaced_at))]
fn change_at(bytes: &[u8], in_table: bool) -> Option<(usize, char)>
    ensures { result ≡ change_at in_table bytes.now }
{
    match bytes {
        [b'\\', b'\\', b'|', ..] if in_table => Some((3, '|')),
        [b'\\', escaped, ..] if escaped.is_ascii_punctuation() => Some((2, *escaped as char)),
        _ => reference_at(bytes),
    }
}

// The same for a reference. `scan_reference` is not inlined, and most bytes begin no reference. So it is called only if
// a number can follow `&#`, or a name can follow `&`.
#[inline(always)]
#[tactic(auto, unfolding(first_pass_entities::specs::Entities::entity_at))]
fn reference_at(bytes: &[u8]) -> Option<(usize, char)>
    ensures { result ≡ entity_at bytes.now }
{
    if !begins(b'&', bytes) {
        return None;
    }
    let rest = rest_of(bytes, 1);
    if begins(b'#', rest) {
        if !may_begin_number(rest_of(bytes, 2)) {
            return None;
        }
    } else if !may_begin_name(rest) {
        return None;
    }
    scan_reference(bytes)
}

// Returns `false` only if no name of an entity begins here. Such a name begins with a letter.
#[inline(always)]
fn may_begin_name(bytes: &[u8]) -> bool
    ensures { result ≡ false → name_at bytes.now ≡ None }
{
    if bytes.is_empty() {
        return false;
    }
    bytes[0].is_ascii_alphabetic()
}

// Returns `false` only if no number of a numeric reference begins here. Such a number begins with a digit, or with an
// `x` or `X`.
#[inline(always)]
fn may_begin_number(bytes: &[u8]) -> bool
    ensures { result ≡ false → numeric_at bytes.now ≡ None }
{
    if bytes.is_empty() {
        return false;
    }
    begins_number(bytes[0])
}

// Whether a byte is a digit, or an `x` or `X`.
#[inline(always)]
fn begins_number(byte: u8) -> bool
    ensures { result ≡ (is_ascii_digit byte || (byte == small_x || byte == capital_x)) }
{
    matches!(byte, b'0'..=b'9' | b'x' | b'X')
}
