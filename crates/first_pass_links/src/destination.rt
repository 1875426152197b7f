//! Link destinations (CommonMark 6.3).

ghost use Rattle.first_pass_items.specs.Bytes.{ascii_end, left_parenthesis, right_parenthesis};
ghost use Rattle.first_pass_links.specs.Destinations.{unescaped_upto, ends_bracketed, ends_run, closes_none, nesting_after, bare_len, longer, destination_at};
ghost use Rattle.first_pass_links.specs.Escapes.{begins_escape};
ghost use Rattle.first_pass_links.specs.Runs.{is_run_byte};
ghost use Rattle.std.specs.Prelude.{◌≡◌, ℕ, ◌+◌, ◌<◌, ◌≤◌, ◌^◌, ◌==◌, ◌||◌, length, drop, slice_index, None, IfSome, IsSomeAnd, MatchOption, true, if◌then◌else◌};
ghost use Rattle.std.specs.Str.{IsCharBoundary};

use crate::plain::plain_run;
use first_pass_lines::lines::begins;
use first_pass_lines::places::rest_of;

/// Returns the length of the link destination at `start_ix`, and its text. `start_ix` is an offset into `text`; the
/// length is in bytes. If the destination is inside `<..>`, the length includes the angle brackets, the text does not.
/// Otherwise the destination ends before a space, an ASCII control character or an unescaped `)` that closes no
/// parenthesis, or at the end of `text`. Its unescaped parentheses are then balanced, and nest at most `max_next` deep.
/// Returns `None` if there is no destination. CommonMark 6.3.
#[tactic(auto, unfolding(crate::specs::Destinations::destination_at, crate::specs::Destinations::bracketed_at))]
pub fn scan_link_dest(text: &str, start_ix: usize, max_next: usize) -> Option<(usize, &str)>
    requires within { start_ix ≤ length text.now }
    requires boundary { IsCharBoundary text.now start_ix }
    ensures value { MatchOption (destination_at max_next (drop start_ix text.now))
        (result ≡ None)
        (λ destination. IsSomeAnd result (λ answer. (answer.0 ≡ destination.0) × (answer.1.now ≡ destination.1))) }
    ensures fits { IfSome result (λ answer. start_ix + answer.0 ≤ length text.now) }
    ensures following { IfSome result (λ answer. IsCharBoundary text.now (start_ix + answer.0)) }
{
    let bytes = rest_of(text.as_bytes(), start_ix);
    if begins(b'<', bytes) {
        let inside = start_ix + 1;
        let len = scan_brackets(&bytes[1..]);
        if begins(b'>', rest_of(bytes, 1 + len)) {
            return Some((len + 2, &text[inside..inside + len]));
        }
        return None;
    }
    match scan_run(bytes, max_next) {
        Some(len) if 0 < len => Some((len, &text[start_ix..start_ix + len])),
        _ => None,
    }
}

// The number of bytes before the first line ending, the first unescaped `<` or `>`, or the end.
fn scan_brackets(bytes: &[u8]) -> usize
    ensures value { result ≡ unescaped_upto ends_bracketed 0 bytes.now }
    ensures within { result ≤ length bytes.now }
{
    let mut at = 0;
    while at < bytes.len() && !ends_bracketed(bytes[at]) {
        at += unit_len(rest_of(bytes, at));
    }
    at
}

// The length of the run at the start, which is a destination outside `<..>` unless it is empty. `None` if an unescaped
// `(` is not closed, or if unescaped parentheses nest more than `deepest` deep.
fn scan_run(bytes: &[u8], deepest: usize) -> Option<usize>
    ensures value { result ≡ bare_len deepest 0 0 bytes.now }
    ensures within { IfSome result (λ len. len ≤ length bytes.now) }
    ensures ends { IfSome result (λ len. len < length bytes.now → slice_index bytes.now len < ascii_end) }
{
    let mut at = 0;
    let mut nesting = 0;
    while at < bytes.len() && !ends_run(bytes[at]) {
        if !is_parenthesis(bytes[at]) {
            at += text_len(rest_of(bytes, at));
            continue;
        }
        if closes_none(bytes[at], nesting) {
            return Some(at);
        }
        nesting = nesting_after(bytes[at], nesting);
        if nesting > deepest {
            return None;
        }
        at += 1;
    }
    if nesting == 0 { Some(at) } else { None }
}

// The length of a part of a run. The part begins with no parenthesis: it is a backslash and the byte after it, escaped
// or not, or one other byte and the plain bytes after it. A backslash at the end, or before a byte that ends the run,
// is a part by itself.
#[inline(always)]
fn text_len(bytes: &[u8]) -> usize
    requires some { 0 < length bytes.now }
    requires part { is_run_byte (slice_index bytes.now 0) ≡ true }
    ensures within { result ≤ length bytes.now }
    ensures some { 0 < result }
    ensures passed { (deepest nesting : ℕ) → nesting ≤ deepest
        → longer result (bare_len deepest nesting 0 (drop result bytes.now)) ≡ bare_len deepest nesting 0 bytes.now }
{
    if bytes[0] != b'\\' {
        return 1 + plain_run(rest_of(bytes, 1));
    }
    if bytes.len() < 2 || ends_run(bytes[1]) {
        return 1;
    }
    2
}

// Whether the byte is a parenthesis.
fn is_parenthesis(byte: u8) -> bool
    ensures { result ≡ (byte == left_parenthesis || byte == right_parenthesis) }
{
    matches!(byte, b'(' | b')')
}

// Whether the byte is a `)` and no parenthesis is open.
fn closes_none(byte: u8, nesting: usize) -> bool
    ensures { result ≡ closes_none byte nesting }
{
    byte == b')' && nesting == 0
}

// The number of open parentheses after a byte.
fn nesting_after(byte: u8, nesting: usize) -> usize
    requires { nesting < 2 ^ 63 }
    ensures value { result ≡ nesting_after byte nesting }
    ensures small { result ≤ nesting + 1 }
{
    match byte {
        b'(' => nesting + 1,
        b')' => nesting.saturating_sub(1),
        _ => nesting,
    }
}

fn ends_bracketed(byte: u8) -> bool
    ensures { result ≡ ends_bracketed byte }
{
    matches!(byte, b'\n' | b'\r' | b'<' | b'>')
}

fn ends_run(byte: u8) -> bool
    ensures { result ≡ ends_run byte }
{
    byte.is_ascii_control() || byte == b' '
}

/// Returns the length of the unit at the start of `bytes`: two for a backslash escape, one for any other byte.
/// `bytes` is not empty. CommonMark 2.4.
#[inline(always)]
pub fn unit_len(bytes: &[u8]) -> usize
    requires { 0 < length bytes.now }
    ensures value { result ≡ (if begins_escape bytes.now then 2 else 1) }
    ensures some { 0 < result }
    ensures within { result ≤ length bytes.now }
{
    match bytes {
        [b'\\', escaped, ..] if escaped.is_ascii_punctuation() => 2,
        _ => 1,
    }
}
