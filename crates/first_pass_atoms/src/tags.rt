//! Open tags and closing tags, which may hold newlines. CommonMark 6.6.

ghost use Rattle.first_pass_atoms.specs.TagLengths as lengths;
ghost use Rattle.std.specs.List.{prefix_len};
ghost use Rattle.std.specs.Prelude.{◌≡◌, ◌<◌, ◌≤◌, ◌+◌, length, IfSome};

use crate::blanks::scan_blanks;
use first_pass_html::tags::{scan_attribute_name, scan_close, scan_tag_name, unquoted_bytes_len};
use first_pass_lines::places::rest_of;

// The number of bytes before the quote.
fn quoted_bytes_len(quote: u8, bytes: &[u8]) -> usize
    ensures value { result ≡ prefix_len (lengths.is_quoted quote) bytes.now }
    ensures within { result ≤ length bytes.now }
{
    bytes.iter().take_while(|b| **b != quote).count()
}

// The length of a quoted value, with both quotes. `inside` are the bytes after its opening quote.
#[tactic(auto, unfolding(crate::specs::TagLengths::quoted_len))]
fn scan_quoted(quote: u8, inside: &[u8]) -> Option<usize>
    requires { length inside.now < 0xFFFF_FFFF_FFFF_FFFF }
    ensures value { result ≡ lengths.quoted_len quote inside.now }
    ensures within { IfSome result (λ n. n ≤ length inside.now + 1) }
{
    let len = quoted_bytes_len(quote, inside);
    match rest_of(inside, len) {
        [first, ..] if *first == quote => Some(len + 2),
        _ => None,
    }
}

// The length of the attribute value at the start of the bytes, if there is one.
#[tactic(auto, unfolding(crate::specs::TagLengths::value_len))]
fn scan_value(bytes: &[u8]) -> Option<usize>
    ensures value { result ≡ lengths.value_len bytes.now }
    ensures within { IfSome result (λ n. n ≤ length bytes.now) }
{
    match bytes {
        [] => None,
        [quote @ (b'"' | b'\''), inside @ ..] => scan_quoted(*quote, inside),
        _ => match unquoted_bytes_len(bytes) {
            0 => None,
            len => Some(len),
        },
    }
}

// The length of leading blanks and the value after them, if there is one.
#[tactic(auto, unfolding(crate::specs::TagLengths::blanks_value_len))]
fn scan_blanks_value(bytes: &[u8]) -> Option<usize>
    ensures value { result ≡ lengths.blanks_value_len bytes.now }
    ensures within { IfSome result (λ n. n ≤ length bytes.now) }
{
    let blanks = scan_blanks(bytes);
    match scan_value(rest_of(bytes, blanks)) {
        Some(len) => Some(blanks + len),
        None => None,
    }
}

// The length of the value specification at the start of the bytes, or 0 if there is none.
#[tactic(auto, unfolding(crate::specs::TagLengths::specification_len))]
fn scan_specification(bytes: &[u8]) -> usize
    ensures value { result ≡ lengths.specification_len bytes.now }
    ensures within { result ≤ length bytes.now }
{
    let blanks = scan_blanks(bytes);
    match rest_of(bytes, blanks) {
        [b'=', ..] => match scan_blanks_value(rest_of(bytes, blanks + 1)) {
            Some(len) => blanks + 1 + len,
            None => 0,
        },
        _ => 0,
    }
}

// The length of an attribute name and its optional value specification, if there is a name.
#[tactic(auto, unfolding(crate::specs::TagLengths::named_len))]
fn scan_named(bytes: &[u8]) -> Option<usize>
    ensures value { result ≡ lengths.named_len bytes.now }
    ensures within { IfSome result (λ n. n ≤ length bytes.now) }
{
    match scan_attribute_name(bytes) {
        Some(len) => Some(len + scan_specification(rest_of(bytes, len))),
        None => None,
    }
}

// The length of the attribute at the start of the bytes, with the blanks before its name, if there is one.
#[tactic(auto, unfolding(crate::specs::TagLengths::attribute_len))]
fn scan_attribute(bytes: &[u8]) -> Option<usize>
    ensures value { result ≡ lengths.attribute_len bytes.now }
    ensures within { IfSome result (λ n. (0 < n) × (n ≤ length bytes.now)) }
{
    let blanks = scan_blanks(bytes);
    if blanks == 0 {
        return None;
    }
    match scan_named(rest_of(bytes, blanks)) {
        Some(len) => Some(blanks + len),
        None => None,
    }
}

// The length of all attributes at the start of the bytes.
fn scan_attributes(bytes: &[u8]) -> usize
    ensures value { result ≡ lengths.attributes_len bytes.now }
    ensures within { result ≤ length bytes.now }
{
    let mut at = 0;
    while let Some(len) = scan_attribute(rest_of(bytes, at)) {
        at += len;
    }
    at
}

// The length of the end of an open tag at the start of the bytes: blanks, an optional slash, and `>`.
#[tactic(auto, unfolding(crate::specs::TagLengths::open_end_len))]
fn scan_open_end(bytes: &[u8]) -> Option<usize>
    ensures value { result ≡ lengths.open_end_len bytes.now }
    ensures within { IfSome result (λ n. n ≤ length bytes.now) }
{
    let blanks = scan_blanks(bytes);
    match scan_close(rest_of(bytes, blanks)) {
        Some(len) => Some(blanks + len),
        None => None,
    }
}

// The length of the attributes and the end of an open tag at the start of the bytes.
#[tactic(auto, unfolding(crate::specs::TagLengths::tag_rest_len))]
fn scan_tag_rest(bytes: &[u8]) -> Option<usize>
    ensures value { result ≡ lengths.tag_rest_len bytes.now }
    ensures within { IfSome result (λ n. n ≤ length bytes.now) }
{
    let attributes = scan_attributes(bytes);
    match scan_open_end(rest_of(bytes, attributes)) {
        Some(len) => Some(attributes + len),
        None => None,
    }
}

/// Returns the length of the open tag whose `<` directly precedes `bytes`, without that `<`, or `None` if there is
/// none. CommonMark 6.6.
#[tactic(auto, unfolding(crate::specs::TagLengths::open_tag_len))]
pub(crate) fn scan_open_tag(bytes: &[u8]) -> Option<usize>
    ensures value { result ≡ lengths.open_tag_len bytes.now }
    ensures within { IfSome result (λ n. n ≤ length bytes.now) }
{
    let name = scan_tag_name(bytes)?;
    match scan_tag_rest(rest_of(bytes, name)) {
        Some(len) => Some(name + len),
        None => None,
    }
}

// The length of the end of a closing tag at the start of the bytes: blanks, and `>`.
#[tactic(auto, unfolding(crate::specs::TagLengths::closing_end_len))]
fn scan_closing_end(bytes: &[u8]) -> Option<usize>
    ensures value { result ≡ lengths.closing_end_len bytes.now }
    ensures within { IfSome result (λ n. n ≤ length bytes.now) }
{
    let blanks = scan_blanks(bytes);
    match rest_of(bytes, blanks) {
        [b'>', ..] => Some(blanks + 1),
        _ => None,
    }
}

/// Returns the length of the closing tag whose `</` directly precedes `bytes`, without that `</`, or `None` if there is
/// none. CommonMark 6.6.
#[tactic(auto, unfolding(crate::specs::TagLengths::closing_tag_len))]
pub(crate) fn scan_closing_tag(bytes: &[u8]) -> Option<usize>
    ensures value { result ≡ lengths.closing_tag_len bytes.now }
    ensures within { IfSome result (λ n. n ≤ length bytes.now) }
{
    let name = scan_tag_name(bytes)?;
    match scan_closing_end(rest_of(bytes, name)) {
        Some(len) => Some(name + len),
        None => None,
    }
}
