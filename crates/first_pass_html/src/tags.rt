//! Tags that begin HTML blocks of the seventh kind.

ghost use Rattle.first_pass_html.specs.Fronts.{IsOnlyFront, HasNoFront, IsPastAttributes};
ghost use Rattle.first_pass_html.specs.TagLengths as lengths;
ghost use Rattle.first_pass_html.specs.Tags as tags;
ghost use Rattle.std.specs.List.{prefix_len};
ghost use Rattle.std.specs.Prelude.{◌≡◌, ◌<◌, ◌≤◌, ◌+◌, ℕ, length, IfSome, IfNone};

use crate::starts::is_raw_name;
use first_pass_lines::lines::{begins, scan_blank_line, scan_blanks};
use first_pass_lines::places::rest_of;

// The number of leading bytes that can continue a tag name after its first letter.
fn tag_bytes_len(bytes: &[u8]) -> usize
    ensures value { result ≡ prefix_len tags.is_tag_byte bytes.now }
    ensures within { result ≤ length bytes.now }
{
    bytes
        .iter()
        .take_while(|b| b.is_ascii_alphanumeric() || **b == b'-')
        .count()
}

/// Returns the length of the tag name at the start of the bytes, or `None` if there is none (CommonMark 6.6).
pub fn scan_tag_name(bytes: &[u8]) -> Option<usize>
    ensures value { result ≡ lengths.tag_name_len bytes.now }
    ensures within { IfSome result (λ n. n ≤ length bytes.now) }
{
    match bytes {
        [first, others @ ..] if first.is_ascii_alphabetic() => Some(1 + tag_bytes_len(others)),
        _ => None,
    }
}

// The number of leading bytes that can continue an attribute name after its first byte.
fn attribute_bytes_len(bytes: &[u8]) -> usize
    ensures value { result ≡ prefix_len tags.is_attribute_byte bytes.now }
    ensures within { result ≤ length bytes.now }
{
    bytes
        .iter()
        .take_while(|b| b.is_ascii_alphanumeric() || matches!(**b, b'_' | b'.' | b':' | b'-'))
        .count()
}

/// Returns the length of the attribute name at the start of the bytes, or `None` if there is none (CommonMark 6.6).
pub fn scan_attribute_name(bytes: &[u8]) -> Option<usize>
    ensures value { result ≡ lengths.attribute_name_len bytes.now }
    ensures within { IfSome result (λ n. n ≤ length bytes.now) }
{
    match bytes {
        [first, others @ ..] if first.is_ascii_alphabetic() || *first == b'_' || *first == b':' => {
            Some(1 + attribute_bytes_len(others))
        }
        _ => None,
    }
}

/// Returns the number of leading bytes that an unquoted attribute value can have (CommonMark 6.6).
pub fn unquoted_bytes_len(bytes: &[u8]) -> usize
    ensures value { result ≡ prefix_len tags.is_unquoted bytes.now }
    ensures within { result ≤ length bytes.now }
{
    bytes
        .iter()
        .take_while(|b| {
            !matches!(
                **b,
                b' ' | b'\t' | b'\n' | b'\r' | b'"' | b'\'' | b'=' | b'<' | b'>' | b'`'
            )
        })
        .count()
}

// The number of bytes before the quote or the line ending.
fn quoted_bytes_len(quote: u8, bytes: &[u8]) -> usize
    ensures value { result ≡ prefix_len (tags.is_quoted quote) bytes.now }
    ensures within { result ≤ length bytes.now }
{
    bytes
        .iter()
        .take_while(|b| **b != quote && **b != b'\n' && **b != b'\r')
        .count()
}

// The length of a quoted value, with both quotes. `inside` are the bytes after its opening quote.
#[tactic(auto, unfolding(crate::specs::TagLengths::quoted_len))]
fn scan_quoted(quote: u8, inside: &[u8]) -> Option<usize>
    requires { length inside.now < 0xFFFF_FFFF_FFFF_FFFF }
    ensures value { result ≡ lengths.quoted_len quote inside.now }
    ensures within { IfSome result (λ n. n ≤ length inside.now + 1) }
{
    let len = quoted_bytes_len(quote, inside);
    match rest_of(inside, len) {
        [first, ..] if *first == quote => Some(len + 2),
        _ => None,
    }
}

// The length of the attribute value at the start of the bytes, if there is one.
#[tactic(auto, unfolding(crate::specs::TagLengths::value_len))]
fn scan_value(bytes: &[u8]) -> Option<usize>
    ensures value { result ≡ lengths.value_len bytes.now }
    ensures within { IfSome result (λ n. n ≤ length bytes.now) }
{
    match bytes {
        [] => None,
        [quote @ (b'"' | b'\''), inside @ ..] => scan_quoted(*quote, inside),
        _ => match unquoted_bytes_len(bytes) {
            0 => None,
            len => Some(len),
        },
    }
}

// The length of leading blanks and the value after them, if there is one.
#[tactic(auto, unfolding(crate::specs::TagLengths::blanks_value_len))]
fn scan_blanks_value(bytes: &[u8]) -> Option<usize>
    ensures value { result ≡ lengths.blanks_value_len bytes.now }
    ensures within { IfSome result (λ n. n ≤ length bytes.now) }
{
    let blanks = scan_blanks(bytes);
    match scan_value(rest_of(bytes, blanks)) {
        Some(len) => Some(blanks + len),
        None => None,
    }
}

// The length of the value specification at the start of the bytes, or 0 if there is none.
#[tactic(auto, unfolding(crate::specs::TagLengths::specification_len))]
fn scan_specification(bytes: &[u8]) -> usize
    ensures value { result ≡ lengths.specification_len bytes.now }
    ensures within { result ≤ length bytes.now }
{
    let blanks = scan_blanks(bytes);
    match rest_of(bytes, blanks) {
        [b'=', ..] => match scan_blanks_value(rest_of(bytes, blanks + 1)) {
            Some(len) => blanks + 1 + len,
            None => 0,
        },
        _ => 0,
    }
}

// The length of an attribute name and its optional value specification, if there is a name.
#[tactic(auto, unfolding(crate::specs::TagLengths::named_len))]
fn scan_named(bytes: &[u8]) -> Option<usize>
    ensures value { result ≡ lengths.named_len bytes.now }
    ensures within { IfSome result (λ n. n ≤ length bytes.now) }
{
    match scan_attribute_name(bytes) {
        Some(len) => Some(len + scan_specification(rest_of(bytes, len))),
        None => None,
    }
}

// The length of the attribute at the start of the bytes, with the blanks before its name, if there is one.
#[tactic(auto, unfolding(crate::specs::TagLengths::attribute_len))]
fn scan_attribute(bytes: &[u8]) -> Option<usize>
    ensures value { result ≡ lengths.attribute_len bytes.now }
    ensures within { IfSome result (λ n. (0 < n) × (n ≤ length bytes.now)) }
{
    let blanks = scan_blanks(bytes);
    if blanks == 0 {
        return None;
    }
    match scan_named(rest_of(bytes, blanks)) {
        Some(len) => Some(blanks + len),
        None => None,
    }
}

/// Returns the length of `>` or `/>` at the start of the bytes, or `None` if neither is there (CommonMark 6.6).
pub fn scan_close(bytes: &[u8]) -> Option<usize>
    ensures value { result ≡ lengths.close_len bytes.now }
    ensures within { IfSome result (λ n. n ≤ length bytes.now) }
{
    match bytes {
        [b'>', ..] => Some(1),
        [b'/', b'>', ..] => Some(2),
        _ => None,
    }
}

// The length of the end of an open tag at the start of the bytes: blanks, an optional slash, and `>`.
#[tactic(auto, unfolding(crate::specs::TagLengths::open_end_len))]
fn scan_open_end(bytes: &[u8]) -> Option<usize>
    ensures value { result ≡ lengths.open_end_len bytes.now }
    ensures within { IfSome result (λ n. n ≤ length bytes.now) }
{
    let blanks = scan_blanks(bytes);
    match scan_close(rest_of(bytes, blanks)) {
        Some(len) => Some(blanks + len),
        None => None,
    }
}

// The length of all attributes at the start of the bytes.
fn scan_attributes(bytes: &[u8]) -> usize
    ensures value { IsPastAttributes bytes.now result }
    ensures within { result ≤ length bytes.now }
{
    let mut at = 0;
    while let Some(len) = scan_attribute(rest_of(bytes, at)) {
        at += len;
    }
    at
}

// The length of an open tag after its `<`, if its name is not one of raw text.
fn scan_open_tag(bytes: &[u8]) -> Option<usize>
    ensures found { IfSome result (IsOnlyFront tags.IsAfterOpening bytes.now) }
    ensures none { IfNone result (HasNoFront tags.IsAfterOpening bytes.now) }
{
    let name = scan_tag_name(bytes)?;
    if is_raw_name(&bytes[..name]) {
        return None;
    }
    let following = rest_of(bytes, name);
    let attributes = scan_attributes(following);
    let end = scan_open_end(rest_of(following, attributes))?;
    Some(name + attributes + end)
}

// The length of the end of a closing tag at the start of the bytes: blanks, and `>`.
#[tactic(auto, unfolding(crate::specs::TagLengths::closing_end_len))]
fn scan_closing_end(bytes: &[u8]) -> Option<usize>
    ensures value { result ≡ lengths.closing_end_len bytes.now }
    ensures within { IfSome result (λ n. n ≤ length bytes.now) }
{
    let blanks = scan_blanks(bytes);
    match rest_of(bytes, blanks) {
        [b'>', ..] => Some(blanks + 1),
        _ => None,
    }
}

// The length of a closing tag after its `</`.
fn scan_closing_tag(bytes: &[u8]) -> Option<usize>
    ensures found { IfSome result (IsOnlyFront tags.IsAfterClosing bytes.now) }
    ensures none { IfNone result (HasNoFront tags.IsAfterClosing bytes.now) }
{
    let name = scan_tag_name(bytes)?;
    let end = scan_closing_end(rest_of(bytes, name))?;
    Some(name + end)
}

// The length of the tag at the start of the bytes, if it can begin an HTML block.
fn scan_tag(bytes: &[u8]) -> Option<usize>
    ensures found { IfSome result (IsOnlyFront tags.IsBlockTag bytes.now) }
    ensures none { IfNone result (HasNoFront tags.IsBlockTag bytes.now) }
{
    if !begins(b'<', bytes) {
        return None;
    }
    let rest = rest_of(bytes, 1);
    if begins(b'/', rest) {
        let len = scan_closing_tag(rest_of(rest, 1))?;
        return Some(len + 2);
    }
    let len = scan_open_tag(rest)?;
    Some(len + 1)
}

/// Returns the length of the tag at the start of `bytes` if it begins an HTML block of the seventh kind. Such a tag
/// is complete on its line, and only white space follows it there. It is a closing tag, or an open tag whose name is
/// not pre, script, style or textarea in any case. Returns `None` if there is no such tag. CommonMark 4.6 and 6.6.
pub fn scan_html_type_7(bytes: &[u8]) -> Option<usize>
    ensures tag { IfSome result (tags.BeginsTagLine bytes.now) }
    ensures only { IfSome result (λ n. (m : ℕ) → tags.BeginsTagLine bytes.now m → m ≡ n) }
    ensures none { IfNone result ((m : ℕ) → tags.BeginsTagLine bytes.now m → ⊥) }
{
    let len = scan_tag(bytes)?;
    match scan_blank_line(rest_of(bytes, len)) {
        Some(_) => Some(len),
        None => None,
    }
}
