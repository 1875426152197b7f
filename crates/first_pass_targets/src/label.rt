//! Labels of references (CommonMark 6.3).

ghost use Rattle.first_pass_links.specs.Labels.{begins_character, is_bracket, label_len};
ghost use Rattle.first_pass_targets.specs.InlineLabels.{inline_label_at, is_blank_label, is_short};
ghost use Rattle.first_pass_targets.specs.Parts.{IsPartFrom};
ghost use Rattle.std.specs.Prelude.{◌≡◌, ◌<◌, ◌≤◌, length, IfSome};
ghost use Rattle.std.specs.Str.{IsCharBoundary};

use crate::part::Part;
use first_pass_lines::lines::{begins, is_white_or_line_end};
use first_pass_lines::places::rest_of;
use first_pass_links::destination::unit_len;

// The most characters that a label may have (CommonMark 6.3).
const MOST_CHARACTERS: usize = 999;

/// Returns the label whose text begins at a place of a content, after its `[`. It may be blank. Returns `None` if no
/// unescaped `]` comes before an unescaped `[` or the end of the content, or if the text has more than 999 characters
/// (CommonMark 6.3).
#[tactic(auto, unfolding(crate::specs::InlineLabels::inline_label_at))]
pub fn scan_inline_label(content: &str, place: usize) -> Option<Part>
    requires { IsCharBoundary content.now place }
    ensures value { result ≡ inline_label_at content.now place }
    ensures from { IfSome result (IsPartFrom content.now place) }
    ensures past { IfSome result (λ label. label.«end» < label.past) }
{
    let rest = rest_of(content.as_bytes(), place);
    let len = label_len(rest);
    if !begins(b']', rest_of(rest, len)) || !is_short(&rest[..len]) {
        return None;
    }
    let end = place + len;
    Some(Part {
        start: place,
        end,
        past: end + 1,
    })
}

/// Returns whether a label has only white space and line endings. Such a label is no link label (CommonMark 6.3).
pub fn is_blank_label(label: &[u8]) -> bool
    ensures { result ≡ is_blank_label label.now }
{
    label.iter().all(|byte| is_white_or_line_end(*byte))
}

// The number of bytes before the first bracket that is not escaped.
fn label_len(bytes: &[u8]) -> usize
    ensures value { result ≡ label_len bytes.now }
    ensures within { result ≤ length bytes.now }
{
    let mut at = 0;
    while at < bytes.len() && !is_bracket(bytes[at]) {
        at += unit_len(rest_of(bytes, at));
    }
    at
}

fn is_bracket(byte: u8) -> bool
    ensures { result ≡ is_bracket byte }
{
    byte == b'[' || byte == b']'
}

// Whether these bytes have at most 999 characters.
fn is_short(label: &[u8]) -> bool
    ensures { result ≡ is_short label.now }
{
    let characters = label.iter().filter(|byte| begins_character(**byte)).count();
    characters <= MOST_CHARACTERS
}

// Whether a byte is the first of a character.
fn begins_character(byte: u8) -> bool
    ensures { result ≡ begins_character byte }
{
    byte < 0x80 || byte >= 0xc0
}
