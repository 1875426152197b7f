//! Titles of inline links (CommonMark 6.3).

ghost use Rattle.first_pass_grammar.specs.Definitions.{ends_title, title_end};
ghost use Rattle.first_pass_items.specs.Bytes.{ascii_end, backslash};
ghost use Rattle.first_pass_links.specs.Destinations.{unescaped_upto};
ghost use Rattle.first_pass_targets.specs.Parts.{IsPartFrom};
ghost use Rattle.first_pass_targets.specs.Targets.{inline_title_at};
ghost use Rattle.std.specs.Prelude.{◌≡◌, ◌≢◌, ◌<◌, ◌≤◌, length, IfSome};
ghost use Rattle.std.specs.Str.{IsCharBoundary};

use crate::part::Part;
use first_pass_lines::lines::begins;
use first_pass_lines::places::rest_of;
use first_pass_links::destination::unit_len;

/// Returns the title at a place of a content: `"..."`, `'...'` or `(...)`. Its text may have newlines, and the bytes
/// that end it if they are escaped. In parentheses it has no unescaped `(`. Returns `None` if no title is there
/// (CommonMark 6.3).
#[tactic(auto, unfolding(crate::specs::Targets::inline_title_at))]
pub fn scan_inline_title(content: &str, place: usize) -> Option<Part>
    requires { IsCharBoundary content.now place }
    ensures value { result ≡ inline_title_at content.now place }
    ensures from { IfSome result (IsPartFrom content.now place) }
{
    let bytes = content.as_bytes();
    let close = title_end(*bytes.get(place)?)?;
    let start = place + 1;
    let end = start + title_len(rest_of(bytes, start), close);
    if !begins(close, rest_of(bytes, end)) {
        return None;
    }
    Some(Part {
        start,
        end,
        past: end + 1,
    })
}

// The end of a title that begins with this byte.
fn title_end(byte: u8) -> Option<u8>
    ensures value { result ≡ title_end byte }
    ensures ascii { IfSome result (λ close. (byte < ascii_end) × (close < ascii_end) × (close ≢ backslash)) }
{
    match byte {
        b'"' | b'\'' => Some(byte),
        b'(' => Some(b')'),
        _ => None,
    }
}

// The number of bytes before the first unescaped one that ends the title.
fn title_len(bytes: &[u8], close: u8) -> usize
    requires { close ≢ backslash }
    ensures value { result ≡ unescaped_upto (ends_title close) 0 bytes.now }
    ensures within { result ≤ length bytes.now }
{
    let mut at = 0;
    while at < bytes.len() && !ends_title(close, bytes[at]) {
        at += unit_len(rest_of(bytes, at));
    }
    at
}

fn ends_title(close: u8, byte: u8) -> bool
    ensures { result ≡ ends_title close byte }
{
    byte == close || close == b')' && byte == b'('
}
