//! Destinations of inline links (CommonMark 6.3).

ghost use Rattle.first_pass_links.specs.Runs.{ends_before};
ghost use Rattle.first_pass_targets.specs.Parts.{IsPartFrom};
ghost use Rattle.first_pass_targets.specs.Targets.{inline_destination_at, text_start};
ghost use Rattle.std.specs.Prelude.{◌≡◌, ◌+◌, ◌<◌, ◌^◌, length, IfSome};
ghost use Rattle.std.specs.Str.{IsCharBoundary};

use crate::part::Part;
use first_pass_lines::lines::begins;
use first_pass_lines::places::rest_of;
use first_pass_links::destination::scan_link_dest;

// The deepest nesting of parentheses in a destination.
const DEEPEST_NESTING: usize = 32;

/// Returns the destination of an inline link at a place of a content. Inside `<..>` its text is without the angle
/// brackets. Otherwise it ends before a space, an ASCII control character or an unescaped `)` that closes no
/// parenthesis, or at the end of the content, and may be empty. Returns `None` if a `<` is there without its `>`, if an
/// unescaped `(` is not closed, or if parentheses nest more than 32 deep (CommonMark 6.3).
pub fn scan_inline_destination(content: &str, place: usize) -> Option<Part>
    requires { IsCharBoundary content.now place }
    ensures value { result ≡ inline_destination_at content.now place }
    ensures from { IfSome result (IsPartFrom content.now place) }
{
    let rest = rest_of(content.as_bytes(), place);
    if ends_here(rest) {
        return Some(Part {
            start: place,
            end: place,
            past: place,
        });
    }
    let (len, inside) = scan_link_dest(content, place, DEEPEST_NESTING)?;
    let start = text_start(rest, place);
    Some(Part {
        start,
        end: start + inside.len(),
        past: place + len,
    })
}

// The start of the text of the destination with these bytes at a place: after its `<`, if it has one.
fn text_start(bytes: &[u8], place: usize) -> usize
    requires { place + length bytes.now < 2 ^ 63 }
    ensures { result ≡ text_start bytes.now place }
{
    if begins(b'<', bytes) {
        return place + 1;
    }
    place
}

// Whether a destination without bytes is at the start of these bytes.
fn ends_here(bytes: &[u8]) -> bool
    ensures { result ≡ ends_before bytes.now }
{
    match bytes.first() {
        Some(byte) => byte.is_ascii_control() || matches!(*byte, b' ' | b')'),
        None => true,
    }
}
