//! Targets of inline links (CommonMark 6.3).

ghost use Rattle.first_pass_targets.specs.Parts.{IsPartFrom};
ghost use Rattle.first_pass_targets.specs.Targets.{after_blanks, separate_title_at, target_at};
ghost use Rattle.std.specs.Prelude.{◌≡◌, ◌+◌, ◌<◌, ◌≤◌, length, IfSome, IsUtf8};
ghost use Rattle.std.specs.Str.{IsCharBoundary};

use crate::destination::scan_inline_destination;
use crate::part::Part;
use crate::title::scan_inline_title;
use first_pass_atoms::blanks::scan_blanks;
use first_pass_lines::lines::begins;
use first_pass_lines::places::rest_of;

/// The target of an inline link, in a content. Its destination and its title are as they are written:
/// `first_pass_links::escape::unescape` with `in_table` false gives what they stand for.
#[derive(Clone, Copy)]
pub struct Target {
    /// The destination. Its text is empty if it is left out.
    pub dest: Part,
    /// The title, if there is one.
    pub title: Option<Part>,
    /// The place after the `)`.
    pub past: usize,
}

/// Returns the target at a place of a content: `(`, a destination, which may be empty, a title, if there is one, and
/// `)`. Spaces, tabs and newlines may be around both, and at least one is between them. Returns `None` if no target is
/// there (CommonMark 6.3).
#[tactic(auto, unfolding(crate::specs::Targets::target_at))]
pub fn scan_target(content: &str, place: usize) -> Option<Target>
    requires { IsCharBoundary content.now place }
    ensures value { result ≡ target_at content.now place }
    ensures dest { IfSome result (λ target. IsPartFrom content.now (place + 1) target.dest) }
    ensures title { IfSome result (λ target. IfSome target.title (λ title. (target.dest.past < title.start)
        × IsPartFrom content.now target.dest.past title × (title.past < target.past))) }
    ensures past { IfSome result (λ target.
        (target.dest.past < target.past) × IsCharBoundary content.now target.past) }
{
    let bytes = content.as_bytes();
    if !begins(b'(', rest_of(bytes, place)) {
        return None;
    }
    let dest = scan_inline_destination(content, after_blanks(bytes, place + 1))?;
    let title = scan_separate_title(content, dest.past);
    let end = match title {
        Some(title) => title.past,
        None => dest.past,
    };
    let close = after_blanks(bytes, end);
    if !begins(b')', rest_of(bytes, close)) {
        return None;
    }
    Some(Target {
        dest,
        title,
        past: close + 1,
    })
}

// The title after a destination that ends at a place, with at least one blank between them.
fn scan_separate_title(content: &str, place: usize) -> Option<Part>
    requires { IsCharBoundary content.now place }
    ensures value { result ≡ separate_title_at content.now place }
    ensures from { IfSome result (IsPartFrom content.now place) }
    ensures later { IfSome result (λ title. place < title.start) }
{
    let start = after_blanks(content.as_bytes(), place);
    if start == place {
        return None;
    }
    scan_inline_title(content, start)
}

// The place after the blanks at a place.
fn after_blanks(content: &[u8], place: usize) -> usize
    requires text { IsUtf8 content.now }
    requires boundary { IsCharBoundary content.now place }
    ensures value { result ≡ after_blanks content.now place }
    ensures later { place ≤ result }
    ensures boundary { IsCharBoundary content.now result }
{
    place + scan_blanks(rest_of(content, place))
}
