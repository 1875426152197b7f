//! Raw HTML. CommonMark 6.6.

ghost use Rattle.first_pass_atoms.specs.HtmlEnds.{IsKnownOf};
ghost use Rattle.first_pass_atoms.specs.RawHtml.{comment_at, declaration_at, raw_html_at};
ghost use Rattle.first_pass_html.specs.Starts.{begins_letter};
ghost use Rattle.std.specs.Prelude.{◌≡◌, ◌+◌, ◌<◌, ◌≤◌, true, length, IfSome};

use crate::html_ends::{HtmlEnds, end_after};
use crate::tags::{scan_closing_tag, scan_open_tag};
use first_pass_lines::places::rest_of;

/// Returns the place after the raw HTML whose `<` is at the place: an open tag, a closing tag, a comment, a processing
/// instruction, a declaration or a CDATA section. Returns `None` if none begins there. CommonMark 6.6.
///
/// What `ends` holds does not change the result. If the calls follow the order of the content and pass over what is
/// found, each end is sought once.
#[tactic(auto, unfolding(crate::specs::RawHtml::raw_html_at))]
pub fn raw_html_at(content: &[u8], place: usize, ends: &mut HtmlEnds) -> Option<usize>
    requires within { place ≤ length content.now }
    requires known { IsKnownOf content.now ends.old }
    ensures value { result ≡ raw_html_at content.now place }
    ensures within { IfSome result (λ end. (place < end) × (end ≤ length content.now)) }
    ensures known { IsKnownOf content.now ends.new }
{
    let rest = rest_of(content, place);
    if rest.starts_with(b"<?") {
        return end_after(content, place + 2, b"?>", &mut ends.instruction);
    }
    if rest.starts_with(b"<!") {
        return declaration_at(content, place, ends);
    }
    if rest.starts_with(b"</") {
        let len = scan_closing_tag(rest_of(rest, 2))?;
        return Some(place + (2 + len));
    }
    if rest.starts_with(b"<") {
        let len = scan_open_tag(rest_of(rest, 1))?;
        return Some(place + (1 + len));
    }
    None
}

// The place after the comment, CDATA section or declaration whose `<!` is at the place.
#[tactic(auto, unfolding(crate::specs::RawHtml::declaration_at))]
fn declaration_at(content: &[u8], place: usize, ends: &mut HtmlEnds) -> Option<usize>
    requires within { place + 2 ≤ length content.now }
    requires known { IsKnownOf content.now ends.old }
    ensures value { result ≡ declaration_at content.now place }
    ensures within { IfSome result (λ end. (place < end) × (end ≤ length content.now)) }
    ensures known { IsKnownOf content.now ends.new }
{
    let rest = rest_of(content, place + 2);
    if rest.starts_with(b"--") {
        return comment_at(content, place, ends);
    }
    if rest.starts_with(b"[CDATA[") {
        return end_after(content, place + 9, b"]]>", &mut ends.cdata);
    }
    if begins_letter(rest) {
        return end_after(content, place + 3, b">", &mut ends.declaration);
    }
    None
}

// Whether the first byte is an ASCII letter.
fn begins_letter(bytes: &[u8]) -> bool
    ensures value { result ≡ begins_letter bytes.now }
    ensures some { result ≡ true → 0 < length bytes.now }
{
    match bytes {
        [] => false,
        [letter, ..] => letter.is_ascii_alphabetic(),
    }
}

// The place after the comment whose `<!--` is at the place.
#[tactic(auto, unfolding(crate::specs::RawHtml::comment_at))]
fn comment_at(content: &[u8], place: usize, ends: &mut HtmlEnds) -> Option<usize>
    requires within { place + 4 ≤ length content.now }
    requires known { IsKnownOf content.now ends.old }
    ensures value { result ≡ comment_at content.now place }
    ensures within { IfSome result (λ end. (place < end) × (end ≤ length content.now)) }
    ensures known { IsKnownOf content.now ends.new }
{
    let rest = rest_of(content, place + 4);
    if rest.starts_with(b">") {
        return Some(place + 5);
    }
    if rest.starts_with(b"->") {
        return Some(place + 6);
    }
    end_after(content, place + 4, b"-->", &mut ends.comment)
}
