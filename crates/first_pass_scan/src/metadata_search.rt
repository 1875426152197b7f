//! Metadata blocks of one text, with a record of the closing lines found.

ghost use Rattle.first_pass_scan.specs.Metadata.{after_line, any_line_closes, opens_metadata, metadata_byte};
ghost use Rattle.first_pass_scan.specs.MetadataSearch.{IsClosingLine, IsKnownOf};
ghost use Rattle.std.specs.Prelude.{◌≡◌, ◌≤◌, ℕ, List, length, drop, IfSome};

use crate::metadata_scan::{scan_closing_line, scan_metadata_opening};
use first_pass_lines::places::{next_line, rest_of};

// The first line that closes metadata of a byte, in a search from the offset `from` on. `at` is the start of that line,
// or the text's length if there is none.
#[derive(Clone, Copy, PartialEq, Eq)]
struct ClosingLine {
    from: usize,
    at: usize,
}

/// The closing lines of metadata found so far in one text.
#[derive(Clone, Copy, PartialEq, Eq)]
pub struct MetadataEnds {
    dashes: Option<ClosingLine>,
    pluses: Option<ClosingLine>,
}

impl MetadataEnds {
    /// An empty record, right for every text.
    pub const fn new() -> MetadataEnds
        ensures { (text : List ℕ) → IsKnownOf text result }
    {
        MetadataEnds {
            dashes: None,
            pluses: None,
        }
    }
}

/// Returns the byte of the metadata block that begins at the offset `start` into the text, as `scan_metadata_block`
/// returns it for the bytes there: `-` if `yaml` is on, `+` if `pluses` is on. Closing lines that are found are
/// recorded in `ends`. If the calls follow the order of the text, its lines are searched once for each byte.
#[tactic(auto, unfolding(crate::specs::Metadata::metadata_byte))]
pub fn metadata_at(
    text: &[u8],
    start: usize,
    yaml: bool,
    pluses: bool,
    ends: &mut MetadataEnds,
) -> Option<u8>
    requires within { start ≤ length text.now }
    requires known { IsKnownOf text.now ends.old }
    ensures value { result ≡ metadata_byte yaml pluses (drop start text.now) }
    ensures known { IsKnownOf text.now ends.new }
{
    match rest_of(text, start) {
        [b'-', ..] if yaml => {
            if !opens_at(text, start, b'-', &mut ends.dashes) {
                return None;
            }
            Some(b'-')
        }
        [b'+', ..] if pluses => {
            if !opens_at(text, start, b'+', &mut ends.pluses) {
                return None;
            }
            Some(b'+')
        }
        _ => None,
    }
}

// Whether metadata of the byte opens at the offset `start`.
#[tactic(auto, unfolding(crate::specs::Metadata::opens_metadata))]
fn opens_at(text: &[u8], start: usize, byte: u8, known: &mut Option<ClosingLine>) -> bool
    requires within { start ≤ length text.now }
    requires known { IfSome known.old (IsClosingLine byte text.now) }
    ensures value { result ≡ opens_metadata byte (drop start text.now) }
    ensures known { IfSome known.new (IsClosingLine byte text.now) }
{
    match scan_metadata_opening(rest_of(text, start), byte) {
        None => false,
        Some(end) => closes_after(text, start + end, byte, known),
    }
}

// Whether a line after the one at the offset `line` closes metadata of the byte.
fn closes_after(text: &[u8], line: usize, byte: u8, known: &mut Option<ClosingLine>) -> bool
    requires within { line ≤ length text.now }
    requires known { IfSome known.old (IsClosingLine byte text.now) }
    ensures value { result ≡ any_line_closes byte 0 (after_line (drop line text.now)) }
    ensures known { IfSome known.new (IsClosingLine byte text.now) }
{
    let from = next_line(text, line);
    if let Some(found) = *known
        && found.from <= from
        && from <= found.at
    {
        return found.at < text.len();
    }
    let at = scan_closing_line(text, from, byte);
    *known = Some(ClosingLine { from, at });
    at < text.len()
}
