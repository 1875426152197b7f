//! The place of a footnote definition's mark, and the place after its head (this project).

ghost use Rattle.first_pass_containers.specs.FootnoteHeads.{footnote_mark_at, blank_before_more, IsAfterHead};
ghost use Rattle.first_pass_items.specs.OptionWords.{gfm_footnotes};
ghost use Rattle.first_pass_lines.specs.Places.{IsPlaceOf};
ghost use Rattle.std.specs.Prelude.{◌≡◌, ◌≤◌, ◌+◌, ◌<◌, length, drop, None, IfSome, IsUtf8, IsCharBoundary, if◌then◌else◌};

use bitflags::Flags;
use first_pass_items::option_set::Options;
use first_pass_lines::lines::scan_blank_line;
use first_pass_lines::places::rest_of;
use first_pass_links::footnote::begins_footnote_mark;
use first_pass_open::indentation::scan_indentation;
use first_pass_open::place::Place;
use first_pass_open::source::Source;
use first_pass_scan::line_start::LineStart;

/// Returns the offset of `[^` into the text, if that is at a place after fewer than four columns of indentation and the
/// options include footnotes; otherwise `None`. Does not read the label after it (this project).
#[inline(always)]
pub fn footnote_mark<'a>(source: &Source<'a>, place: &Place<'a>) -> Option<usize>
    requires utf8 { IsUtf8 source.now.text.now }
    requires place { IsPlaceOf source.now.text.now place.now }
    ensures value { result ≡ footnote_mark_at source.now.options place.now }
    ensures boundary { IfSome result (λ at. IsCharBoundary source.now.text.now at) }
{
    source.recall_length();
    if !source.options.contains(Options::ENABLE_FOOTNOTES) {
        return None;
    }
    let mut next = place.copy();
    if scan_indentation(&mut next.rest) >= 4 || !begins_footnote_mark(next.left()) {
        return None;
    }
    Some(next.offset())
}

/// Returns the place where blocks continue after the head of a footnote definition, which ends at `end`, an offset into
/// the text. It is at `end`. In the old form, if the rest of that line is blank and another line follows, it is at the
/// start of that other line (this project).
pub fn place_after_head<'a>(source: &Source<'a>, end: usize) -> Place<'a>
    requires utf8 { IsUtf8 source.now.text.now }
    requires boundary { IsCharBoundary source.now.text.now end }
    ensures { IsAfterHead source.now end result }
{
    let bytes = source.text.as_bytes();
    let line = end + skipped_rest(source, end);
    Place {
        line,
        rest: LineStart::new(rest_of(bytes, line)),
    }
}

// The number of bytes that are skipped after the head of a footnote definition, which ends at the offset `end`. In the
// old form it is that of a blank rest of the line, with its line ending, if another line follows. Otherwise it is 0.
fn skipped_rest(source: &Source<'_>, end: usize) -> usize
    requires { end ≤ length source.now.text.now }
    ensures { result ≡ (if gfm_footnotes source.now.options
        then 0
        else blank_before_more (drop end source.now.text.now)) }
{
    if source.options.has_gfm_footnotes() {
        return 0;
    }
    let rest = rest_of(source.text.as_bytes(), end);
    match scan_blank_line(rest) {
        Some(size) if size < rest.len() => size,
        _ => 0,
    }
}
