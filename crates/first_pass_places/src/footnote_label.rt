//! Where the label of a footnote definition is written (this project).

ghost use Rattle.first_pass_links.specs.Labels.{is_bracket, label_len};
ghost use Rattle.first_pass_places.specs.FootnoteLabels.{label_range};
ghost use Rattle.first_pass_places.specs.RangeEnds.{IsAsciiAt, EndsAreBoundaries};
ghost use Rattle.std.specs.Prelude.{◌≡◌, ◌≤◌, ◌+◌, length};

use first_pass_items::item::Item;
use first_pass_lines::places::rest_of;
use first_pass_links::destination::unit_len;
use std::ops::Range;

/// Returns the range of the label of a footnote definition, as byte offsets into the text: the bytes between its `[^`
/// and its `]`. In the old form of footnotes a label may cross lines. The range then includes the prefixes of
/// containers, and up to four columns after them, at the start of each further line; the label leaves these out. If the
/// text ends before the label, the range is empty, at the end of the text (this project). If the second byte of the
/// definition is ASCII, as `^` is, both ends are on character boundaries.
pub fn footnote_label_range(text: &str, definition: &Item) -> Range<usize>
    requires { definition.now.start ≤ length text.now }
    ensures value { result ≡ label_range text.now definition.now.start }
    ensures order { result.start ≤ result.«end» }
    ensures within { result.«end» ≤ length text.now }
    ensures boundary { IsAsciiAt text.now (definition.now.start + 1) → EndsAreBoundaries text.now result }
{
    label_range(text.as_bytes(), definition.start)
}

/// Returns the range of the label of the footnote definition that begins at an offset.
#[tactic(auto, unfolding(crate::specs::FootnoteLabels::label_range))]
pub(crate) fn label_range(text: &[u8], start: usize) -> Range<usize>
    requires { start ≤ length text.now }
    ensures value { result ≡ label_range text.now start }
    ensures order { result.start ≤ result.«end» }
    ensures within { result.«end» ≤ length text.now }
{
    let from = text.len().min(start + 2);
    from..from + scan_label(rest_of(text, from))
}

// The number of bytes before the first bracket that no backslash escapes; if there is none, the length of `bytes`.
fn scan_label(bytes: &[u8]) -> usize
    ensures value { result ≡ label_len bytes.now }
    ensures within { result ≤ length bytes.now }
{
    let mut at = 0;
    while at < bytes.len() && !is_bracket(bytes[at]) {
        at += unit_len(rest_of(bytes, at));
    }
    at
}

fn is_bracket(byte: u8) -> bool
    ensures { result ≡ is_bracket byte }
{
    matches!(byte, b'[' | b']')
}
