//! Where the info string of a fenced code block is written (CommonMark 4.5).

ghost use Rattle.first_pass_places.specs.InfoStrings.{info_range};
ghost use Rattle.first_pass_places.specs.RangeEnds.{IsAsciiAt, EndsAreBoundaries};
ghost use Rattle.first_pass_scan.specs.LeafLines.{run_len};
ghost use Rattle.std.specs.Prelude.{◌≡◌, ◌≤◌, length, slice_index};

use first_pass_items::item::Item;
use first_pass_lines::lines::{scan_whitespace_no_nl, trailing_white};
use first_pass_lines::places::{next_line, rest_of};
use first_pass_scan::leaf_scan::scan_run;
use std::ops::Range;

/// Returns the range of the info string of a fenced code block, as byte offsets into the text. White space at both ends
/// is left out. If the fence has no info string, the range is empty, after the fence and the white space there
/// (CommonMark 4.5). If the byte at the start of the block is ASCII, as that of a fence is, both ends are on character
/// boundaries.
pub fn info_string_range(text: &str, block: &Item) -> Range<usize>
    requires { block.now.start ≤ length text.now }
    ensures value { result ≡ info_range text.now block.now.start }
    ensures order { result.start ≤ result.«end» }
    ensures within { result.«end» ≤ length text.now }
    ensures boundary { IsAsciiAt text.now block.now.start → EndsAreBoundaries text.now result }
{
    info_range(text.as_bytes(), block.start)
}

/// Returns the range of the info string of the code fence that begins at an offset.
pub(crate) fn info_range(text: &[u8], start: usize) -> Range<usize>
    requires { start ≤ length text.now }
    ensures value { result ≡ info_range text.now start }
    ensures order { result.start ≤ result.«end» }
    ensures within { result.«end» ≤ length text.now }
{
    let fence = start + scan_fence(rest_of(text, start));
    let from = fence + scan_whitespace_no_nl(rest_of(text, fence));
    let next = next_line(text, from);
    from..next - trailing_white(&text[from..next])
}

// The length of the run of the first byte, or 0 if there is no byte.
fn scan_fence(bytes: &[u8]) -> usize
    ensures value { result ≡ run_len (slice_index bytes.now 0) bytes.now }
    ensures within { result ≤ length bytes.now }
{
    match bytes.first() {
        None => 0,
        Some(byte) => scan_run(bytes, *byte),
    }
}
