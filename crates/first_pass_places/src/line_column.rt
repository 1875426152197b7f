//! The line and the column of an offset, as editors count (this project).

ghost use Rattle.first_pass_lines.specs.Lines.{ends_line};
ghost use Rattle.first_pass_places.specs.LineColumns.{line_column, units_of};
ghost use Rattle.std.specs.Prelude.{◌≡◌, ◌+◌, ◌<◌, ◌≤◌, drop, length, slice_index};

use first_pass_lines::lines::begins;
use first_pass_lines::places::rest_of;

/// A line and a column of a text, both from 1. A line ends at a newline, a carriage return, or both. A column is a
/// unit of UTF-16.
#[derive(Clone, Copy)]
pub struct LineColumn {
    pub line: usize,
    pub column: usize,
}

/// Returns the line and the column of a byte offset into a text, of which the bytes before the offset are UTF-8. An
/// offset between `\r` and `\n` is in the line that they end. An offset after the text has the place of its end. Reads
/// all bytes before the offset; for many offsets of one text make a `LineTable`.
pub fn line_column_at(text: &[u8], offset: usize) -> LineColumn
    ensures { result ≡ line_column text.now offset }
{
    let start = LineColumn { line: 1, column: 1 };
    line_column_after(text, 0, start, offset)
}

/// Returns the line and the column of an offset, given those of an offset at or before it.
pub(crate) fn line_column_after(
    text: &[u8],
    from: usize,
    start: LineColumn,
    offset: usize,
) -> LineColumn
    requires within { from ≤ length text.now }
    requires order { from ≤ offset }
    requires known { start ≡ line_column text.now from }
    ensures { result ≡ line_column text.now offset }
{
    let end = offset.min(text.len());
    let mut place = start;
    for at in from..end {
        place = next(text, at, place);
    }
    place
}

// The line and the column of the next offset.
fn next(text: &[u8], at: usize, place: LineColumn) -> LineColumn
    requires within { at < length text.now }
    requires known { place ≡ line_column text.now at }
    ensures { result ≡ line_column text.now (at + 1) }
{
    if ends_line(text, at) {
        return LineColumn {
            line: place.line + 1,
            column: 1,
        };
    }
    LineColumn {
        line: place.line,
        column: place.column + units_of(text[at]),
    }
}

// Whether a line ends after the byte at an offset (CommonMark 2.1).
fn ends_line(text: &[u8], at: usize) -> bool
    requires { at < length text.now }
    ensures { result ≡ ends_line (slice_index text.now at) (drop (at + 1) text.now) }
{
    match text[at] {
        b'\n' => true,
        b'\r' => !begins(b'\n', rest_of(text, at + 1)),
        _ => false,
    }
}

// The units of UTF-16 of the character that begins with a byte of UTF-8; none if no character begins with it.
fn units_of(byte: u8) -> usize
    ensures { result ≡ units_of byte }
{
    match byte {
        0x80..=0xbf => 0,
        0xf0.. => 2,
        _ => 1,
    }
}
