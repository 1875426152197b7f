//! The delimiter row of a table, and the number of columns of its header row (GFM 4.10).

ghost use Rattle.first_pass_items.specs.Bytes.{pipe};
ghost use Rattle.first_pass_lines.specs.Lines.{begins, is_space_or_tab, is_white};
ghost use Rattle.first_pass_scan.specs.TableHead.{is_pipe, stripped as stripped_bytes, without_first as past_first, without_last as before_last, is_hyphens as only_hyphens, alignment_by, delimiter_cell, delimiter_cells, delimiter_row, table_head, pipes_of, header_columns};
ghost use Rattle.std.specs.List.{prefix_len, suffix_len, position_or_len, list_any};
ghost use Rattle.std.specs.Option.{option_map};
ghost use Rattle.std.specs.Prelude.{◌≡◌, ◌≤◌, ◌<◌, ◌+◌, ◌-◌, ◌==◌, true, length, take, drop, IfOk, if◌then◌else◌};

use crate::leaf_scan::scan_run;
use crate::line_start::LineStart;
use first_pass_items::item::Alignment;
use first_pass_lines::lines::{
    begins, content_len, ends, is_space_or_tab, scan_blank_line, scan_blanks, scan_nextline,
    scan_whitespace_no_nl,
};
use first_pass_lines::places::rest_of;
use memchr::memchr;
use std::alloc::{AllocError, Global};

// The number of trailing spaces and tabs.
fn scan_last_blanks(bytes: &[u8]) -> usize
    ensures value { result ≡ suffix_len is_space_or_tab bytes.now }
    ensures within { result ≤ length bytes.now }
{
    let backwards = bytes.iter().rev();
    backwards.take_while(|b| is_space_or_tab(**b)).count()
}

// The bytes without leading and trailing spaces and tabs.
#[tactic(auto, unfolding(crate::specs::TableHead::stripped))]
fn stripped(bytes: &[u8]) -> &[u8]
    ensures { result.now ≡ stripped_bytes bytes.now }
{
    let rest = rest_of(bytes, scan_blanks(bytes));
    let last = scan_last_blanks(rest);
    &rest[..rest.len() - last]
}

// The bytes without the first one, if that is this byte.
fn without_first(bytes: &[u8], byte: u8) -> &[u8]
    ensures { result.now ≡ past_first byte bytes.now }
{
    match bytes {
        [first, rest @ ..] if *first == byte => rest,
        _ => bytes,
    }
}

// The bytes without the last one, if that is this byte, which is not 0.
fn without_last(bytes: &[u8], byte: u8) -> &[u8]
    requires { 0 < byte }
    ensures { result.now ≡ before_last byte bytes.now }
{
    if ends(byte, bytes) {
        &bytes[..bytes.len() - 1]
    } else {
        bytes
    }
}

// Whether the bytes are one or more hyphens.
fn is_hyphens(bytes: &[u8]) -> bool
    ensures { result ≡ only_hyphens bytes.now }
{
    1 <= bytes.len() && scan_run(bytes, b'-') == bytes.len()
}

// The alignment of a column, from the colons before and after its hyphens.
fn alignment(before: bool, following: bool) -> Alignment
    ensures { result ≡ alignment_by before following }
{
    match (before, following) {
        (false, false) => Alignment::None,
        (true, false) => Alignment::Left,
        (true, true) => Alignment::Center,
        (false, true) => Alignment::Right,
    }
}

// The alignment of a column, from its cell in the delimiter row.
#[tactic(auto, unfolding(crate::specs::TableHead::delimiter_cell))]
fn scan_delimiter_cell(bytes: &[u8]) -> Option<Alignment>
    ensures { result ≡ delimiter_cell bytes.now }
{
    let cell = stripped(bytes);
    let tail = without_first(cell, b':');
    let following = ends(b':', tail);
    if is_hyphens(without_last(tail, b':')) {
        Some(alignment(tail.len() < cell.len(), following))
    } else {
        None
    }
}

// The number of bytes before the first pipe, or of all bytes if there is none. Goes byte by byte: the cells of a
// delimiter row are short.
fn cell_len(bytes: &[u8]) -> usize
    ensures value { result ≡ position_or_len is_pipe bytes.now }
    ensures within { result ≤ length bytes.now }
{
    bytes.iter().take_while(|b| **b != b'|').count()
}

// The alignments of the cells between the pipes of `bytes`, if each is a delimiter cell.
fn scan_delimiter_cells(alloc: Global, bytes: &[u8]) -> Result<Option<Vec<Alignment>>, AllocError>
    ensures { IfOk result (λ columns. option_map (λ v. v.items) columns ≡ delimiter_cells bytes.now) }
{
    let mut columns = Vec::new(alloc);
    let mut rest = bytes;
    loop {
        let end = cell_len(rest);
        let Some(column) = scan_delimiter_cell(&rest[..end]) else {
            return Ok(None);
        };
        columns.push(column)?;
        if end == rest.len() {
            return Ok(Some(columns));
        }
        rest = rest_of(rest, end + 1);
    }
}

// Whether there is a pipe among the bytes. Most rows begin with one.
#[inline(always)]
fn has_pipe(bytes: &[u8]) -> bool
    ensures { result ≡ list_any is_pipe bytes.now }
{
    if begins(b'|', bytes) {
        return true;
    }
    memchr(b'|', bytes).is_some()
}

// The alignments of the delimiter row at the start of `bytes`, if there is one.
#[tactic(auto, unfolding(crate::specs::TableHead::delimiter_row))]
pub(crate) fn scan_alignments(
    alloc: Global,
    bytes: &[u8],
) -> Result<Option<Vec<Alignment>>, AllocError>
    ensures { IfOk result (λ columns. option_map (λ v. v.items) columns ≡ delimiter_row bytes.now) }
{
    if LineStart::new(bytes).scan_space(4) {
        return Ok(None);
    }
    let row = stripped(&bytes[..content_len(bytes)]);
    if !has_pipe(row) {
        return Ok(None);
    }
    scan_delimiter_cells(alloc, without_last(without_first(row, b'|'), b'|'))
}

/// Returns the length of the delimiter row at the start of `bytes`, with its line ending, and the alignment of each
/// column. Returns 0 and no alignments if there is no such row. Pipes separate the cells, and one pipe at each end is
/// optional. A cell is one or more hyphens, with an optional colon at each end. The row contains a pipe, and its
/// indentation is at most three columns. Fails only if an allocation fails. GFM 4.10.
#[tactic(auto, unfolding(crate::specs::TableHead::table_head))]
pub fn scan_table_head(alloc: Global, bytes: &[u8]) -> Result<(usize, Vec<Alignment>), AllocError>
    ensures value { IfOk result (λ head. (head.0, head.1.items) ≡ table_head bytes.now) }
    ensures within { IfOk result (λ head. head.0 ≤ length bytes.now) }
{
    match scan_alignments(alloc, bytes)? {
        None => Ok((0, Vec::new(alloc))),
        Some(columns) => Ok((scan_nextline(bytes), columns)),
    }
}

// The number of pipes of a header row, except one that begins the row, perhaps after white space. `pipes` is the number
// of all of them.
fn without_first_pipe(row: &[u8], pipes: usize) -> usize
    requires { 1 ≤ pipes }
    ensures { result ≡ pipes - (if begins pipe (drop (prefix_len is_white row.now) row.now) then 1 else 0) }
{
    if begins(b'|', rest_of(row, scan_whitespace_no_nl(row))) {
        pipes - 1
    } else {
        pipes
    }
}

/// Returns the number of columns of the header row at the offset `start` of `bytes`. `pipes` is the number of its pipes
/// that are not directly after a backslash, and `last_pipe_ix` is the offset of the last of them. A pipe that begins
/// the row after white space does not count. If the rest of the line after the last pipe is not blank, it is one more
/// column. GFM 4.10.
pub fn count_header_cols(bytes: &[u8], pipes: usize, start: usize, last_pipe_ix: usize) -> usize
    requires some { 1 ≤ pipes }
    requires ordered { start ≤ last_pipe_ix }
    requires within { last_pipe_ix < length bytes.now }
    requires counted { pipes ≡ pipes_of (take (last_pipe_ix - start + 1) (drop start bytes.now)) }
    ensures { result ≡ header_columns (drop start bytes.now) (last_pipe_ix - start) }
{
    let row = rest_of(bytes, start);
    let cells = without_first_pipe(row, pipes);
    match scan_blank_line(rest_of(row, last_pipe_ix - start + 1)) {
        Some(_) => cells,
        None => cells + 1,
    }
}
