//! Whether a table begins at a line: the number of columns of a header row, and the delimiter row after the
//! indentation of a line (GFM 4.10).

ghost use Rattle.first_pass_items.specs.Bytes.{hyphen, colon, backslash, pipe};
ghost use Rattle.first_pass_lines.specs.Lines.{begins, is_content};
ghost use Rattle.first_pass_scan.specs.TableHead.{is_pipe, head_columns, columns_by_pipes, delimiter_row_of, last_pipe_after, pipes_of};
ghost use Rattle.std.specs.List.{prefix_len, take_while};
ghost use Rattle.std.specs.Option.{option_map, option_map_or};
ghost use Rattle.std.specs.Prelude.{◌≡◌, ◌≤◌, ℕ, ◌+◌, ◌-◌, ◌==◌, ◌&&◌, ◌||◌, not, nat_lt, length, slice_index, Some, IfOk};

use crate::line_start::LineStart;
use crate::table_scan::{count_header_cols, scan_alignments};
use first_pass_items::item::Alignment;
use std::alloc::{AllocError, Global};

/// Returns the number of columns of the first line of `bytes` as a header row; `content` is the length of that line
/// without its line ending. Each pipe that is not directly after a backslash counts, except one that begins the line
/// after white space. If the rest of the line after the last such pipe is not blank, it is one more column. Returns 0 if
/// there is no such pipe. GFM 4.10.
// Not inlined: in its caller the loop over the bytes of a row would lack registers.
#[inline(never)]
pub fn scan_head_columns(bytes: &[u8], content: usize) -> usize
    requires content { content ≡ prefix_len is_content bytes.now }
    requires within { content ≤ length bytes.now }
    ensures { result ≡ head_columns bytes.now }
{
    let (pipes, end) = count_pipes(&bytes[..content]);
    if end == 0 {
        return 0;
    }
    count_header_cols(bytes, pipes, 0, end - 1)
}

// Whether `byte`, which is at the offset `at` of a row, is a pipe and no backslash is directly before it.
fn is_open_pipe(row: &[u8], at: usize, byte: u8) -> bool
    requires { at ≤ length row.now }
    ensures { result ≡ (is_pipe byte && not (nat_lt 0 at && slice_index row.now (at - 1) == backslash)) }
{
    byte == b'|' && (at == 0 || row[at - 1] != b'\\')
}

// The number of pipes of the row that are not directly after a backslash, and the offset after the last of them, or 0.
fn count_pipes(row: &[u8]) -> (usize, usize)
    ensures pipes { result.0 ≡ pipes_of row.now }
    ensures end { result.1 ≡ option_map_or (λ last. last + 1) (last_pipe_after 0 row.now) 0 }
{
    let mut pipes = 0;
    let mut end = 0;
    for (at, byte) in row.iter().enumerate() {
        if is_open_pipe(row, at, *byte) {
            pipes += 1;
            end = at + 1;
        }
    }
    (pipes, end)
}

// Whether the next byte can begin a delimiter row after its indentation.
fn can_begin_delimiters(bytes: &[u8]) -> bool
    ensures { result ≡ begins pipe bytes.now || begins hyphen bytes.now || begins colon bytes.now }
{
    matches!(bytes, [b'|' | b'-' | b':', ..])
}

/// Returns the alignments of the delimiter row after the indentation of `line`, at least one. The indentation is at
/// most three columns. Returns `None` if there is no such row. Fails only if an allocation fails. GFM 4.10.
#[tactic(auto, unfolding(crate::specs::TableHead::delimiter_row_of))]
pub fn scan_delimiter_row(
    alloc: Global,
    line: &LineStart<'_>,
) -> Result<Option<Vec<Alignment>>, AllocError>
    ensures { IfOk result (λ columns. option_map (λ v. v.items) columns ≡ delimiter_row_of line.now) }
{
    let mut row = line.copy();
    if row.scan_space(4) {
        return Ok(None);
    }
    if !can_begin_delimiters(row.left()) {
        return Ok(None);
    }
    let columns = scan_alignments(alloc, row.left())?;
    Ok(columns)
}

/// The number of columns of a header row follows from its pipes that are not directly after a backslash. It is 0 if
/// there is no such pipe. Otherwise each of them counts, except one that begins the line after white space. If the rest
/// of the line after the last of them is not blank, it is one more column. GFM 4.10.
pub fn law_of_head_columns(bytes: &[u8])
    ensures none { pipes_of (take_while is_content bytes.now) ≡ 0 → head_columns bytes.now ≡ 0 }
    ensures some { (last : ℕ) → last_pipe_after 0 (take_while is_content bytes.now) ≡ Some last
        → head_columns bytes.now ≡ columns_by_pipes (pipes_of (take_while is_content bytes.now)) bytes.now last }
{}
