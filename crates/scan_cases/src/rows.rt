//! Calls of `first_pass_scan`: header rows and delimiter rows.

use crate::call::Call;
use first_pass_cases::answer::Answer;
use first_pass_items::item::Alignment;
use first_pass_lines::lines::content_len;
use first_pass_scan::line_start::LineStart;
use first_pass_scan::table_scan::scan_table_head;
use first_pass_scan::table_start::{scan_delimiter_row, scan_head_columns};
use std::alloc::{AllocError, Global};

/// Makes a call for a header row or a delimiter row. Returns `false` for any other call.
pub fn answer_rows(call: &Call<'_>, answer: &mut Answer) -> Result<bool, AllocError> {
    let (alloc, bytes) = (call.alloc, call.text.as_bytes());
    match call.name {
        "scan_head_columns" => answer.number(scan_head_columns(bytes, content_len(bytes)))?,
        "scan_table_head" => {
            let (len, columns) = scan_table_head(alloc, bytes)?;
            answer.number(len)?;
            append_alignments(columns.as_slice(), answer)?
        }
        "scan_delimiter_row" => append_delimiters(alloc, bytes, call.given.flag(0), answer)?,
        _ => return Ok(false),
    }
    Ok(true)
}

// The alignments of a delimiter row's columns. In a block quote the row is after the marker of the quote.
fn append_delimiters(
    alloc: Global,
    bytes: &[u8],
    in_quote: bool,
    answer: &mut Answer,
) -> Result<(), AllocError> {
    let mut line = LineStart::new(bytes);
    if in_quote {
        line.scan_blockquote_marker();
    }
    match scan_delimiter_row(alloc, &line)? {
        Some(columns) => append_alignments(columns.as_slice(), answer),
        None => answer.none(),
    }
}

fn append_alignments(columns: &[Alignment], answer: &mut Answer) -> Result<(), AllocError> {
    for column in columns {
        answer.word(match *column {
            Alignment::None => "None",
            Alignment::Left => "Left",
            Alignment::Center => "Center",
            Alignment::Right => "Right",
        })?;
    }
    Ok(())
}
