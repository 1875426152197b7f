//! Calls of `first_pass_lines`.

use crate::call::Call;
use first_pass_cases::answer::Answer;
use first_pass_lines::lines::{
    begins, ends, is_line_end, is_space_or_tab, is_white, is_white_or_line_end, level_number,
    scan_atx_heading, scan_blank_line, scan_blanks, scan_eol, scan_nextline, scan_whitespace_no_nl,
    trailing_white,
};
use first_pass_lines::places::{next_line, rest_of};
use std::alloc::AllocError;

/// Makes a call of a line's scanners. Returns `false` for any other call.
pub fn answer_lines(call: &Call<'_>, answer: &mut Answer) -> Result<bool, AllocError> {
    let bytes = call.text.as_bytes();
    let start = call.given.number(0).min(bytes.len());
    match call.name {
        "scan_eol" => answer.length(scan_eol(bytes))?,
        "scan_blank_line" => answer.length(scan_blank_line(bytes))?,
        "scan_nextline" => answer.number(scan_nextline(bytes))?,
        "scan_whitespace_no_nl" => answer.number(scan_whitespace_no_nl(bytes))?,
        "scan_blanks" => answer.number(scan_blanks(bytes))?,
        "trailing_white" => answer.number(trailing_white(bytes))?,
        "scan_atx_heading" => answer.length(scan_atx_heading(bytes).map(level_number))?,
        "next_line" => answer.number(next_line(bytes, start))?,
        "rest_of" => answer.number(rest_of(bytes, start).len())?,
        _ => return Ok(false),
    }
    Ok(true)
}

/// Makes a test of the first byte, or of the last one. Returns `false` for any other call.
pub fn answer_bytes(call: &Call<'_>, answer: &mut Answer) -> Result<bool, AllocError> {
    let bytes = call.text.as_bytes();
    let byte = bytes.first().copied().unwrap_or(0);
    match call.name {
        "begins" => answer.flag(begins(call.given.byte(0), bytes))?,
        "ends" => answer.flag(ends(call.given.byte(0), bytes))?,
        "is_line_end" => answer.flag(is_line_end(byte))?,
        "is_white" => answer.flag(is_white(byte))?,
        "is_blank" => answer.flag(is_space_or_tab(byte))?,
        "is_white_or_line_end" => answer.flag(is_white_or_line_end(byte))?,
        _ => return Ok(false),
    }
    Ok(true)
}
