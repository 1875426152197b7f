//! Calls of `first_pass_scan` and `first_pass_scan` for lines that open or close a leaf block.

use crate::call::Call;
use first_pass_cases::answer::Answer;
use first_pass_cases::given::Given;
use first_pass_lines::lines::level_number;
use first_pass_lines::places::rest_of;
use first_pass_scan::leaf_scan::{
    calc_indent, scan_closing_code_fence, scan_code_fence, scan_hrule, scan_setext_heading,
};
use first_pass_scan::metadata_scan::{scan_closing_metadata_block, scan_metadata_block};
use first_pass_scan::metadata_search::{MetadataEnds, metadata_at};
use std::alloc::AllocError;

/// Makes a call for a thematic break, an underline, a fence or an indent. Returns `false` for any other call.
pub fn answer_leaves(call: &Call<'_>, answer: &mut Answer) -> Result<bool, AllocError> {
    let (given, bytes) = (call.given, call.text.as_bytes());
    match call.name {
        "scan_hrule" => answer.length(scan_hrule(bytes))?,
        "scan_setext_heading" => match scan_setext_heading(bytes) {
            Some((len, level)) => {
                answer.number(len)?;
                answer.number(level_number(level))?
            }
            None => answer.none()?,
        },
        "scan_code_fence" => match scan_code_fence(bytes) {
            Some((count, byte)) => {
                answer.number(count)?;
                answer.byte(byte)?
            }
            None => answer.none()?,
        },
        "scan_closing_code_fence" => {
            answer.length(scan_closing_code_fence(bytes, given.byte(0), given.number(1)))?
        }
        "calc_indent" => {
            let (columns, taken) = calc_indent(bytes, given.number(0));
            answer.number(columns)?;
            answer.number(taken)?
        }
        _ => return Ok(false),
    }
    Ok(true)
}

/// Makes a call for a metadata block. Returns `false` for any other call. The first two arguments are flags for `---`
/// and `+++`; offsets may follow.
pub fn answer_metadata(call: &Call<'_>, answer: &mut Answer) -> Result<bool, AllocError> {
    let (given, bytes) = (call.given, call.text.as_bytes());
    match call.name {
        "scan_metadata_block" => {
            let rest = rest_of(bytes, given.number(2).min(bytes.len()));
            answer.maybe_byte(scan_metadata_block(rest, given.flag(0), given.flag(1)))?
        }
        "scan_closing_metadata_block" => {
            answer.length(scan_closing_metadata_block(bytes, given.byte(0)))?
        }
        "metadata_at" => append_metadata(given, bytes, answer)?,
        _ => return Ok(false),
    }
    Ok(true)
}

// The result of `metadata_at` at each of the offsets, in order.
fn append_metadata(given: &Given, bytes: &[u8], answer: &mut Answer) -> Result<(), AllocError> {
    let mut ends = MetadataEnds::new();
    for place in 2..given.count() {
        let start = given.number(place).min(bytes.len());
        let found = metadata_at(bytes, start, given.flag(0), given.flag(1), &mut ends);
        answer.maybe_byte(found)?;
    }
    Ok(())
}
