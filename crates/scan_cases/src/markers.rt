//! Calls of `first_pass_scan` for markers of containers, and for the start of a line.

use crate::call::Call;
use first_pass_cases::answer::Answer;
use first_pass_items::item::BlockQuoteKind;
use first_pass_scan::line_start::{LineStart, scan_listitem};
use std::alloc::AllocError;

/// Makes a call for a marker or a line ending, and appends the number of bytes that were consumed. The first argument
/// is the indent; the second is a number of columns that are taken before the call, so that a tab can owe columns.
/// Returns `false` for any other call.
pub fn answer_markers(call: &Call<'_>, answer: &mut Answer) -> Result<bool, AllocError> {
    let mut line = LineStart::new(call.text.as_bytes());
    let indent = call.given.number(0).min(3);
    let _ = line.scan_space_upto(call.given.number(1));
    match call.name {
        "scan_list_marker_with_indent" => {
            append_marker(line.scan_list_marker_with_indent(indent), answer)?
        }
        "scan_blockquote_tag" => append_tag(line.scan_blockquote_tag(), answer)?,
        "scan_task_list_marker" => answer.maybe_flag(line.scan_task_list_marker())?,
        "scan_definition_list_definition_marker_with_indent" => {
            answer.length(line.scan_definition_list_definition_marker_with_indent(indent))?
        }
        "scan_blockquote_marker" => {
            answer.flag(line.scan_blockquote_marker())?;
            answer.number(line.remaining_space())?
        }
        "scan_listitem" => return append_item(scan_listitem(call.text.as_bytes()), answer),
        "is_at_eol" => answer.flag(line.is_at_eol())?,
        _ => return Ok(false),
    }
    answer.number(line.bytes_scanned())?;
    Ok(true)
}

fn append_marker(found: Option<(u8, u64, usize)>, answer: &mut Answer) -> Result<(), AllocError> {
    match found {
        Some((byte, number, indent)) => {
            answer.byte(byte)?;
            answer.number(number as usize)?;
            answer.number(indent)
        }
        None => answer.none(),
    }
}

fn append_item(
    found: Option<(usize, u8, u64, usize)>,
    answer: &mut Answer,
) -> Result<bool, AllocError> {
    match found {
        Some((len, byte, number, indent)) => {
            answer.number(len)?;
            append_marker(Some((byte, number, indent)), answer)?;
        }
        None => answer.none()?,
    }
    Ok(true)
}

fn append_tag(found: Option<BlockQuoteKind>, answer: &mut Answer) -> Result<(), AllocError> {
    answer.word(match found {
        Some(BlockQuoteKind::Note) => "Note",
        Some(BlockQuoteKind::Tip) => "Tip",
        Some(BlockQuoteKind::Important) => "Important",
        Some(BlockQuoteKind::Warning) => "Warning",
        Some(BlockQuoteKind::Caution) => "Caution",
        None => "none",
    })
}
