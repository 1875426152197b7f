//! Calls of `first_pass_html`.

use crate::call::Call;
use first_pass_cases::answer::Answer;
use first_pass_html::ends::{HtmlEnd, holds_raw_end_tag};
use first_pass_html::names::is_block_name;
use first_pass_html::starts::{get_html_end_tag, is_raw_name, starts_html_block_type_6};
use first_pass_html::tags::scan_html_type_7;
use std::alloc::AllocError;

/// Makes a call for the start of an HTML block. Returns `false` for any other call.
pub fn answer_html(call: &Call<'_>, answer: &mut Answer) -> Result<bool, AllocError> {
    let bytes = call.text.as_bytes();
    match call.name {
        "holds_raw_end_tag" => answer.flag(holds_raw_end_tag(bytes))?,
        "is_block_name" => answer.flag(is_block_name(bytes))?,
        "is_raw_name" => answer.flag(is_raw_name(bytes))?,
        "get_html_end_tag" => match get_html_end_tag(bytes) {
            Some(HtmlEnd::AnyRawTag) => answer.word("AnyRawTag")?,
            Some(HtmlEnd::Text(text)) => answer.text(text)?,
            None => answer.none()?,
        },
        "starts_html_block_type_6" => answer.flag(starts_html_block_type_6(bytes))?,
        "scan_html_type_7" => answer.length(scan_html_type_7(bytes))?,
        _ => return Ok(false),
    }
    Ok(true)
}
