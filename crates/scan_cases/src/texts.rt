//! Calls of the texts of `first_pass_items`.

use crate::call::Call;
use first_pass_cases::answer::Answer;
use first_pass_items::cow_str::{CowStr, InlineStr};
use std::alloc::AllocError;
use std::boxed::BoxedStr;
use std::ops::DerefStr;

/// Makes a call of a text. Returns `false` for any other call.
pub fn answer_texts(call: &Call<'_>, answer: &mut Answer) -> Result<bool, AllocError> {
    let text = call.text;
    match call.name {
        "CowStr::Inlined" => append_inlined(InlineStr::try_from_str(text), answer)?,
        "CowStr::Boxed" => {
            let boxed = CowStr::Boxed(BoxedStr::from_str(call.alloc, text)?);
            answer.text(boxed.deref())?
        }
        "CowStr::Borrowed" => answer.text(CowStr::Borrowed(text).deref())?,
        "InlineStr::from_char" => {
            append_inlined(text.chars().next().map(InlineStr::from_char), answer)?
        }
        _ => return Ok(false),
    }
    Ok(true)
}

fn append_inlined(found: Option<InlineStr>, answer: &mut Answer) -> Result<(), AllocError> {
    match found {
        Some(short) => answer.text(CowStr::Inlined(short).deref()),
        None => answer.none(),
    }
}
