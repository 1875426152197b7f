//! Calls of `first_pass_attributes`.

use crate::call::Call;
use first_pass_attributes::attrs::{
    HeadingAttributes, extract_attribute_block_content_from_header_text,
    parse_inside_attribute_block,
};
use first_pass_cases::answer::Answer;
use std::alloc::AllocError;

/// Makes a call for a heading's attribute block or for its attributes. Returns `false` for any other call.
pub fn answer_attributes(call: &Call<'_>, answer: &mut Answer) -> Result<bool, AllocError> {
    match call.name {
        "extract_attribute_block_content_from_header_text" => append_block(
            call.text.as_bytes(),
            answer,
        )?,
        "parse_inside_attribute_block" => match parse_inside_attribute_block(
            call.alloc, call.text,
        )? {
            Some(attributes) => append_attributes(&attributes, answer)?,
            None => answer.none()?,
        },
        _ => return Ok(false),
    }
    Ok(true)
}

// The number of bytes before a heading's attribute block, and the offsets of the start and end of the content of its
// braces.
fn append_block(heading: &[u8], answer: &mut Answer) -> Result<(), AllocError> {
    let (len, inside) = extract_attribute_block_content_from_header_text(heading);
    answer.number(len)?;
    match inside {
        Some(range) => {
            answer.number(range.start)?;
            answer.number(range.end)
        }
        None => answer.none(),
    }
}

// The id, each class, and each key with its value.
fn append_attributes(
    attributes: &HeadingAttributes<'_>,
    answer: &mut Answer,
) -> Result<(), AllocError> {
    append_named("id", attributes.id, answer)?;
    let classes: &[&str] = &attributes.classes;
    for class in classes {
        append_named("class", Some(*class), answer)?;
    }
    let keys: &[(&str, Option<&str>)] = &attributes.attrs;
    for (key, value) in keys {
        append_named("key", Some(*key), answer)?;
        append_named("value", *value, answer)?;
    }
    Ok(())
}

// A name, then a text or `none`.
fn append_named(name: &str, text: Option<&str>, answer: &mut Answer) -> Result<(), AllocError> {
    answer.word(name)?;
    match text {
        Some(text) => answer.text(text),
        None => answer.none(),
    }
}
