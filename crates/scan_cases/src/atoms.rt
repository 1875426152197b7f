//! Calls of `first_pass_atoms`.

use crate::call::Call;
use crate::tokens::tokens_of;
use first_pass_atoms::autolinks::{AutolinkForm, autolink_at};
use first_pass_atoms::code_text::code_text;
use first_pass_atoms::html_ends::HtmlEnds;
use first_pass_atoms::raw_html::raw_html_at;
use first_pass_atoms::token_ends::token_ends;
use first_pass_cases::answer::Answer;
use first_pass_lines::lines::begins;
use first_pass_lines::places::rest_of;
use std::alloc::AllocError;
use std::borrow::CowSlice;

/// Makes a call for an atom. Returns `false` for any other call.
pub fn answer_atoms(call: &Call<'_>, answer: &mut Answer) -> Result<bool, AllocError> {
    let bytes = call.text.as_bytes();
    match call.name {
        "autolink_at" => append_autolink(call, answer)?,
        "raw_html_at" => {
            let place = call.given.number(0).min(bytes.len());
            let mut ends = HtmlEnds::new(bytes);
            answer.length(raw_html_at(bytes, place, &mut ends))?;
        }
        "raw_html_at_each" => append_each(bytes, answer)?,
        "code_text" => append_code_text(call, answer)?,
        "token_ends" => append_ends(call, answer)?,
        _ => return Ok(false),
    }
    Ok(true)
}

// Appends the end and the form of the autolink at a place.
fn append_autolink(call: &Call<'_>, answer: &mut Answer) -> Result<(), AllocError> {
    let bytes = call.text.as_bytes();
    let place = call.given.number(0).min(bytes.len());
    let Some(link) = autolink_at(bytes, place) else {
        return answer.none();
    };
    answer.number(link.end)?;
    answer.word(match link.form {
        AutolinkForm::Uri => "uri",
        AutolinkForm::Email => "email",
    })
}

// Appends the end of the raw HTML at each `<`, in order, all with one record of ends.
fn append_each(bytes: &[u8], answer: &mut Answer) -> Result<(), AllocError> {
    let mut ends = HtmlEnds::new(bytes);
    for place in 0..bytes.len() {
        if begins(b'<', rest_of(bytes, place)) {
            answer.length(raw_html_at(bytes, place, &mut ends))?;
        }
    }
    Ok(())
}

// Appends the text of a code span, and whether it is borrowed.
fn append_code_text(call: &Call<'_>, answer: &mut Answer) -> Result<(), AllocError> {
    let made = code_text(call.alloc, call.text.as_bytes())?;
    match str::from_utf8(made.as_slice()) {
        Ok(text) => answer.text(text)?,
        Err(_) => answer.none()?,
    }
    answer.word(match made {
        CowSlice::Borrowed(_) => "borrowed",
        CowSlice::Owned(_) => "owned",
    })
}

// Appends, for each token of a paragraph that begins a code span or math, what it begins, its index and that of the last
// token.
fn append_ends(call: &Call<'_>, answer: &mut Answer) -> Result<(), AllocError> {
    let tree = tokens_of(call, false)?;
    let [_, _, tokens @ ..] = tree.nodes() else {
        return answer.none();
    };
    let ends = token_ends(call.alloc, tokens)?;
    for at in 0..tokens.len() {
        if let Some(last) = ends.code_end(tokens, at) {
            append_end("code", at, last, answer)?;
        }
        if let Some(end) = ends.math_end(tokens, at) {
            let name = if end.display { "display" } else { "inline" };
            append_end(name, at, end.last, answer)?;
        }
    }
    if answer.as_str().is_empty() {
        answer.none()?;
    }
    Ok(())
}

// Appends a name and the indices of the first and the last token.
fn append_end(name: &str, at: usize, last: usize, answer: &mut Answer) -> Result<(), AllocError> {
    answer.word(name)?;
    answer.number(at)?;
    answer.number(last)
}
