//! Calls of `first_pass_definitions`.

use crate::call::Call;
use crate::containers::{open_path, options_of};
use crate::links::append_cow;
use bitflags::Flags;
use first_pass_cases::answer::Answer;
use first_pass_definitions::footnote_head::scan_footnote;
use first_pass_definitions::reference::parse_refdef_total;
use first_pass_items::option_set::Options;
use first_pass_labels::label_key::LabelKey;
use first_pass_labels::label_table::LinkDef;
use first_pass_open::source::Source;
use std::alloc::AllocError;

/// Makes a call for a definition or the head of a footnote definition. Returns `false` for any other call.
pub fn answer_definitions(call: &Call<'_>, answer: &mut Answer) -> Result<bool, AllocError> {
    match call.name {
        "parse_refdef_total" => append_reference(call, answer)?,
        "definition_places" => append_places(call, answer)?,
        "scan_footnote" => append_footnote(call, answer)?,
        _ => return Ok(false),
    }
    Ok(true)
}

// The length in bytes of the definition that `definition_of` finds, with its label, destination, title and span.
fn append_reference(call: &Call<'_>, answer: &mut Answer) -> Result<(), AllocError> {
    match &definition_of(call)? {
        Some((size, label, definition)) => append_definition(*size, label, definition, answer),
        None => answer.none(),
    }
}

// The length of a definition, its label, its destination, its title, and its span.
fn append_definition(
    size: usize,
    label: &LabelKey<'_>,
    definition: &LinkDef<'_>,
    answer: &mut Answer,
) -> Result<(), AllocError> {
    answer.number(size)?;
    answer.text(label.label())?;
    append_cow(&definition.dest, answer)?;
    match &definition.title {
        Some(title) => append_cow(title, answer)?,
        None => answer.none()?,
    }
    answer.number(definition.span.start)?;
    answer.number(definition.span.end)
}

// The offsets of the end of the label, of both ends of the destination, and of the start of the title, of the
// definition that `definition_of` finds.
fn append_places(call: &Call<'_>, answer: &mut Answer) -> Result<(), AllocError> {
    match definition_of(call)? {
        Some((_, _, definition)) => {
            let places = definition.places;
            answer.number(places.label_end)?;
            answer.number(places.dest_start)?;
            answer.number(places.dest_end)?;
            answer.number(places.title_start)
        }
        None => answer.none(),
    }
}

// The definition at the place in the second value, with its length in bytes and its label. The first value is the
// path of the open containers (see `open_path`).
fn definition_of<'t>(
    call: &Call<'t>,
) -> Result<Option<(usize, LabelKey<'t>, LinkDef<'t>)>, AllocError> {
    let start = call.given.number(1);
    if !call.text.is_char_boundary(start) {
        return Ok(None);
    }
    let source = Source::new(call.alloc, call.text, Options::empty());
    let tree = open_path(call.alloc, call.given.number(0))?;
    parse_refdef_total(&source, &tree, start)
}

// The length in bytes of the head of the footnote definition at the place in the third value, with its label. The
// second value is the options, and the first the path of the open containers (see `open_path`).
fn append_footnote(call: &Call<'_>, answer: &mut Answer) -> Result<(), AllocError> {
    let start = call.given.number(2);
    if !call.text.is_char_boundary(start) {
        return answer.none();
    }
    let source = Source::new(call.alloc, call.text, options_of(call.given.number(1)));
    let tree = open_path(call.alloc, call.given.number(0))?;
    match scan_footnote(&source, &tree, start)? {
        Some((size, label)) => {
            answer.number(size)?;
            append_cow(&label, answer)
        }
        None => answer.none(),
    }
}
