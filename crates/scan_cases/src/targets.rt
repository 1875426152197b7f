//! Calls of `first_pass_targets`.

use crate::call::Call;
use crate::containers::options_of;
use first_pass_cases::answer::Answer;
use first_pass_items::cow_str::CowStr;
use first_pass_labels::label_key::LabelKey;
use first_pass_labels::label_table::{FootDefs, FootnoteDef, LinkDef, LinkPlaces, RefDefs};
use first_pass_targets::definition_index::DefinitionIndex;
use first_pass_targets::destination::scan_inline_destination;
use first_pass_targets::footnote::is_footnote_label;
use first_pass_targets::footnote_index::FootnoteIndex;
use first_pass_targets::key::spelled_label;
use first_pass_targets::label::{is_blank_label, scan_inline_label};
use first_pass_targets::part::Part;
use first_pass_targets::target::{Target, scan_target};
use first_pass_targets::title::scan_inline_title;
use std::alloc::{AllocError, Global};

// More than the labels of a case.
const MOST_LABELS: usize = 100;

/// Makes a call for a part of an inline link. Returns `false` for any other call.
pub fn answer_targets(call: &Call<'_>, answer: &mut Answer) -> Result<bool, AllocError> {
    let bytes = call.text.as_bytes();
    match call.name {
        "spelled_label" => answer.text(spelled_label(call.alloc, call.text)?.as_str())?,
        "find_definition" => append_named(call, answer)?,
        "has_footnote" => append_has_footnote(call, answer)?,
        "is_blank_label" => answer.flag(is_blank_label(bytes))?,
        "is_footnote_label" => {
            let options = options_of(call.given.number(0));
            answer.flag(is_footnote_label(bytes, options))?;
        }
        _ => return answer_places(call, answer),
    }
    Ok(true)
}

// Makes a call for a part at a place. The place is the argument.
fn answer_places(call: &Call<'_>, answer: &mut Answer) -> Result<bool, AllocError> {
    let (content, place) = (call.text, call.given.number(0));
    if !content.is_char_boundary(place) {
        return Ok(false);
    }
    match call.name {
        "scan_inline_destination" => append_part(scan_inline_destination(content, place), answer)?,
        "scan_inline_title" => append_part(scan_inline_title(content, place), answer)?,
        "scan_inline_label" => append_part(scan_inline_label(content, place), answer)?,
        "scan_target" => append_target(scan_target(content, place), answer)?,
        _ => return Ok(false),
    }
    Ok(true)
}

// Appends the range of the text of a part, and the place after it.
fn append_part(found: Option<Part>, answer: &mut Answer) -> Result<(), AllocError> {
    match found {
        Some(part) => {
            answer.number(part.start)?;
            answer.number(part.end)?;
            answer.number(part.past)
        }
        None => answer.none(),
    }
}

// Appends the destination and the title of a target, and the place after it.
fn append_target(found: Option<Target>, answer: &mut Answer) -> Result<(), AllocError> {
    match found {
        Some(target) => {
            append_part(Some(target.dest), answer)?;
            append_part(target.title, answer)?;
            answer.number(target.past)
        }
        None => answer.none(),
    }
}

// Appends the number of the definition that a label names, and its index in the table. The text has this label, and then
// the labels of definitions, each after a `|`. Each definition begins before those to its left.
fn append_named(call: &Call<'_>, answer: &mut Answer) -> Result<(), AllocError> {
    let Some((named, labels)) = call.text.split_once('|') else {
        return answer.none();
    };
    let table = definitions_of(call.alloc, labels)?;
    let index = DefinitionIndex::of(call.alloc, &table)?;
    match index.find(call.alloc, named)? {
        Some(definition) => answer.number(MOST_LABELS.saturating_sub(definition.span.start))?,
        None => return answer.none(),
    }
    answer.length(index.index_of(call.alloc, named)?)
}

// The table of definitions with these labels.
fn definitions_of<'t>(alloc: Global, labels: &'t str) -> Result<RefDefs<'t>, AllocError> {
    let mut table = RefDefs::new(alloc);
    let mut start = MOST_LABELS;
    for label in labels.split('|') {
        start = start.saturating_sub(1);
        let key = LabelKey::new(alloc, CowStr::Borrowed(label))?;
        table.insert_first(key, definition_at(start))?;
    }
    table.sort()?;
    Ok(table)
}

// Appends whether a footnote has a label. The text has this label, and then the labels of footnotes, each after a `|`.
fn append_has_footnote(call: &Call<'_>, answer: &mut Answer) -> Result<(), AllocError> {
    let Some((named, labels)) = call.text.split_once('|') else {
        return answer.none();
    };
    let table = footnotes_of(call.alloc, labels)?;
    let index = FootnoteIndex::of(call.alloc, &table)?;
    answer.flag(index.contains(call.alloc, named)?)
}

// The table of footnotes with these labels.
fn footnotes_of<'t>(alloc: Global, labels: &'t str) -> Result<FootDefs<'t>, AllocError> {
    let mut table = FootDefs::new(alloc);
    for label in labels.split('|') {
        let key = LabelKey::new(alloc, CowStr::Borrowed(label))?;
        table.insert_first(key, FootnoteDef { use_count: 0 })?;
    }
    table.sort()?;
    Ok(table)
}

// A definition that begins at an offset.
fn definition_at(start: usize) -> LinkDef<'static> {
    LinkDef {
        dest: CowStr::Borrowed(""),
        title: None,
        span: start..start,
        places: LinkPlaces {
            label_end: start,
            dest_start: start,
            dest_end: start,
            title_start: start,
        },
    }
}
