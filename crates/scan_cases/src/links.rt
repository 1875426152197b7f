//! Calls of `first_pass_links`.

ghost use Rattle.first_pass_items.specs.Bytes.{space};
ghost use Rattle.std.specs.Prelude.{◌≡◌, ◌<◌, length, slice_index, IfSome};

use crate::call::Call;
use first_pass_cases::answer::Answer;
use first_pass_entities::entity::scan_entity;
use first_pass_items::cow_str::CowStr;
use first_pass_links::destination::scan_link_dest;
use first_pass_links::escape::unescape;
use first_pass_links::label::scan_link_label_rest;
use std::alloc::{AllocError, Global};
use std::ops::DerefStr;

/// Makes a call for a reference, an escape, a destination or a label. Returns `false` for any other call.
pub fn answer_links(call: &Call<'_>, answer: &mut Answer) -> Result<bool, AllocError> {
    match call.name {
        "scan_entity" => append_reference(call.text.as_bytes(), answer)?,
        "unescape" => append_cow(
            &unescape(call.alloc, call.text, call.given.flag(0))?,
            answer,
        )?,
        "scan_link_dest" => append_destination(call, answer)?,
        "scan_link_label_rest" => append_label(call, answer)?,
        _ => return Ok(false),
    }
    Ok(true)
}

/// Appends a text, and whether it is borrowed.
pub fn append_cow(cow: &CowStr<'_>, answer: &mut Answer) -> Result<(), AllocError> {
    answer.word(match cow {
        CowStr::Borrowed(_) => "borrowed",
        _ => "owned",
    })?;
    answer.text(cow.deref())
}

// The number of bytes of a character reference, and the number of each of its characters.
fn append_reference(bytes: &[u8], answer: &mut Answer) -> Result<(), AllocError> {
    let (len, found) = scan_entity(bytes);
    answer.number(len)?;
    match found {
        Some(stands_for) => {
            for character in stands_for.deref().chars() {
                answer.number(character as usize)?;
            }
            Ok(())
        }
        None => answer.none(),
    }
}

// The number of bytes of a destination, and its text. The arguments are its offset and the greatest nesting of its
// parentheses.
fn append_destination(call: &Call<'_>, answer: &mut Answer) -> Result<(), AllocError> {
    let (text, start) = (call.text, call.given.number(0));
    if !text.is_char_boundary(start) {
        return answer.none();
    }
    match scan_link_dest(text, start, call.given.number(1)) {
        Some((len, destination)) => {
            answer.number(len)?;
            answer.text(destination)
        }
        None => answer.none(),
    }
}

// The number of bytes of a label after its bracket, and its text. The label is in a cell if the first flag is set,
// and in a block quote if the second one is.
fn append_label(call: &Call<'_>, answer: &mut Answer) -> Result<(), AllocError> {
    let (alloc, text, in_table) = (call.alloc, call.text, call.given.flag(0));
    let found = match call.given.flag(1) {
        true => quoted_label(alloc, text, in_table)?,
        false => scan_link_label_rest(alloc, text, |_line: &[u8]| Ok(Some(0)), in_table)?,
    };
    match found {
        Some((len, label)) => {
            answer.number(len)?;
            append_cow(&label, answer)
        }
        None => answer.none(),
    }
}

// A label in which each further line has the marker of a block quote.
fn quoted_label<'t>(
    alloc: Global,
    text: &'t str,
    in_table: bool,
) -> Result<Option<(usize, CowStr<'t>)>, AllocError> {
    scan_link_label_rest(alloc, text, |line: &[u8]| Ok(quote_prefix(line)), in_table)
}

fn quote_prefix(line: &[u8]) -> Option<usize>
    ensures { IfSome result (λ n. (n ≡ 2) × (1 < length line.now) × (slice_index line.now 1 ≡ space)) }
{
    match line {
        [b'>', b' ', ..] => Some(2),
        _ => None,
    }
}
