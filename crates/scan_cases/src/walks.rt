//! Calls of the options, of `first_pass_walk`, and for delimiter runs.

use crate::call::Call;
use crate::containers::options_of;
use bitflags::Flags;
use first_pass_cases::answer::Answer;
use first_pass_cases::given::Given;
use first_pass_items::option_set::Options;
use first_pass_walk::flank::{TableParseMode, delim_run_can_close, delim_run_can_open};
use first_pass_walk::walk::{LoopInstruction, iterate_special_bytes, next_special, special_bytes};
use std::alloc::{AllocError, Global};

/// Makes a call of the options, or of the bytes that they make special. Returns `false` for any other call.
pub fn answer_walks(call: &Call<'_>, answer: &mut Answer) -> Result<bool, AllocError> {
    let (given, text) = (call.given, call.text);
    match call.name {
        "Options::from_name" => append_bits(Options::from_name(text), answer)?,
        "special_bytes" => append_special(call.alloc, given.number(0), answer)?,
        "next_special" => {
            let lut = special_bytes(&Options::empty());
            answer.length(next_special(&lut, text.as_bytes(), given.number(0)))?
        }
        "iterate_special_bytes" => append_calls(text.as_bytes(), given, answer)?,
        _ => return Ok(false),
    }
    Ok(true)
}

// The offset and the byte of each call of a walk, and its end. The arguments are the bits of options, and the number
// of bytes that are skipped after each call.
fn append_calls(bytes: &[u8], given: &Given, answer: &mut Answer) -> Result<(), AllocError> {
    let lut = special_bytes(&options_of(given.number(0)));
    let skip = given.number(1);
    let (end, fault) = iterate_special_bytes(
        &lut,
        bytes,
        0,
        |at, byte| match append_call(at, byte, answer) {
            Ok(()) => LoopInstruction::ContinueAndSkip(skip),
            Err(error) => LoopInstruction::BreakAtWith(at, Some(error)),
        },
    );
    match fault {
        Some(error) => Err(error),
        None => answer.number(end),
    }
}

fn append_call(at: usize, byte: u8, answer: &mut Answer) -> Result<(), AllocError> {
    answer.number(at)?;
    answer.byte(byte)
}

/// Appends the bits of options, or `none`.
pub fn append_bits(found: Option<Options>, answer: &mut Answer) -> Result<(), AllocError> {
    match found {
        Some(options) => answer.number(options.bits() as usize),
        None => answer.none(),
    }
}

// The bytes that the options with these bits make special, in their order.
fn append_special(alloc: Global, bits: usize, answer: &mut Answer) -> Result<(), AllocError> {
    let lut = special_bytes(&options_of(bits));
    let mut special = String::new(alloc);
    for byte in 0..=255 {
        if lut[byte as usize] {
            special.push(char::from(byte))?;
        }
    }
    answer.text(special.as_str())
}

/// Makes a call for whether a delimiter run can open or close. Returns `false` for any other call. The arguments are
/// the mode, the offset of the run, and its number of bytes. Mode 0 is no table, 1 a line that may be a row, and 2 a
/// cell.
pub fn answer_flanks(call: &Call<'_>, answer: &mut Answer) -> Result<bool, AllocError> {
    let (given, text) = (call.given, call.text);
    let (at, len) = (given.number(1), given.number(2));
    let mode = match given.number(0) {
        0 => TableParseMode::Disabled,
        1 => TableParseMode::Scan,
        _ => TableParseMode::Active,
    };
    if !text.is_char_boundary(at) {
        return Ok(false);
    }
    let suffix = &text[at..];
    if !suffix.is_char_boundary(len) {
        return Ok(false);
    }
    match call.name {
        "delim_run_can_open" => answer.flag(delim_run_can_open(text, suffix, len, at, mode))?,
        "delim_run_can_close" => answer.flag(delim_run_can_close(text, suffix, len, at, mode))?,
        _ => return Ok(false),
    }
    Ok(true)
}
