//! The walk over special bytes: the bytes for which it makes a call.

use bitflags::Flags;
use first_pass_items::option_set::Options;
use first_pass_walk::walk::{LoopInstruction, iterate_special_bytes, special_bytes};
use std::test::Fail;

// The offsets of the calls of a walk over a text, and its result.
fn walk(lut: &[bool; 256], bytes: &[u8], calls: &mut Vec<usize>) -> (usize, Option<usize>) {
    calls.clear();
    iterate_special_bytes(lut, bytes, 0, |at, byte| {
        if bytes.get(at) != Some(&byte) || calls.push(at).is_err() {
            LoopInstruction::BreakAtWith(at, Some(at))
        } else {
            LoopInstruction::ContinueAndSkip(0)
        }
    })
}

// Whether a walk over a text that has `byte` at the offsets 3 and 6, and `other` elsewhere, makes its calls at these
// two offsets alone, and then ends.
fn calls_at_both(lut: &[bool; 256], byte: u8, other: u8, calls: &mut Vec<usize>) -> bool {
    let mut bytes = [other; 18];
    bytes[3] = byte;
    bytes[6] = byte;
    walk(lut, &bytes, calls) == (18, None) && calls.as_slice() == [3, 6].as_slice()
}

// The options that make `|`, `~`, `^`, `$` and braces special.
fn options() -> Options {
    Options::ENABLE_TABLES
        .union(Options::ENABLE_STRIKETHROUGH)
        .union(Options::ENABLE_SUPERSCRIPT)
        .union(Options::ENABLE_MATH)
}

#[test]
fn walk_calls_at_special_bytes_alone(rt: HostRuntime) {
    let lut = special_bytes(&options());
    let special = b"\n\r*_~^|&\\[]<!`${}";
    let mut calls = Vec::new(rt.alloc());
    for byte in special.iter() {
        for other in 0..=255 {
            let called = special.contains(&other) || calls_at_both(&lut, *byte, other, &mut calls);
            assert!(rt; called, "{byte} {other}");
        }
    }
}
