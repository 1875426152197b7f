//! The block pass for other languages: three calls that write into memory of their caller.
#![tactic(auto)]

ghost use Rattle.first_pass_c.specs.Folding.{HasNoRoomFor, IsFolded};
ghost use Rattle.first_pass_c.specs.Memory.{memory};
ghost use Rattle.first_pass_c.specs.Naming.{flat_range, range_named};
ghost use Rattle.first_pass_c.specs.Reading.{AreKnown, IsNotUtf8, IsTextRead, IsReadable, IsTooLong, IsTooSmall};
ghost use Rattle.std.specs.declared.ops.Range.{Range};
ghost use Rattle.std.specs.Prelude.{◌≡◌, ◌≢◌, ◌≤◌, IsUtf8, None, Some, ℕ};

pub mod copying;
pub mod fault;
pub mod flat;
pub mod folding;
pub mod laws;
pub mod naming;
pub mod reading;
#[cfg(test)]
mod tests;

use crate::fault::{Fault, status_of};
use crate::flat::records::{FlatAttribute, FlatDefinition, FlatNode};
use crate::folding::fold_into;
use crate::naming::{FlatRange, range_named};
use crate::reading::{FlatCounts, read_text, write_into};
use std::alloc::Global;

/// Reads the blocks of a text under the options with these bits. At status 0 the four arrays begin with the flat form
/// of the tree and of its tables, and `counts` has the length of each part. The rest of each array is unchanged.
///
/// The statuses, in the order of the tests: 3, a bit belongs to no option; 2, the text is not UTF-8; 5, the text has
/// 2^32 bytes or more; 1, an allocation failed; 4, an array is too short, and `counts` has the lengths that are
/// needed; 5, a number of a node needs more than 32 bits. At status 5 the arrays may have been written to. At statuses
/// 1 to 4 they are unchanged.
#[unsafe(no_mangle)]
pub extern "C" fn first_pass_parse_into(
    alloc: Global,
    text: &[u8],
    bits: u32,
    nodes: &mut [FlatNode],
    attributes: &mut [FlatAttribute],
    definitions: &mut [FlatDefinition],
    strings: &mut [u8],
    counts: &mut FlatCounts,
) -> u32
    ensures read { result ≡ 0 → IsTextRead text.now bits (memory nodes.old attributes.old definitions.old strings.old)
        (memory nodes.new attributes.new definitions.new strings.new) counts.new }
    ensures out_of_memory { result ≡ 1 → IsReadable text.now bits }
    ensures not_utf8 { result ≡ 2 → IsNotUtf8 text.now bits }
    ensures bad_options { result ≡ 3 → AreKnown bits → ⊥ }
    ensures too_small { result ≡ 4
        → IsTooSmall text.now bits (memory nodes.old attributes.old definitions.old strings.old) counts.new }
    ensures too_long { result ≡ 5 → IsTooLong text.now bits }
    ensures status { result ≤ 5 }
    ensures counted { result ≢ 0 → result ≢ 4 → counts.new ≡ counts.old }
    ensures unchanged { result ≢ 0 → result ≢ 5 → memory nodes.new attributes.new definitions.new strings.new
        ≡ memory nodes.old attributes.old definitions.old strings.old }
{
    let parsed = match read_text(alloc, text, bits) {
        Ok(parsed) => parsed,
        Err(fault) => return status_of(fault),
    };
    match write_into(&parsed, nodes, attributes, definitions, strings) {
        Ok(()) => {
            *counts = parsed.counts();
            0
        }
        Err(fault) => {
            if let Fault::TooSmall = fault {
                *counts = parsed.counts();
            }
            status_of(fault)
        }
    }
}

/// Folds a label by full default case folding, as labels are compared. At status 0 `folded` begins with the folding,
/// and `folded_length` is its length. The rest of `folded` is unchanged.
///
/// The statuses, in the order of the tests: 2, the label is not UTF-8; 1, an allocation failed; 4, `folded` is too
/// short, and `folded_length` is the length that is needed. At each of these `folded` is unchanged.
#[unsafe(no_mangle)]
pub extern "C" fn first_pass_fold(
    alloc: Global,
    label: &[u8],
    folded: &mut [u8],
    folded_length: &mut usize,
) -> u32
    ensures folded { result ≡ 0 → IsFolded label.now folded.old folded.new folded_length.new }
    ensures out_of_memory { result ≡ 1 → IsUtf8 label.now }
    ensures not_utf8 { result ≡ 2 → IsUtf8 label.now → ⊥ }
    ensures too_small { result ≡ 4 → HasNoRoomFor label.now folded.old folded_length.new }
    ensures status { result ≤ 4 }
    ensures no_options { result ≢ 3 }
    ensures counted { result ≢ 0 → result ≢ 4 → folded_length.new ≡ folded_length.old }
    ensures unchanged { result ≢ 0 → folded.new ≡ folded.old }
{
    match fold_into(alloc, label, folded, folded_length) {
        Ok(()) => 0,
        Err(fault) => status_of(fault),
    }
}

/// Finds where a text has what a node names: the info string of a fenced code block, the label of a footnote
/// definition, or the attributes of a heading, between the braces. Returns 1 and writes the range to `range`. Returns 0
/// and leaves `range` unchanged if the node names nothing that the text has, or if the range of the node is not in the
/// text.
///
/// `node` is the record of a node of the text. Nothing is allocated.
#[unsafe(no_mangle)]
pub extern "C" fn first_pass_string_range(
    text: &[u8],
    node: &FlatNode,
    range: &mut FlatRange,
) -> u32
    ensures some { result ≡ 1 → (found : Range ℕ) × (range_named text.now node.now ≡ Some found)
        × (range.new ≡ flat_range found) }
    ensures none { result ≡ 0 → range_named text.now node.now ≡ None }
    ensures unchanged { result ≡ 0 → range.new ≡ range.old }
    ensures answer { result ≤ 1 }
{
    match range_named(text, node) {
        None => 0,
        Some(found) => {
            *range = found;
            1
        }
    }
}
