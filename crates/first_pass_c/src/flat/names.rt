//! The bytes that nodes name, and how texts are appended to the names.

ghost use Rattle.first_pass_c.specs.FlatNodes.{name_by, name_of};
ghost use Rattle.first_pass_c.specs.Kinds.{alignment_byte};
ghost use Rattle.first_pass_grammar.specs.Names.{Names};
ghost use Rattle.first_pass_names.specs.TableEntries.{names_of};
ghost use Rattle.std.specs.List.{flat_map};
ghost use Rattle.std.specs.Prelude.{◌≡◌, ◌++◌, [], false, length, map, IfOk, OnOk};

use crate::flat::kinds::alignment_byte;
use first_pass_items::item::{Alignment, Item, ItemBody};
use first_pass_names::items::Allocations;
use std::alloc::AllocError;

/// A range of bytes in the names.
#[derive(Clone, Copy)]
pub struct NameRange {
    pub start: usize,
    pub length: usize,
}

/// Appends a text to the names, and returns its range there. Fails only if an allocation fails.
pub(crate) fn append_text(names: &mut Vec<u8>, text: &str) -> Result<NameRange, AllocError>
    ensures start { IfOk result (λ range. range.start ≡ length names.old.items) }
    ensures count { IfOk result (λ range. range.length ≡ length text.now) }
    ensures names { OnOk result (names.new.items ≡ names.old.items ++ text.now) }
{
    let start = names.len();
    names.extend_from_slice(text.as_bytes())?;
    Ok(NameRange {
        start,
        length: text.len(),
    })
}

/// Appends the bytes that nodes name, in reading order. Fails only if an allocation fails.
pub(crate) fn append_names(
    names: &mut Vec<u8>,
    nodes: &[(usize, Item)],
    allocs: &Allocations<'_>,
) -> Result<(), AllocError>
    ensures { OnOk result (names.new.items ≡ names.old.items ++ flat_map (name_by (names_of allocs.now)) nodes.now) }
{
    for node in nodes {
        let body = &node.1.body;
        if may_name_bytes(body) {
            append_name(names, body, allocs)?;
        }
    }
    Ok(())
}

// Whether a node of this kind may name bytes.
#[inline(always)]
fn may_name_bytes(body: &ItemBody) -> bool
    ensures { result ≡ false → (names : Names) → name_of names body.now ≡ [] }
{
    matches!(
        *body,
        ItemBody::FencedCodeBlock(_)
            | ItemBody::FootnoteDefinition(_)
            | ItemBody::SynthesizeText(_)
            | ItemBody::Table(_)
    )
}

// Appends the bytes that a node names, if it names any. Out of line because few nodes do.
#[inline(never)]
fn append_name(
    names: &mut Vec<u8>,
    body: &ItemBody,
    allocs: &Allocations<'_>,
) -> Result<(), AllocError>
    ensures { OnOk result (names.new.items ≡ names.old.items ++ name_of (names_of allocs.now) body.now) }
{
    match *body {
        ItemBody::FencedCodeBlock(ix) => names.extend_from_slice(allocs.text_at(ix).as_bytes()),
        ItemBody::FootnoteDefinition(ix) => names.extend_from_slice(allocs.text_at(ix).as_bytes()),
        ItemBody::SynthesizeText(ix) => names.extend_from_slice(allocs.text_at(ix).as_bytes()),
        ItemBody::Table(ix) => append_alignments(names, allocs.alignments_at(ix)),
        _ => Ok(()),
    }
}

// Appends a byte for each column of a table.
fn append_alignments(names: &mut Vec<u8>, alignments: &[Alignment]) -> Result<(), AllocError>
    ensures { OnOk result (names.new.items ≡ names.old.items ++ map alignment_byte alignments.now) }
{
    for alignment in alignments {
        names.push(alignment_byte(*alignment))?;
    }
    Ok(())
}

/// Returns the number of bytes that a node names.
#[inline(never)]
pub(crate) fn name_length(body: &ItemBody, allocs: &Allocations<'_>) -> usize
    ensures { result ≡ length (name_of (names_of allocs.now) body.now) }
{
    match *body {
        ItemBody::FencedCodeBlock(ix) => allocs.text_at(ix).len(),
        ItemBody::FootnoteDefinition(ix) => allocs.text_at(ix).len(),
        ItemBody::SynthesizeText(ix) => allocs.text_at(ix).len(),
        ItemBody::Table(ix) => allocs.alignments_at(ix).len(),
        _ => 0,
    }
}
