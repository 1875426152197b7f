//! Parts of a content, and their printed forms.

ghost use Rattle.first_pass_content.specs.Content.{byte_at, edge, range_in};
ghost use Rattle.first_pass_lines.specs.Lines.{is_white_or_line_end};
ghost use Rattle.first_pass_linked.specs.Targets.{address_of, bytes_in, spaced_range};
ghost use Rattle.first_pass_links.specs.Labels.{single_spaced};
ghost use Rattle.std.specs.Prelude.{◌≡◌, ◌<◌, ◌∷◌, ◌++◌, OnOk, drop, slice_index};

use first_pass_content::content::Content;
use first_pass_inline::mark::Span;
use first_pass_lines::lines::is_white_or_line_end;
use first_pass_reports::printed::node::append_number;
use first_pass_reports::references::label::bytes_between;
use std::alloc::AllocError;
use std::ops::Range;

/// Returns the bytes of a part of a content.
pub fn bytes_in<'c>(content: &'c Content<'_>, part: Span) -> &'c [u8]
    ensures { result.now ≡ bytes_in content.now part }
{
    bytes_between(content.bytes(), part.start, part.end)
}

/// Returns the range in the text of the part of a content from one place up to another.
pub fn range_in(content: &Content<'_>, from: usize, to: usize) -> Range<usize>
    ensures { result ≡ range_in content.now from to }
{
    if from < to {
        return start_at(content, from)..end_at(content, to - 1);
    }
    let at = edge(content, from);
    at..at
}

/// Returns the bytes after the first one.
pub fn after_first(bytes: &[u8]) -> &[u8]
    ensures { result.now ≡ drop 1 bytes.now }
{
    bytes.get(1..).unwrap_or(&[])
}

/// Returns what is between the `<` and the `>` of an autolink.
pub fn address_of(part: Span) -> Span
    requires { part.start < part.«end» }
    ensures { result ≡ address_of part }
{
    Span {
        start: part.start + 1,
        end: part.end - 1,
    }
}

// The offset of an empty part of a content at a place.
fn edge(content: &Content<'_>, place: usize) -> usize
    ensures { result ≡ edge content.now place }
{
    if place == 0 {
        start_at(content, 0)
    } else {
        end_at(content, place - 1)
    }
}

// The offset at which the byte at a place begins; 0 after the last one.
fn start_at(content: &Content<'_>, place: usize) -> usize
    ensures { result ≡ (byte_at content.now place).start }
{
    if place < content.bytes().len() {
        content.range_of(place, place + 1).start
    } else {
        0
    }
}

// The offset at which the byte at a place ends; 0 after the last one.
fn end_at(content: &Content<'_>, place: usize) -> usize
    ensures { result ≡ (byte_at content.now place).«end» }
{
    if place < content.bytes().len() {
        content.range_of(place, place + 1).end
    } else {
        0
    }
}

/// Appends a range after a space. Fails only if an allocation fails.
pub fn append_spaced_range(line: &mut Vec<u8>, range: Range<usize>) -> Result<(), AllocError>
    ensures { OnOk result (line.new.items ≡ line.old.items ++ spaced_range range) }
{
    line.push(b' ')?;
    append_number(line, range.start)?;
    line.extend_from_slice(b"..")?;
    append_number(line, range.end)
}

/// Appends a label with each run of white space and line endings as one space (CommonMark 6.3). Fails only if an
/// allocation fails.
pub fn append_spelled(line: &mut Vec<u8>, label: &[u8]) -> Result<(), AllocError>
    ensures { OnOk result (line.new.items ≡ line.old.items ++ single_spaced label.now) }
{
    let mut rest = label;
    while let Some((byte, following)) = rest.split_first() {
        append_label_byte(line, *byte, following)?;
        rest = following;
    }
    Ok(())
}

// Appends a byte of a label before others: a space for the last white space or line ending of a run, nothing for the
// others.
#[tactic(auto, using(crate::proofs::Spelling::solid_byte, crate::proofs::Spelling::white_byte, crate::proofs::Spelling::last_white_byte))]
fn append_label_byte(line: &mut Vec<u8>, byte: u8, following: &[u8]) -> Result<(), AllocError>
    ensures { OnOk result (line.new.items ++ single_spaced following.now
        ≡ line.old.items ++ single_spaced (byte ∷ following.now)) }
{
    if !is_white_or_line_end(byte) {
        line.push(byte)?;
        return Ok(());
    }
    if begins_with_white(following) {
        return Ok(());
    }
    line.push(b' ')?;
    Ok(())
}

// Whether white space or a line ending is at the start.
fn begins_with_white(bytes: &[u8]) -> bool
    ensures { result ≡ is_white_or_line_end (slice_index bytes.now 0) }
{
    match bytes.first() {
        Some(byte) => is_white_or_line_end(*byte),
        None => false,
    }
}
