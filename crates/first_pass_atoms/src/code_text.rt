//! The text of code spans. CommonMark 6.1.

ghost use Rattle.first_pass_atoms.specs.CodeText.{code_text, is_padded, is_space, spaced, spaced_byte};
ghost use Rattle.first_pass_items.specs.Bytes.{space};
ghost use Rattle.first_pass_lines.specs.Lines.{begins, ends};
ghost use Rattle.std.specs.Cow.{cow_slice_items};
ghost use Rattle.std.specs.List.{list_all};
ghost use Rattle.std.specs.Prelude.{◌≡◌, ◌≤◌, true, length, IfOk};

use memchr::memchr;
use std::alloc::{AllocError, Global};
use std::borrow::CowSlice;

/// Returns the text of a code span with these bytes between its backquotes. Each newline is a space. If both ends are
/// spaces and not all bytes are, one space less is at each end. The text is borrowed if it has no newline among what is
/// kept. Fails only if an allocation fails. CommonMark 6.1.
pub fn code_text<'c>(alloc: Global, inside: &'c [u8]) -> Result<CowSlice<'c, u8>, AllocError>
    ensures { IfOk result (λ made. cow_slice_items made ≡ code_text inside.now) }
{
    let kept = without_padding(inside);
    if memchr(b'\n', kept).is_none() {
        return Ok(CowSlice::Borrowed(kept));
    }
    Ok(CowSlice::Owned(spaced(alloc, kept)?))
}

// The bytes without one at each end, if those are spaces or newlines and not all bytes are.
#[tactic(auto, unfolding(crate::specs::CodeText::code_text))]
fn without_padding(inside: &[u8]) -> &[u8]
    ensures { spaced result.now ≡ code_text inside.now }
{
    if is_padded(inside) {
        &inside[1..inside.len() - 1]
    } else {
        inside
    }
}

// Whether spaces or newlines are at both ends and not everywhere.
fn is_padded(inside: &[u8]) -> bool
    ensures value { result ≡ is_padded (spaced inside.now) }
    ensures two { result ≡ true → 2 ≤ length inside.now }
{
    if !begins_space(inside) {
        return false;
    }
    ends_space(inside) && !are_spaces(inside)
}

// Whether the first byte is a space or a newline.
fn begins_space(bytes: &[u8]) -> bool
    ensures { result ≡ begins space (spaced bytes.now) }
{
    match bytes {
        [] => false,
        [first, ..] => is_space(*first),
    }
}

// Whether the last byte is a space or a newline.
fn ends_space(bytes: &[u8]) -> bool
    ensures { result ≡ ends space (spaced bytes.now) }
{
    match bytes {
        [] => false,
        [.., last] => is_space(*last),
    }
}

// Whether all bytes are spaces and newlines.
fn are_spaces(bytes: &[u8]) -> bool
    ensures { result ≡ list_all is_space (spaced bytes.now) }
{
    bytes.iter().all(|b| is_space(*b))
}

// Whether a byte is a space or a newline.
fn is_space(byte: u8) -> bool
    ensures { result ≡ is_space (spaced_byte byte) }
{
    byte == b' ' || byte == b'\n'
}

// The bytes with each newline as a space.
fn spaced(alloc: Global, bytes: &[u8]) -> Result<Vec<u8>, AllocError>
    ensures { IfOk result (λ made. made.items ≡ spaced bytes.now) }
{
    let mut made = Vec::with_capacity(alloc, bytes.len())?;
    for byte in bytes {
        made.push(if *byte == b'\n' { b' ' } else { *byte })?;
    }
    Ok(made)
}
