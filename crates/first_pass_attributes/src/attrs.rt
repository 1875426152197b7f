//! The attribute block at the end of a heading (this project).

ghost use Rattle.first_pass_attributes.specs.AttributeBlocks.{is_after_block, is_inside_block, opening_brace as opening_of, length_before_block, inside_block};
ghost use Rattle.first_pass_attributes.specs.Attributes.{attributes_of, attributes_in, HasSeveral};
ghost use Rattle.first_pass_items.specs.Bytes.{left_brace, right_brace};
ghost use Rattle.std.specs.Int.{bit_at};
ghost use Rattle.std.specs.List.{suffix_len};
ghost use Rattle.std.specs.Option.{option_map};
ghost use Rattle.std.specs.Prelude.{◌≡◌, ◌==◌, ◌^◌, ℕ, ◌≤◌, ◌<◌, ◌+◌, ◌-◌, length, true, take, slice_index, IfSome, IfOk, OnErr, IsSomeAnd, Some, None, IsUtf8, IsCharBoundary};

pub use crate::heading_attributes::HeadingAttributes;
pub use crate::short_list::ShortList;
use crate::words::add_attribute_words;
use first_pass_lines::lanes::LANES;
use first_pass_lines::lines::{ends, is_line_end, is_space_or_tab};
use std::alloc::{AllocError, Global};
use std::ops::Range;
use std::simd::prelude::*;

/// Returns the length of the content of `heading`, and the range inside its attribute block. The content is all bytes
/// before the block, with the white space directly before it. The range has the offsets in `heading` of the bytes
/// between the braces; it is empty for `{}`. Only spaces, tabs and line endings may follow the block. No `{`, `}`,
/// `<`, `>`, `\` or line ending is between its braces. Returns the whole length and `None` if there is no such block
/// (this project).
#[tactic(auto, unfolding(crate::specs::AttributeBlocks::attribute_block))]
pub fn extract_attribute_block_content_from_header_text(
    heading: &[u8],
) -> (usize, Option<Range<usize>>)
    ensures before { result.0 ≡ length_before_block heading.now }
    ensures inside { option_map (λ r. (r.start, r.«end»)) result.1 ≡ inside_block heading.now }
    ensures within { result.0 ≤ length heading.now }
    ensures places { IfSome result.1 (λ r.
        (r.start ≡ result.0 + 1) × (r.start ≤ r.«end») × (r.«end» < length heading.now)) }
    ensures opens { IfSome result.1 (λ r. slice_index heading.now result.0 ≡ left_brace) }
    ensures closes { IfSome result.1 (λ r. slice_index heading.now r.«end» ≡ right_brace) }
    ensures between { IsUtf8 heading.now
        → IfSome result.1 (λ r. IsCharBoundary heading.now r.start × IsCharBoundary heading.now r.«end») }
{
    let kept = without_last(heading, scan_after_block(heading));
    if !ends(b'}', kept) {
        return (heading.len(), None);
    }
    let closing = kept.len() - 1;
    match opening_brace(without_last(kept, 1)) {
        None => (heading.len(), None),
        Some(opening) => (opening, Some(opening + 1..closing)),
    }
}

// The number of trailing bytes that may follow an attribute block.
fn scan_after_block(bytes: &[u8]) -> usize
    ensures value { result ≡ suffix_len is_after_block bytes.now }
    ensures within { result ≤ length bytes.now }
{
    let backwards = bytes.iter().rev();
    backwards
        .take_while(|b| is_space_or_tab(**b) || is_line_end(**b))
        .count()
}

// The number of trailing bytes that may be between the braces of an attribute block.
fn scan_inside_block(bytes: &[u8]) -> usize
    ensures value { result ≡ suffix_len is_inside_block bytes.now }
    ensures within { result ≤ length bytes.now }
{
    let mut at = bytes.len();
    while LANES <= at {
        let breaks = block_breaks(bytes, at - LANES);
        if breaks != 0 {
            let last = at - LANES + breaks.ilog2() as usize;
            return bytes.len() - (last + 1);
        }
        at -= LANES;
    }
    bytes.len() - at + scan_near_inside_block(without_last(bytes, bytes.len() - at))
}

// The bytes among the 16 from an offset on that can't be between the braces of an attribute block. Each byte has a bit;
// that of the first is the lowest.
#[inline(always)]
fn block_breaks(bytes: &[u8], at: usize) -> u64
    requires { at + 16 ≤ length bytes.now }
    ensures within { result < 2 ^ 16 }
    ensures breaks { (k : ℕ) → k < 16 → is_inside_block (slice_index bytes.now (at + k)) ≡ (bit_at result k == 0) }
{
    let lanes = u8x16::from_slice(&bytes[at..]);
    let braces = lanes.simd_eq(u8x16::splat(b'{')) | lanes.simd_eq(u8x16::splat(b'}'));
    let angles = lanes.simd_eq(u8x16::splat(b'<')) | lanes.simd_eq(u8x16::splat(b'>'));
    let ends = lanes.simd_eq(u8x16::splat(b'\n')) | lanes.simd_eq(u8x16::splat(b'\r'));
    let breaks = braces | angles | ends | lanes.simd_eq(u8x16::splat(b'\\'));
    breaks.to_bitmask()
}

// The same as `scan_inside_block`, a byte at a time.
fn scan_near_inside_block(bytes: &[u8]) -> usize
    ensures value { result ≡ suffix_len is_inside_block bytes.now }
    ensures within { result ≤ length bytes.now }
{
    let mut at = bytes.len();
    while at > 0 && is_inside_block(bytes[at - 1]) {
        at -= 1;
    }
    bytes.len() - at
}

// Whether a byte may be between the braces of an attribute block.
fn is_inside_block(byte: u8) -> bool
    ensures { result ≡ is_inside_block byte }
{
    if byte.is_ascii_lowercase() {
        return true;
    }
    !matches!(byte, b'{' | b'}' | b'<' | b'>' | b'\\' | b'\n' | b'\r')
}

// The bytes without this many at the end.
fn without_last(bytes: &[u8], count: usize) -> &[u8]
    requires { count ≤ length bytes.now }
    ensures { result.now ≡ take (length bytes.now - count) bytes.now }
{
    &bytes[..bytes.len() - count]
}

// The offset of the opening brace of a block whose closing brace follows these bytes.
#[tactic(auto, unfolding(crate::specs::AttributeBlocks::opening_brace))]
fn opening_brace(bytes: &[u8]) -> Option<usize>
    ensures value { result ≡ opening_of bytes.now }
    ensures within { IfSome result (λ opening. opening < length bytes.now) }
    ensures opens { IfSome result (λ opening. slice_index bytes.now opening ≡ left_brace) }
{
    let front = without_last(bytes, scan_inside_block(bytes));
    if ends(b'{', front) {
        Some(front.len() - 1)
    } else {
        None
    }
}

/// Returns the attributes in the text between the braces of an attribute block, never `None`. Tabs, 0x0C, spaces and
/// line endings separate its words, and words of one byte are ignored. `#install` is an id, and the last id counts.
/// `.wide` is a class. Any other word is a key; its value, if any, is the part after its first `=`. The key and the
/// value may be empty. Fails only if an allocation fails. With at most one class and at most one key, it allocates
/// nothing and does not fail (this project).
#[inline(always)]
pub fn parse_inside_attribute_block<'a>(
    alloc: Global,
    inside_attr_block: &'a str,
) -> Result<Option<HeadingAttributes<'a>>, AllocError>
    ensures value { IfOk result (λ answer.
        IsSomeAnd answer (λ h. attributes_in h ≡ attributes_of inside_attr_block.now)) }
    ensures err { OnErr result (HasSeveral (attributes_of inside_attr_block.now)) }
{
    let ahead = inside_attr_block.as_bytes();
    let mut attributes = HeadingAttributes::new();
    add_attribute_words(alloc, &mut attributes, inside_attr_block, ahead)?;
    Ok(Some(attributes))
}
