//! The words in an attribute block (this project).

ghost use Rattle.first_pass_attributes.specs.Attributes.{is_between_words, is_solid, is_attribute_word, words, key_and_value as key_and_value_of, with_words, pair_in, attributes_in, HasSeveral};
ghost use Rattle.first_pass_items.specs.Bytes.{equals_sign};
ghost use Rattle.first_pass_lines.specs.Lanes.{IsRunIn};
ghost use Rattle.std.specs.List.{position, prefix_len};
ghost use Rattle.std.specs.Prelude.{◌≡◌, ◌==◌, ◌≤◌, ◌<◌, ◌∷◌, [], Some, None, not, filter, length, take, drop, slice_index, IfSome, OnOk, OnErr};

use crate::heading_attributes::HeadingAttributes;
use first_pass_lines::lanes::{LANES, first_set};
use std::alloc::{AllocError, Global};
use std::simd::prelude::*;

/// Returns the number of bytes before the first byte between words, or the length of `bytes` if there is none. Tabs,
/// 0x0C, spaces and line endings are between words (this project).
#[inline(never)]
pub fn scan_word(bytes: &[u8]) -> usize
    ensures value { result ≡ prefix_len (λ b. not (is_between_words b)) bytes.now }
    ensures within { result ≤ length bytes.now }
{
    bytes.iter().take_while(|b| !is_between_words(**b)).count()
}

/// Returns the same as `scan_word` for the first `limit` bytes of `bytes`. Reads 16 bytes at once, also bytes after
/// the limit.
#[inline(always)]
pub fn scan_word_within(bytes: &[u8], limit: usize) -> usize
    requires { limit ≤ length bytes.now }
    ensures value { result ≡ prefix_len (λ b. not (is_between_words b)) (take limit bytes.now) }
    ensures within { result ≤ limit }
{
    if LANES <= bytes.len() {
        let run = solid_run(bytes);
        if limit <= run {
            return limit;
        }
        if is_between_words(bytes[run]) {
            return run;
        }
    }
    scan_word(&bytes[..limit])
}

// The number of bytes above the space at the start of the first 16 bytes.
#[inline(always)]
fn solid_run(bytes: &[u8]) -> usize
    requires { 16 ≤ length bytes.now }
    ensures { IsRunIn is_solid bytes.now 0 16 result }
{
    let lanes = u8x16::from_slice(bytes);
    first_set(lanes.simd_le(u8x16::splat(b' ')).to_bitmask())
}

// Whether a byte separates words. Most bytes are above a space.
fn is_between_words(byte: u8) -> bool
    ensures { result ≡ is_between_words byte }
{
    if byte > b' ' {
        return false;
    }
    matches!(byte, b'\t' | b'\x0c' | b' ' | b'\n' | b'\r')
}

/// Returns the length of the key of a word: the number of bytes before the first `=`. Returns `None` if there is no `=`
/// (this project).
#[inline(always)]
pub fn scan_key(word: &[u8]) -> Option<usize>
    ensures value { result ≡ position (λ b. b == equals_sign) word.now }
    ensures within { IfSome result (λ at. at < length word.now) }
    ensures sign { IfSome result (λ at. slice_index word.now at ≡ equals_sign) }
{
    word.iter().position(|b| *b == b'=')
}

/// Adds the attributes of the words in `inside_attr_block`, the text between the braces of an attribute block, to
/// `attributes`. `ahead` begins with the bytes of this text. The more bytes follow these, the more words are found by
/// reading 16 bytes at once. Fails only if an allocation fails; with at most one class and at most one key in all, it
/// allocates nothing and does not fail (this project).
#[inline(always)]
pub fn add_attribute_words<'a>(
    alloc: Global,
    attributes: &mut HeadingAttributes<'a>,
    inside_attr_block: &'a str,
    ahead: &[u8],
) -> Result<(), AllocError>
    requires { inside_attr_block.now ≡ take (length inside_attr_block.now) ahead.now }
    ensures value { OnOk result (attributes_in attributes.new
        ≡ with_words (attributes_in attributes.old) (filter is_attribute_word (words inside_attr_block.now))) }
    ensures err { OnErr result (HasSeveral
        (with_words (attributes_in attributes.old) (filter is_attribute_word (words inside_attr_block.now)))) }
{
    let mut rest = inside_attr_block;
    let mut ahead = ahead;
    loop {
        let end = scan_word_within(ahead, rest.len());
        add_word(alloc, attributes, &rest[..end])?;
        if end == rest.len() {
            return Ok(());
        }
        rest = &rest[end + 1..];
        ahead = &ahead[end + 1..];
    }
}

// Adds the attribute of a word, if it has one.
#[inline(always)]
fn add_word<'a>(
    alloc: Global,
    attributes: &mut HeadingAttributes<'a>,
    word: &'a str,
) -> Result<(), AllocError>
    ensures value { OnOk result (attributes_in attributes.new
        ≡ with_words (attributes_in attributes.old) (filter is_attribute_word (word.now ∷ []))) }
    ensures err { OnErr result (HasSeveral
        (with_words (attributes_in attributes.old) (filter is_attribute_word (word.now ∷ [])))) }
{
    if !is_attribute_word(word) {
        return Ok(());
    }
    let mark = word.as_bytes()[0];
    if mark == b'#' {
        attributes.id = Some(without_mark(word));
        return Ok(());
    }
    if mark == b'.' {
        attributes.classes.push(alloc, without_mark(word))?;
        return Ok(());
    }
    attributes.attrs.push(alloc, key_and_value(word))?;
    Ok(())
}

// Whether a word has an attribute.
#[inline(always)]
fn is_attribute_word(word: &str) -> bool
    ensures { result ≡ is_attribute_word word.now }
{
    2 <= word.len()
}

// A word without its first byte, which is ASCII.
#[inline(always)]
fn without_mark(word: &str) -> &str
    requires some { 0 < length word.now }
    requires ascii { slice_index word.now 0 < 128 }
    ensures { result.now ≡ drop 1 word.now }
{
    &word[1..]
}

// The key of a word, and its value.
#[inline(always)]
#[tactic(auto, unfolding(crate::specs::Attributes::key_and_value))]
fn key_and_value(word: &str) -> (&str, Option<&str>)
    ensures { pair_in result ≡ key_and_value_of word.now }
{
    match scan_key(word.as_bytes()) {
        None => (word, None),
        Some(at) => (&word[..at], Some(&word[at + 1..])),
    }
}
