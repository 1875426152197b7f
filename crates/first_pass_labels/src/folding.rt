//! The stored folding of a label.

ghost use Rattle.first_pass_labels.specs.Foldings.{folded, folds_to_itself, leading_number, kept_folding};
ghost use Rattle.first_pass_lines.specs.Lanes.{IsRunIn};
ghost use Rattle.std.specs.Char.{to_ascii_lowercase};
ghost use Rattle.std.specs.List.{list_all};
ghost use Rattle.std.specs.Prelude.{◌≡◌, ◌≤◌, ◌<◌, ℕ, List, length, map, slice_index, string_bytes, IfOk, IsAscii};

use caseless::default_case_fold_str;
use first_pass_items::cow_str::InlineStr;
use first_pass_lines::lanes::{LANES, first_set};
use std::alloc::{AllocError, Global};
use std::boxed::BoxedStr;
use std::simd::prelude::*;
use std::str;

// The most bytes of a folding that is stored in the value itself.
const MOST_SHORT: usize = 22;

/// The full default case folding of a text: the text itself, or another one. That is stored on the heap, or in the
/// value itself if it has at most 22 bytes.
#[derive(Drop)]
pub(crate) enum Folding {
    Itself,
    Short(InlineStr),
    Long(BoxedStr),
}

impl Folding {
    /// Returns the folding of a text. Takes memory if the text has characters past ASCII, or if its folding is
    /// another text of more than 22 bytes. Fails only if an allocation fails.
    #[inline(always)]
    #[tactic(auto, using(crate::proofs::FoldingLemmas::own_folded))]
    pub(crate) fn of_text(alloc: Global, text: &str) -> Result<Folding, AllocError>
        ensures { IfOk result (λ folding. kept_folding folding text.now ≡ folded text.now) }
    {
        if is_own_folding(text.as_bytes()) {
            return Ok(Folding::Itself);
        }
        Folding::of_changed(alloc, text)
    }

    // The same for a text that may fold to another one. Few labels do.
    #[inline(never)]
    #[tactic(auto, using(crate::proofs::FoldingLemmas::ascii_folded))]
    fn of_changed(alloc: Global, text: &str) -> Result<Folding, AllocError>
        ensures { IfOk result (λ folding. kept_folding folding text.now ≡ folded text.now) }
    {
        if !text.is_ascii() {
            return Ok(kept(default_case_fold_str(alloc, text)?));
        }
        if text.len() <= MOST_SHORT {
            return Ok(lower_cased(text));
        }
        Ok(kept(text.to_ascii_lowercase(alloc)?))
    }

    /// Returns the folding; `text` is the text that was folded.
    #[inline(always)]
    pub(crate) fn text_of<'f>(&'f self, text: &'f str) -> &'f str
        ensures { result.now ≡ kept_folding self.now text.now }
    {
        match self {
            Folding::Itself => text,
            Folding::Short(folding) => folding.as_str(),
            Folding::Long(folding) => folding.as_str(),
        }
    }
}

// A folded text, stored in the value itself if it is short.
fn kept(folding: String) -> Folding
    ensures { (text : List ℕ) → kept_folding result text ≡ string_bytes folding }
{
    match InlineStr::try_from_str(folding.as_str()) {
        Some(short) => Folding::Short(short),
        None => Folding::Long(folding.into_boxed_str()),
    }
}

// An ASCII text of at most 22 bytes, in lower case.
fn lower_cased(text: &str) -> Folding
    requires short { length text.now ≤ 22 }
    requires ascii { IsAscii text.now }
    ensures { (other : List ℕ) → kept_folding result other ≡ map to_ascii_lowercase text.now }
{
    let spelled = text.as_bytes();
    let mut bytes = [0; MOST_SHORT];
    for at in 0..spelled.len() {
        bytes[at] = spelled[at].to_ascii_lowercase();
    }
    let Ok(lower) = str::from_utf8(&bytes[..spelled.len()]) else {
        return Folding::Itself;
    };
    match InlineStr::try_from_str(lower) {
        Some(short) => Folding::Short(short),
        None => Folding::Itself,
    }
}

// Whether each byte folds to itself.
#[inline(always)]
fn is_own_folding(bytes: &[u8]) -> bool
    ensures { result ≡ list_all folds_to_itself bytes.now }
{
    if bytes.len() <= LANES {
        return own_run(&first_bytes(bytes)) == LANES;
    }
    bytes
        .iter()
        .all(|byte| byte.is_ascii() && !byte.is_ascii_uppercase())
}

// The number of bytes among the first sixteen that come before the first one that does not fold to itself, or 16.
#[inline(always)]
fn own_run(bytes: &[u8]) -> usize
    requires { 16 ≤ length bytes.now }
    ensures { IsRunIn folds_to_itself bytes.now 0 16 result }
{
    let lanes = u8x16::from_slice(bytes);
    let capitals = (lanes - u8x16::splat(b'A')).simd_lt(u8x16::splat(26));
    let others = lanes.simd_ge(u8x16::splat(0x80));
    first_set((capitals | others).to_bitmask())
}

/// Returns the first sixteen bytes as one number, the first byte the most significant, with 0 for each missing byte. Of
/// two texts, the one with the smaller number is first in byte order.
#[inline(always)]
pub(crate) fn leading_number(bytes: &[u8]) -> u128
    ensures value { result ≡ leading_number 16 bytes.now }
    ensures fit { (at : ℕ) → slice_index bytes.now at < 256 }
{
    u128::from_be_bytes(first_bytes(bytes))
}

// The first sixteen bytes, with 0 for each missing byte.
#[inline(always)]
fn first_bytes(bytes: &[u8]) -> [u8; 16]
    ensures { (at : ℕ) → at < 16 → slice_index result at ≡ slice_index bytes.now at }
{
    let mut first = [0; 16];
    let count = bytes.len().min(16);
    first[..count].copy_from_slice(&bytes[..count]);
    first
}
