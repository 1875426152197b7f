//! Runs of bytes without a special meaning in a label, in a destination or in a text, tested 16 at a time.

ghost use Rattle.first_pass_lines.specs.Lanes.{IsRunIn};
ghost use Rattle.first_pass_links.specs.Plain.{is_ordinary, is_unmarked, IsPlainLabel};
ghost use Rattle.std.specs.Prelude.{◌≡◌, ◌+◌, ◌<◌, ◌≤◌, ℕ, length, slice_index, true, IfSome};

use first_pass_lines::lanes::{LANES, first_set};
use first_pass_lines::lines::begins;
use first_pass_lines::places::rest_of;
use std::simd::prelude::*;

/// Returns the number of plain bytes at the start of `bytes`, at most 16; 0 if `bytes` has fewer than 16. A plain byte
/// is an ASCII character from `*` to `~`, except square brackets and the backslash. In a label, or in a destination
/// outside `<..>`, it ends, nests and escapes nothing, and is no white space (CommonMark 6.3).
#[inline(always)]
pub(crate) fn plain_run(bytes: &[u8]) -> usize
    ensures few { result ≤ 16 }
    ensures within { result ≤ length bytes.now }
    ensures plain { (k : ℕ) → k < result → is_ordinary (slice_index bytes.now k) ≡ true }
{
    // The second test costs less than the lanes, and often decides.
    if bytes.len() < LANES || bytes[0] < b'*' {
        return 0;
    }
    plain_lanes(bytes)
}

/// Returns the length, without its `]`, of the label at the start of `bytes`, which are those after a `[`. The label
/// has at most 16 bytes, all of them plain. Returns `None` for other labels, and if `bytes` has fewer than 16
/// (CommonMark 6.3).
#[inline(always)]
pub(crate) fn scan_plain_label(bytes: &[u8]) -> Option<usize>
    ensures { IfSome result (IsPlainLabel bytes.now) }
{
    let len = plain_run(bytes);
    if len > 0 && begins(b']', rest_of(bytes, len)) {
        return Some(len);
    }
    None
}

// The same as `plain_run`, for at least 16 bytes.
#[inline(always)]
fn plain_lanes(bytes: &[u8]) -> usize
    requires { 16 ≤ length bytes.now }
    ensures { IsRunIn is_ordinary bytes.now 0 16 result }
{
    let lanes = u8x16::from_slice(bytes);
    let past_capitals = (lanes - u8x16::splat(b'*')).simd_ge(u8x16::splat(b'[' - b'*'));
    let past_letters = (lanes - u8x16::splat(b'^')).simd_ge(u8x16::splat(0x7f - b'^'));
    first_set((past_capitals & past_letters).to_bitmask())
}

/// Returns the number of bytes from `at` on that come before the first backslash or `&`, at most 16.
#[inline(always)]
pub(crate) fn unmarked_run(bytes: &[u8], at: usize) -> usize
    requires { at + 16 ≤ length bytes.now }
    ensures { IsRunIn is_unmarked bytes.now at 16 result }
{
    let lanes = u8x16::from_slice(&bytes[at..]);
    let marks = lanes.simd_eq(u8x16::splat(b'\\')) | lanes.simd_eq(u8x16::splat(b'&'));
    first_set(marks.to_bitmask())
}
