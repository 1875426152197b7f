//! Runs of bytes of one kind, found 16 bytes at a time.

ghost use Rattle.first_pass_lines.specs.Lanes.{first_set as lowest, is_space, IsRunIn};
ghost use Rattle.first_pass_lines.specs.Lines.{is_content, is_white};
ghost use Rattle.std.specs.Prelude.{◌≡◌, ◌+◌, ◌≤◌, length};

use std::simd::prelude::*;

/// The number of bytes read at once.
pub const LANES: usize = 16;

/// Returns the number of spaces at the start of the first 16 bytes: the position of the first other byte, or 16.
#[inline(always)]
pub fn space_run(bytes: &[u8]) -> usize
    requires { 16 ≤ length bytes.now }
    ensures { IsRunIn is_space bytes.now 0 16 result }
{
    let lanes = u8x16::from_slice(bytes);
    first_set(lanes.simd_ne(u8x16::splat(b' ')).to_bitmask())
}

/// Returns the number of bytes before the first `\n` or `\r` among the 16 bytes from the offset `at` on, or 16.
#[inline(always)]
pub fn content_run(bytes: &[u8], at: usize) -> usize
    requires { at + 16 ≤ length bytes.now }
    ensures { IsRunIn is_content bytes.now at 16 result }
{
    let lanes = u8x16::from_slice(&bytes[at..]);
    let ends = lanes.simd_eq(u8x16::splat(b'\n')) | lanes.simd_eq(u8x16::splat(b'\r'));
    first_set(ends.to_bitmask())
}

/// Returns the number of bytes of white space before the first other byte among the 16 from the offset `at` on, or 16.
#[inline(always)]
pub fn white_run(bytes: &[u8], at: usize) -> usize
    requires { at + 16 ≤ length bytes.now }
    ensures { IsRunIn is_white bytes.now at 16 result }
{
    let lanes = u8x16::from_slice(&bytes[at..]);
    let others = lanes.simd_ne(u8x16::splat(b'\t'))
        & lanes.simd_ne(u8x16::splat(0x0b))
        & lanes.simd_ne(u8x16::splat(0x0c))
        & lanes.simd_ne(u8x16::splat(b' '));
    first_set(others.to_bitmask())
}

/// Returns the position of the lowest set bit, or 16 if no bit is set.
#[inline(always)]
pub fn first_set(mask: u64) -> usize
    ensures { result ≡ lowest mask 16 }
{
    if mask == 0 {
        LANES
    } else {
        mask.trailing_zeros() as usize
    }
}
