//! Whether a line has a pipe, without which it is no header row of a table (GFM 4.10).

ghost use Rattle.first_pass_lines.specs.Lanes.{IsRunIn};
ghost use Rattle.first_pass_lines.specs.Lines.{is_content};
ghost use Rattle.first_pass_scan.specs.Pipes.{is_unpiped};
ghost use Rattle.first_pass_scan.specs.TableHead.{is_pipe};
ghost use Rattle.std.specs.List.{take_while, list_any};
ghost use Rattle.std.specs.Prelude.{◌≡◌, ◌+◌, ◌<◌, ◌≤◌, length, unwrap_or, IfSome};

use first_pass_lines::lanes::LANES;
use memchr::memchr3;
use std::simd::prelude::*;

// The most bytes that are searched 16 at a time. Most lines are shorter, and `memchr3` has a higher cost to start.
const NEAR: usize = 128;

/// Returns whether the first line of `bytes` has a pipe, even after a backslash. A line without one is no header row.
/// GFM 4.10.
#[inline(always)]
pub fn has_pipe_in_line(bytes: &[u8]) -> bool
    ensures { result ≡ list_any is_pipe (take_while is_content bytes.now) }
{
    let near = bytes.len().min(NEAR);
    let mut from = 0;
    while near - from >= LANES {
        if let Some(unpiped) = scan_unpiped(bytes, from) {
            return bytes[from + unpiped] == b'|';
        }
        from += LANES;
    }
    far_has_pipe(&bytes[from..])
}

// The number of bytes before the first pipe or line ending among the 16 bytes from the offset `at` on, if there is one.
#[inline(always)]
fn scan_unpiped(bytes: &[u8], at: usize) -> Option<usize>
    requires { at + 16 ≤ length bytes.now }
    ensures within { IfSome result (λ n. n < 16) }
    ensures run { IsRunIn is_unpiped bytes.now at 16 (unwrap_or result 16) }
{
    let lanes = u8x16::from_slice(&bytes[at..]);
    let line_ends = lanes.simd_eq(u8x16::splat(b'\n')) | lanes.simd_eq(u8x16::splat(b'\r'));
    let mask = (line_ends | lanes.simd_eq(u8x16::splat(b'|'))).to_bitmask();
    if mask == 0 {
        None
    } else {
        Some(mask.trailing_zeros() as usize)
    }
}

// The same as `has_pipe_in_line`, for the bytes that are not searched 16 at a time.
#[inline(never)]
fn far_has_pipe(bytes: &[u8]) -> bool
    ensures { result ≡ list_any is_pipe (take_while is_content bytes.now) }
{
    match memchr3(b'\n', b'\r', b'|', bytes) {
        None => false,
        Some(at) => bytes[at] == b'|',
    }
}
