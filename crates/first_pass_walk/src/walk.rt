//! The special bytes, and the walk over them. At a special byte, a token other than plain text may begin, a cell may
//! end (`|`), or a brace context may open or close (`{` and `}`).

ghost use Rattle.first_pass_walk.specs.Walk.{is_special as is_special_byte, MarksSpecial, is_marked, IsNextMarked, NoneMarkedFrom, IsWalk, SparesWords, AreWordStops, IsFirstStop};
ghost use Rattle.std.specs.Int.{bit_at};
ghost use Rattle.std.specs.Prelude.{◌≡◌, ℕ, ◌+◌, ◌^◌, ◌≤◌, ◌<◌, false, length, IfSome, IfNone};

use bitflags::Flags;
use first_pass_items::option_set::Options;
use first_pass_lines::lanes::LANES;
use std::simd::prelude::*;

/// The result of a call during a walk.
#[derive(Drop)]
pub enum LoopInstruction<T> {
    /// The walk skips this many bytes after that of the call, and continues.
    ContinueAndSkip(usize),
    /// The walk ends, and returns the number and the value.
    BreakAtWith(usize, T),
}

/// Returns the table of the special bytes: the entry of a byte is true if the byte is special. CommonMark 6;
/// `specs/Walk.antt` lists the bytes that the extensions add.
pub fn special_bytes(options: &Options) -> [bool; 256]
    ensures value { MarksSpecial result options.now }
{
    let mut table = [false; 256];
    for byte in 0..256 {
        table[byte] = is_special(options, byte as u8);
    }
    table
}

/// Returns the offset of the first byte of `bytes`, from the offset `ix` on, that is marked in the table. Returns
/// `None` if there is none. CommonMark 6.
pub fn next_special(lut: &[bool; 256], bytes: &[u8], ix: usize) -> Option<usize>
    ensures found { IfSome result (λ j. IsNextMarked lut.now bytes.now ix j) }
    ensures none { IfNone result (NoneMarkedFrom lut.now bytes.now ix) }
{
    for at in ix..bytes.len() {
        if lut[bytes[at] as usize] {
            return Some(at);
        }
    }
    None
}

// The mask of 16 bytes each of which is a stop: a run of digits or of punctuation.
const ALL_STOPS: u64 = 0xFFFF;

/// Returns the same as `next_special`, but reads 16 bytes at a time. The table must not mark NUL, a letter, a space or
/// a byte of a character beyond ASCII.
#[inline(always)]
pub fn next_special_in_words(lut: &[bool; 256], bytes: &[u8], ix: usize) -> Option<usize>
    requires { SparesWords lut.now }
    ensures found { IfSome result (λ j. IsNextMarked lut.now bytes.now ix j) }
    ensures none { IfNone result (NoneMarkedFrom lut.now bytes.now ix) }
{
    let mut next = ix;
    if bytes.len() < LANES {
        return next_special(lut, bytes, next);
    }
    let last = bytes.len() - LANES;
    while next <= last {
        let stops = word_stops(bytes, next);
        if stops == 0 {
            next += LANES;
            continue;
        }
        match first_in_load(lut, bytes, next, stops) {
            Some(at) => return Some(at),
            None => next += LANES,
        }
    }
    if bytes.len() <= next {
        return None;
    }
    // Fewer than 16 bytes are left: one load has them and some bytes before them.
    let stops = word_stops(bytes, last) >> (next - last);
    first_at_stops(lut, bytes, next, stops)
}

// The offset of the first byte that is marked in the table, among the 16 from the offset `at` on. The mask `stops` is
// that of these bytes, and not 0. In most texts, the first stop is marked.
#[inline(always)]
fn first_in_load(lut: &[bool; 256], bytes: &[u8], at: usize, stops: u64) -> Option<usize>
    requires spares { SparesWords lut.now }
    requires within { at + 16 ≤ length bytes.now }
    requires stops { AreWordStops bytes.now at 16 stops }
    requires some { 0 < stops }
    ensures found { IfSome result (λ j. IsNextMarked lut.now bytes.now at j) }
    ensures none { IfNone result ((k : ℕ) → at ≤ k → k < at + 16 → is_marked lut.now bytes.now k ≡ false) }
{
    let first = at + stops.trailing_zeros() as usize;
    if lut[bytes[first] as usize] {
        return Some(first);
    }
    if stops == ALL_STOPS {
        return first_in_lanes(lut, bytes, at);
    }
    first_at_stops(lut, bytes, at, stops & (stops - 1))
}

// The offset of the first byte that is marked in the table, among those whose bits are set. The lowest bit is that of
// the byte at `from`.
#[inline(always)]
fn first_at_stops(lut: &[bool; 256], bytes: &[u8], from: usize, stops: u64) -> Option<usize>
    requires room { from + 64 < 2 ^ 64 }
    requires within { (k : ℕ) → bit_at stops k ≡ 1 → from + k < length bytes.now }
    ensures found { IfSome result (λ j. IsFirstStop lut.now bytes.now from stops j) }
    ensures none { IfNone result ((k : ℕ) → bit_at stops k ≡ 1 → is_marked lut.now bytes.now (from + k) ≡ false) }
{
    let mut left = stops;
    while left != 0 {
        let at = from + left.trailing_zeros() as usize;
        if lut[bytes[at] as usize] {
            return Some(at);
        }
        left &= left - 1;
    }
    None
}

// The offset of the first byte that is marked in the table, among the 16 from the offset `at` on.
#[inline(never)]
fn first_in_lanes(lut: &[bool; 256], bytes: &[u8], at: usize) -> Option<usize>
    requires { at + 16 ≤ length bytes.now }
    ensures found { IfSome result (λ j. IsNextMarked lut.now bytes.now at j) }
    ensures none { IfNone result ((k : ℕ) → at ≤ k → k < at + 16 → is_marked lut.now bytes.now k ≡ false) }
{
    for lane in 0..LANES {
        if lut[bytes[at + lane] as usize] {
            return Some(at + lane);
        }
    }
    None
}

// Which of the 16 bytes from the offset `at` on are ASCII, but no NUL, letter or space: a bit for each byte, the lowest
// for the first.
#[inline(always)]
fn word_stops(bytes: &[u8], at: usize) -> u64
    requires { at + 16 ≤ length bytes.now }
    ensures { AreWordStops bytes.now at 16 result }
{
    let lanes = u8x16::from_slice(&bytes[at..]);
    // A letter becomes a small letter. NUL and a space become a space. A byte beyond ASCII stays beyond ASCII.
    let small = lanes | u8x16::splat(0x20);
    let after_space = (small - u8x16::splat(b'!')).simd_lt(u8x16::splat(0x80 - b'!'));
    let no_letter = (small - u8x16::splat(b'a')).simd_ge(u8x16::splat(26));
    let stops = after_space & no_letter;
    stops.to_bitmask()
}

/// Calls the closure at marked bytes of `bytes`, in order, with the offset and the byte. The first call is at the first
/// marked byte from the offset `ix` on. Each later call is at the first marked byte after those that the previous call
/// skips. Returns the number and the value with which a call breaks. Returns the length and `None` if no marked byte is
/// left, or if a call skips past the end. No other call is made. CommonMark 6.
pub fn iterate_special_bytes<F, T>(
    lut: &[bool; 256],
    bytes: &[u8],
    ix: usize,
    mut callback: F,
) -> (usize, Option<T>)
where
    F: FnMut(usize, u8) -> LoopInstruction<Option<T>> + Drop,
    requires { F.IsAlwaysCallable callback }
    ensures { (last : F) × IsWalk (λ f k b i g. F.step f k b i g) lut.now bytes.now ix callback result last }
{
    walk_special_bytes(lut, bytes, ix, &mut callback)
}

/// Makes the same calls as `iterate_special_bytes`, and returns the same, but borrows the closure. Afterwards the
/// closure is in the state after exactly these calls. pulldown-cmark has no such function.
pub fn walk_special_bytes<F, T>(
    lut: &[bool; 256],
    bytes: &[u8],
    ix: usize,
    callback: &mut F,
) -> (usize, Option<T>)
where
    F: FnMut(usize, u8) -> LoopInstruction<Option<T>>,
    requires { F.IsAlwaysCallable callback.old }
    ensures { IsWalk (λ f k b i g. F.step f k b i g) lut.now bytes.now ix callback.old result callback.new }
{
    let mut from = ix;
    while let Some(at) = next_special(lut, bytes, from) {
        match callback(at, bytes[at]) {
            LoopInstruction::ContinueAndSkip(skip) => {
                from = at.saturating_add(skip).saturating_add(1);
            }
            LoopInstruction::BreakAtWith(end, value) => return (end, value),
        }
    }
    (bytes.len(), None)
}

// Whether the byte is special.
#[tactic(auto, unfolding(crate::specs::Walk::is_special))]
fn is_special(options: &Options, byte: u8) -> bool
    ensures { result ≡ is_special_byte options.now byte }
{
    match byte {
        b'\n' | b'\r' | b'*' | b'_' | b'&' | b'\\' | b'[' | b']' | b'<' | b'!' | b'`' => true,
        b'|' => options.contains(Options::ENABLE_TABLES),
        b'~' => {
            options.contains(Options::ENABLE_STRIKETHROUGH)
                || options.contains(Options::ENABLE_SUBSCRIPT)
        }
        b'^' => options.contains(Options::ENABLE_SUPERSCRIPT),
        b'$' | b'{' | b'}' => options.contains(Options::ENABLE_MATH),
        b'.' | b'-' | b'"' | b'\'' => options.contains(Options::ENABLE_SMART_PUNCTUATION),
        _ => false,
    }
}
