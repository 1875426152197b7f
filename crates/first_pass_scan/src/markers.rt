//! The bytes of list markers, task list item markers, and the tags of block quotes.

ghost use Rattle.first_pass_items.specs.Bytes.{digit_zero, digit_nine};
ghost use Rattle.first_pass_scan.specs.Markers.{number_from, bullet_marker, ordered_marker, list_marker, task_box, tag_of as tag_bytes, has_tag as tag_stands, tag_kind, tag_line};
ghost use Rattle.std.specs.Char.{is_ascii_digit};
ghost use Rattle.std.specs.List.{prefix_len};
ghost use Rattle.std.specs.Prelude.{◌≡◌, ◌≤◌, min, length, slice_index, EachIndex, IfSome, true};

use first_pass_items::item::BlockQuoteKind;
use first_pass_lines::lines::{is_white, is_white_or_line_end, scan_blank_line};
use first_pass_lines::places::rest_of;

// The most digits that are counted: one more than a list marker may have.
const MOST_DIGITS: usize = 10;

// The number of digits at the start.
#[inline(always)]
fn digit_run(bytes: &[u8]) -> usize
    ensures value { result ≡ prefix_len is_ascii_digit bytes.now }
    ensures within { result ≤ length bytes.now }
{
    bytes.iter().take_while(|b| b.is_ascii_digit()).count()
}

// The number of digits at the start, or 10 if there are more.
fn scan_digits(bytes: &[u8]) -> usize
    ensures value { result ≡ min 10 (prefix_len is_ascii_digit bytes.now) }
    ensures within { result ≤ length bytes.now }
{
    digit_run(&bytes[..bytes.len().min(MOST_DIGITS)])
}

// The number that these digits write. There are at most nine digits.
fn number(digits: &[u8]) -> u64
    requires bound { length digits.now ≤ 9 }
    requires digits { EachIndex digits.now (λ k. (digit_zero ≤ slice_index digits.now k)
        × (slice_index digits.now k ≤ digit_nine)) }
    ensures { result ≡ number_from 0 digits.now }
{
    let mut value = 0;
    for b in digits {
        value = 10 * value + u64::from(*b - b'0');
    }
    value
}

// The bullet at the start, if there is one, as a list marker: its width, its byte and 0.
fn scan_bullet(bytes: &[u8]) -> Option<(usize, u8, u64)>
    ensures { result ≡ bullet_marker bytes.now }
{
    match bytes {
        [byte @ (b'-' | b'+' | b'*'), ..] => Some((1, *byte, 0)),
        _ => None,
    }
}

// The ordered list marker at the start, if there is one: its width, its last byte and its number.
fn scan_ordered(bytes: &[u8]) -> Option<(usize, u8, u64)>
    ensures value { result ≡ ordered_marker bytes.now }
    ensures within { IfSome result (λ m. m.0 ≤ length bytes.now) }
    ensures small { IfSome result (λ m. m.0 ≤ 10) }
{
    let digits = scan_digits(bytes);
    if digits < 1 || 9 < digits {
        return None;
    }
    match &bytes[digits..] {
        [mark @ (b'.' | b')'), ..] => Some((digits + 1, *mark, number(&bytes[..digits]))),
        _ => None,
    }
}

// The list marker at the start, if there is one: its width, its byte and its number.
#[tactic(auto, unfolding(crate::specs::Markers::list_marker))]
pub(crate) fn scan_list_marker(bytes: &[u8]) -> Option<(usize, u8, u64)>
    ensures value { result ≡ list_marker bytes.now }
    ensures within { IfSome result (λ m. m.0 ≤ length bytes.now) }
    ensures small { IfSome result (λ m. m.0 ≤ 10) }
{
    match scan_bullet(bytes) {
        None => scan_ordered(bytes),
        bullet => bullet,
    }
}

// Whether the task list item marker at the start, if there is one, is checked. White space or a line ending follows its
// `]`.
#[tactic(auto, unfolding(crate::specs::Markers::task_box))]
pub(crate) fn scan_task_box(bytes: &[u8]) -> Option<bool>
    ensures value { result ≡ task_box bytes.now }
    ensures long { IfSome result (λ _. 3 ≤ length bytes.now) }
{
    match bytes {
        [b'[', b'x' | b'X', b']', end, ..] if is_white_or_line_end(*end) => Some(true),
        [b'[', mark, b']', end, ..] if is_white(*mark) && is_white_or_line_end(*end) => Some(false),
        _ => None,
    }
}

// The bytes of the tag of a kind.
fn tag_of(kind: BlockQuoteKind) -> &'static [u8]
    ensures { result.now ≡ tag_bytes kind }
{
    match kind {
        BlockQuoteKind::Note => b"[!NOTE]",
        BlockQuoteKind::Tip => b"[!TIP]",
        BlockQuoteKind::Important => b"[!IMPORTANT]",
        BlockQuoteKind::Warning => b"[!WARNING]",
        BlockQuoteKind::Caution => b"[!CAUTION]",
    }
}

// Whether the bytes begin with the tag of the kind, in letters of either case.
#[tactic(auto, unfolding(crate::specs::Markers::has_tag))]
fn has_tag(bytes: &[u8], kind: BlockQuoteKind) -> bool
    ensures value { result ≡ tag_stands kind bytes.now }
    ensures long { result ≡ true → length (tag_bytes kind) ≤ length bytes.now }
{
    let tag = tag_of(kind);
    tag.len() <= bytes.len() && bytes[..tag.len()].eq_ignore_ascii_case(tag)
}

// The kind whose tag the bytes begin with, if there is one.
#[tactic(auto, unfolding(crate::specs::Markers::tag_kind))]
fn scan_kind(bytes: &[u8]) -> Option<BlockQuoteKind>
    ensures value { result ≡ tag_kind bytes.now }
    ensures long { IfSome result (λ kind. length (tag_bytes kind) ≤ length bytes.now) }
{
    if has_tag(bytes, BlockQuoteKind::Note) {
        Some(BlockQuoteKind::Note)
    } else if has_tag(bytes, BlockQuoteKind::Tip) {
        Some(BlockQuoteKind::Tip)
    } else if has_tag(bytes, BlockQuoteKind::Important) {
        Some(BlockQuoteKind::Important)
    } else if has_tag(bytes, BlockQuoteKind::Warning) {
        Some(BlockQuoteKind::Warning)
    } else if has_tag(bytes, BlockQuoteKind::Caution) {
        Some(BlockQuoteKind::Caution)
    } else {
        None
    }
}

// The kind whose tag the bytes begin with, and the length of that line with its line ending, if the rest of the line is
// blank.
#[tactic(auto, unfolding(crate::specs::Markers::tag_line))]
pub(crate) fn scan_tag_line(bytes: &[u8]) -> Option<(BlockQuoteKind, usize)>
    ensures value { result ≡ tag_line bytes.now }
    ensures within { IfSome result (λ tag. tag.1 ≤ length bytes.now) }
{
    let kind = scan_kind(bytes)?;
    let tag = tag_of(kind).len();
    let blank = scan_blank_line(rest_of(bytes, tag))?;
    Some((kind, tag + blank))
}
