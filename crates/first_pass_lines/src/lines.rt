//! Classes of bytes, line endings, blank lines and ATX headings.

ghost use Rattle.first_pass_lines.specs.Lines.{is_line_end, is_white, is_space_or_tab, is_white_or_line_end, begins, ends, is_content, is_number_sign, eol_len, blank_len, line_len, level_number as number_of, level_of, atx_level};
ghost use Rattle.first_pass_lines.specs.Plain.{begins_plain, begins_inert};
ghost use Rattle.std.specs.List.{prefix_len, suffix_len};
ghost use Rattle.std.specs.Prelude.{◌≡◌, ◌<◌, ◌≤◌, length, true, IfSome};

use crate::lanes::{LANES, content_run, white_run};
use first_pass_items::item::HeadingLevel;
use memchr::memchr2;

/// Returns whether the byte is `\n` or `\r`. CommonMark 2.1.
pub fn is_line_end(byte: u8) -> bool
    ensures { result ≡ is_line_end byte }
{
    byte == b'\n' || byte == b'\r'
}

/// Returns whether the byte is white space: tab, 0x0B, 0x0C or space. Line endings are not.
pub fn is_white(byte: u8) -> bool
    ensures { result ≡ is_white byte }
{
    matches!(byte, b'\t' | 0x0b | 0x0c | b' ')
}

/// Returns whether the byte is a space or a tab. CommonMark 2.1.
pub fn is_space_or_tab(byte: u8) -> bool
    ensures { result ≡ is_space_or_tab byte }
{
    byte == b'\t' || byte == b' '
}

/// Returns whether the byte is white space or in a line ending: tab, 0x0B, 0x0C, space, `\n` or `\r`.
pub fn is_white_or_line_end(byte: u8) -> bool
    ensures { result ≡ is_white_or_line_end byte }
{
    is_white(byte) || is_line_end(byte)
}

/// Returns whether `bytes` begins with `byte`.
pub fn begins(byte: u8, bytes: &[u8]) -> bool
    ensures value { result ≡ begins byte bytes.now }
    ensures some { result ≡ true → 0 < length bytes.now }
{
    match bytes {
        [] => false,
        [first, ..] => *first == byte,
    }
}

/// Returns whether `bytes` ends with `byte`.
pub fn ends(byte: u8, bytes: &[u8]) -> bool
    ensures value { result ≡ ends byte bytes.now }
    ensures some { result ≡ true → 0 < length bytes.now }
{
    match bytes {
        [] => false,
        [.., last] => *last == byte,
    }
}

/// Returns whether `bytes` begins with an ASCII letter or a non-ASCII byte. A block that begins with such a byte is a
/// paragraph, unless later lines turn it into a table, a setext heading or the title of a definition list.
#[inline(always)]
#[tactic(auto, unfolding(crate::specs::Plain::is_plain))]
pub fn is_plain_front(bytes: &[u8]) -> bool
    ensures { result ≡ begins_plain bytes.now }
{
    match bytes {
        [] => false,
        [byte, ..] => byte.is_ascii_alphabetic() || *byte >= 128,
    }
}

/// Returns whether `bytes` begins with a byte that is neither a space nor a tab, and with which no list item or block
/// quote begins.
#[inline(always)]
#[tactic(auto, unfolding(crate::specs::Plain::is_inert))]
pub fn is_inert_front(bytes: &[u8]) -> bool
    ensures { result ≡ begins_inert bytes.now }
{
    match bytes {
        [] => false,
        [byte, ..] => !matches!(
            *byte,
            b'\t' | b' ' | b'*' | b'+' | b'-' | b'>' | b'0'..=b'9'
        ),
    }
}

/// Returns the length in bytes of the line ending at the start of `bytes`: `\n`, `\r\n` or `\r`. Returns 0 if `bytes`
/// is empty. Otherwise returns `None` if no line ending is there. CommonMark 2.1.
pub fn scan_eol(bytes: &[u8]) -> Option<usize>
    ensures value { result ≡ eol_len bytes.now }
    ensures within { IfSome result (λ n. n ≤ length bytes.now) }
{
    match bytes {
        [] => Some(0),
        [b'\n', ..] => Some(1),
        [b'\r', b'\n', ..] => Some(2),
        [b'\r', ..] => Some(1),
        _ => None,
    }
}

/// Returns the number of spaces and tabs at the start of `bytes`. CommonMark 2.1.
pub fn scan_blanks(bytes: &[u8]) -> usize
    ensures value { result ≡ prefix_len is_space_or_tab bytes.now }
    ensures within { result ≤ length bytes.now }
{
    bytes.iter().take_while(|b| is_space_or_tab(**b)).count()
}

/// Returns the number of bytes of white space at the start of `bytes`, without line endings: tab, 0x0B, 0x0C and space.
/// CommonMark 2.1.
pub fn scan_whitespace_no_nl(bytes: &[u8]) -> usize
    ensures value { result ≡ prefix_len is_white bytes.now }
    ensures within { result ≤ length bytes.now }
{
    // Most often there is no white space, or one space.
    match bytes {
        [first, ..] if *first > b' ' => 0,
        [b' ', next, ..] if *next > b' ' => 1,
        [b'\n', ..] => 0,
        _ => white_len(bytes),
    }
}

// The same, 16 bytes at a time.
#[inline(never)]
fn white_len(bytes: &[u8]) -> usize
    ensures value { result ≡ prefix_len is_white bytes.now }
    ensures within { result ≤ length bytes.now }
{
    let mut from = 0;
    while bytes.len() - from >= LANES {
        let run = white_run(bytes, from);
        from += run;
        if run < LANES {
            return from;
        }
    }
    from + near_white_len(&bytes[from..])
}

// The same, a byte at a time.
fn near_white_len(bytes: &[u8]) -> usize
    ensures value { result ≡ prefix_len is_white bytes.now }
    ensures within { result ≤ length bytes.now }
{
    bytes.iter().take_while(|b| is_white(**b)).count()
}

/// Returns the length in bytes of the blank line at the start of `bytes`, with its line ending. The last line of the
/// text may have no line ending. Returns `None` if the line is not blank. CommonMark 2.1.
pub fn scan_blank_line(bytes: &[u8]) -> Option<usize>
    ensures value { result ≡ blank_len bytes.now }
    ensures within { IfSome result (λ n. n ≤ length bytes.now) }
{
    // The first byte rules out most lines that are not blank.
    if let [first, ..] = bytes {
        if *first > b' ' {
            return None;
        }
    }
    let white = scan_whitespace_no_nl(bytes);
    match scan_eol(&bytes[white..]) {
        Some(end) => Some(white + end),
        None => None,
    }
}

/// Returns the number of bytes at the end of `bytes` that are white space or part of a line ending: tab, 0x0B, 0x0C,
/// space, `\n` or `\r`.
pub fn trailing_white(bytes: &[u8]) -> usize
    ensures value { result ≡ suffix_len is_white_or_line_end bytes.now }
    ensures within { result ≤ length bytes.now }
{
    let backwards = bytes.iter().rev();
    backwards.take_while(|b| is_white_or_line_end(**b)).count()
}

// The number of bytes that are searched for a line ending 16 at a time. Most lines are shorter, and `memchr2`
// has a higher cost to start.
const NEAR: usize = 128;

/// Returns the number of bytes before the first line ending, or the length of `bytes` if there is none. CommonMark 2.1.
pub fn content_len(bytes: &[u8]) -> usize
    ensures value { result ≡ prefix_len is_content bytes.now }
    ensures within { result ≤ length bytes.now }
{
    let near = bytes.len().min(NEAR);
    let mut from = 0;
    while near - from >= LANES {
        let run = content_run(bytes, from);
        from += run;
        if run < LANES {
            return from;
        }
    }
    from + far_content_len(&bytes[from..])
}

// The same for the bytes after those.
#[inline(never)]
fn far_content_len(bytes: &[u8]) -> usize
    ensures value { result ≡ prefix_len is_content bytes.now }
    ensures within { result ≤ length bytes.now }
{
    match memchr2(b'\n', b'\r', bytes) {
        None => bytes.len(),
        Some(at) => at,
    }
}

/// Returns the length in bytes of the line at the start of `bytes`, with its line ending, or the length of `bytes` if
/// there is no line ending. CommonMark 2.1.
#[tactic(auto, unfolding(crate::specs::Lines::line_len))]
pub fn scan_nextline(bytes: &[u8]) -> usize
    ensures value { result ≡ line_len bytes.now }
    ensures within { result ≤ length bytes.now }
{
    if let [b'\n', ..] = bytes {
        return 1;
    }
    let content = content_len(bytes);
    match scan_eol(&bytes[content..]) {
        Some(end) => content + end,
        None => content,
    }
}

// The number of `#` at the start.
fn scan_number_signs(bytes: &[u8]) -> usize
    ensures value { result ≡ prefix_len is_number_sign bytes.now }
    ensures within { result ≤ length bytes.now }
{
    bytes.iter().take_while(|b| **b == b'#').count()
}

// The heading level for this number of `#`.
fn heading_level(signs: usize) -> Option<HeadingLevel>
    ensures { result ≡ level_of signs }
{
    match signs {
        1 => Some(HeadingLevel::H1),
        2 => Some(HeadingLevel::H2),
        3 => Some(HeadingLevel::H3),
        4 => Some(HeadingLevel::H4),
        5 => Some(HeadingLevel::H5),
        6 => Some(HeadingLevel::H6),
        _ => None,
    }
}

/// Returns the level of the ATX heading at the start of `bytes`. An ATX heading begins with 1 to 6 number signs, then a
/// space, a tab, or the end of the line or of the text. Returns `None` if none is there. CommonMark 4.2.
#[tactic(auto, unfolding(crate::specs::Lines::atx_level))]
pub fn scan_atx_heading(bytes: &[u8]) -> Option<HeadingLevel>
    ensures value { result ≡ atx_level bytes.now }
    ensures signs { IfSome result (λ level. number_of level ≡ prefix_len is_number_sign bytes.now) }
    ensures within { IfSome result (λ level. number_of level ≤ length bytes.now) }
{
    let signs = scan_number_signs(bytes);
    match &bytes[signs..] {
        [] | [b' ' | b'\t' | b'\n' | b'\r', ..] => heading_level(signs),
        _ => None,
    }
}

/// Returns the number of number signs that open a heading of this level: 1 to 6. CommonMark 4.2.
pub fn level_number(level: HeadingLevel) -> usize
    ensures value { result ≡ number_of level }
{
    level as usize
}
