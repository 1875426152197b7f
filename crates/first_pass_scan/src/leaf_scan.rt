//! Lines that open or close a leaf block: thematic breaks, setext heading underlines and code fences. The width of
//! indentation.

ghost use Rattle.first_pass_lines.specs.Lines.{is_space_or_tab};
ghost use Rattle.first_pass_scan.specs.LeafLines.{run_len, in_rule, hrule_len, HasNoRule, underline_len, setext_underline, has_backquote as holds_backquote, code_fence, closing_fence_len, blank_columns, IsLongestIndent};
ghost use Rattle.std.specs.List.{prefix_len};
ghost use Rattle.std.specs.Prelude.{◌≡◌, ◌≤◌, length, None, IfSome};

use first_pass_items::item::HeadingLevel;
use first_pass_lines::lines::{
    content_len, is_space_or_tab, scan_blank_line, scan_blanks, scan_eol,
};

// The number of bytes at the start that are the thematic break's byte, spaces or tabs.
fn scan_rule_content(bytes: &[u8], byte: u8) -> usize
    ensures value { result ≡ prefix_len (in_rule byte) bytes.now }
    ensures within { result ≤ length bytes.now }
{
    bytes
        .iter()
        .take_while(|b| **b == byte || is_space_or_tab(**b))
        .count()
}

/// Returns the length in bytes of the thematic break at the start of `bytes`, with its line ending, or `None` if there
/// is none. A thematic break is three or more of one of `-`, `_` and `*`, with spaces and tabs between and after them.
/// CommonMark 4.1.
#[tactic(auto, unfolding(crate::specs::LeafLines::hrule_len))]
pub fn scan_hrule(bytes: &[u8]) -> Option<usize>
    ensures value { result ≡ hrule_len bytes.now }
    ensures within { IfSome result (λ n. n ≤ length bytes.now) }
{
    let byte = *bytes.first()?;
    if byte != b'-' && byte != b'_' && byte != b'*' {
        return None;
    }
    let content = scan_rule_content(bytes, byte);
    if bytes[..content].iter().filter(|b| **b == byte).count() < 3 {
        return None;
    }
    let end = scan_eol(&bytes[content..])?;
    Some(content + end)
}

// Returns the number of bytes at the start that equal the first byte, or are spaces or tabs. If no thematic break
// begins at the start, none begins at any of these bytes.
pub(crate) fn scan_rule_free(bytes: &[u8]) -> usize
    requires { hrule_len bytes.now ≡ None }
    ensures none { HasNoRule bytes.now 0 result }
    ensures within { result ≤ length bytes.now }
{
    match bytes {
        [] => 0,
        [byte, ..] => scan_rule_content(bytes, *byte),
    }
}

/// Returns the number of copies of `byte` at the start of `bytes`.
pub fn scan_run(bytes: &[u8], byte: u8) -> usize
    ensures value { result ≡ run_len byte bytes.now }
    ensures within { result ≤ length bytes.now }
{
    bytes.iter().take_while(|b| **b == byte).count()
}

// The length in bytes of the underline of copies of `byte` at the start, with its line ending, if there is one.
#[inline(always)]
fn scan_underline(bytes: &[u8], byte: u8) -> Option<usize>
    ensures value { result ≡ underline_len byte bytes.now }
    ensures within { IfSome result (λ n. n ≤ length bytes.now) }
{
    let run = scan_run(bytes, byte);
    let end = scan_blank_line(&bytes[run..])?;
    Some(run + end)
}

/// Returns the length in bytes of the setext heading underline at the start of `bytes`, with its line ending, and the
/// level of the heading. Returns `None` if there is none. An underline is a run of `=` (level 1) or `-` (level 2), then
/// only white space. CommonMark 4.3.
#[inline(always)]
#[tactic(auto, unfolding(crate::specs::LeafLines::setext_underline))]
pub fn scan_setext_heading(bytes: &[u8]) -> Option<(usize, HeadingLevel)>
    ensures value { result ≡ setext_underline bytes.now }
    ensures within { IfSome result (λ underline. underline.0 ≤ length bytes.now) }
{
    match bytes {
        [b'=', ..] => {
            let end = scan_underline(bytes, b'=')?;
            Some((end, HeadingLevel::H1))
        }
        [b'-', ..] => {
            let end = scan_underline(bytes, b'-')?;
            Some((end, HeadingLevel::H2))
        }
        _ => None,
    }
}

// Whether the line contains a backquote.
fn has_backquote(bytes: &[u8]) -> bool
    ensures { result ≡ holds_backquote bytes.now }
{
    let content = content_len(bytes);
    bytes[..content].contains(&b'`')
}

/// Returns the length in bytes and the byte of the code fence at the start of `bytes`, or `None` if there is none. A
/// code fence is three or more backquotes with none in the rest of the line, or three or more tildes. CommonMark 4.5.
#[tactic(auto, unfolding(crate::specs::LeafLines::code_fence))]
pub fn scan_code_fence(bytes: &[u8]) -> Option<(usize, u8)>
    ensures value { result ≡ code_fence bytes.now }
    ensures within { IfSome result (λ fence. fence.0 ≤ length bytes.now) }
{
    match bytes {
        [b'`', ..] => {
            let run = scan_run(bytes, b'`');
            if run < 3 || has_backquote(&bytes[run..]) {
                return None;
            }
            Some((run, b'`'))
        }
        [b'~', ..] => {
            let run = scan_run(bytes, b'~');
            if run < 3 {
                return None;
            }
            Some((run, b'~'))
        }
        _ => None,
    }
}

/// Returns the length in bytes of the closing code fence at the start of `bytes`, with trailing spaces and tabs but
/// without its line ending. A closing code fence is at least `count` of `byte`, then only spaces and tabs. Returns 0 if
/// `bytes` is empty, since the end of the text closes the block too. Otherwise returns `None` if no closing fence is
/// there. CommonMark 4.5.
#[tactic(auto, unfolding(crate::specs::LeafLines::closing_fence_len))]
pub fn scan_closing_code_fence(bytes: &[u8], byte: u8, count: usize) -> Option<usize>
    ensures value { result ≡ closing_fence_len byte count bytes.now }
    ensures within { IfSome result (λ n. n ≤ length bytes.now) }
{
    if bytes.is_empty() {
        return Some(0);
    }
    let run = scan_run(bytes, byte);
    if run < count {
        return None;
    }
    let end = run + scan_blanks(&bytes[run..]);
    scan_eol(&bytes[end..])?;
    Some(end)
}

// The columns of a space or a tab, given the number of bytes since the last tab; 0 for any other byte.
fn columns_of_blank(byte: u8, column: usize) -> usize
    ensures { result ≡ blank_columns byte column }
{
    match byte {
        b' ' => 1,
        b'\t' => 4 - column % 4,
        _ => 0,
    }
}

/// Returns the number of bytes and of columns in the longest run of whole spaces and tabs at the start of `bytes` that
/// has at most `max` columns. CommonMark 2.2.
pub fn calc_indent(bytes: &[u8], max: usize) -> (usize, usize)
    ensures { IsLongestIndent bytes.now max result.0 result.1 }
{
    let mut at = 0;
    let mut columns = 0;
    let mut tab_start = 0;
    while at < bytes.len() {
        let width = columns_of_blank(bytes[at], at - tab_start);
        if width == 0 || max - columns < width {
            break;
        }
        if bytes[at] == b'\t' {
            tab_start = at + 1;
        }
        columns += width;
        at += 1;
    }
    (at, columns)
}
