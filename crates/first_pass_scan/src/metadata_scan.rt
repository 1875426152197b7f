//! Lines that open or close a metadata block.

ghost use Rattle.first_pass_lines.specs.Lines.{line_len};
ghost use Rattle.first_pass_scan.specs.Metadata.{closing_marks, closing_metadata_len, any_line_closes, begins_metadata, opens_metadata as metadata_opens, metadata_byte};
ghost use Rattle.first_pass_scan.specs.MetadataSearch.{closing_line_from};
ghost use Rattle.std.specs.Prelude.{◌≡◌, ◌≤◌, true, length, Some, None, IfSome, if◌then◌else◌};

use crate::leaf_scan::scan_run;
use first_pass_lines::lines::{scan_blank_line, scan_eol, scan_nextline};
use first_pass_lines::places::{next_line, rest_of};

// Whether the bytes begin with the marks of a closing line of metadata.
#[tactic(auto, unfolding(crate::specs::Metadata::closing_marks))]
fn has_closing_marks(bytes: &[u8], byte: u8) -> bool
    ensures value { result ≡ closing_marks byte bytes.now }
    ensures long { result ≡ true → 3 ≤ length bytes.now }
{
    if byte == b'-' && bytes.starts_with(b"...") {
        return true;
    }
    bytes.starts_with(&[byte, byte, byte])
}

/// Returns the length in bytes of the closing line of metadata at the start of `bytes`, with trailing spaces but
/// without its line ending. A closing line is three of `byte`, or `...` if `byte` is `-`, then only spaces. Returns
/// `None` if none is there.
#[tactic(auto, unfolding(crate::specs::Metadata::closing_metadata_len))]
pub fn scan_closing_metadata_block(bytes: &[u8], byte: u8) -> Option<usize>
    ensures value { result ≡ closing_metadata_len byte bytes.now }
    ensures within { IfSome result (λ n. n ≤ length bytes.now) }
{
    if !has_closing_marks(bytes, byte) {
        return None;
    }
    let end = 3 + scan_run(rest_of(bytes, 3), b' ');
    scan_eol(rest_of(bytes, end))?;
    Some(end)
}

// The start of the first line from the offset `from` on that closes metadata of the byte, or the text's length.
pub(crate) fn scan_closing_line(text: &[u8], from: usize, byte: u8) -> usize
    requires { from ≤ length text.now }
    ensures { result ≡ closing_line_from byte text.now from }
{
    let mut at = from;
    while at < text.len() {
        if scan_closing_metadata_block(rest_of(text, at), byte).is_some() {
            return at;
        }
        at = next_line(text, at);
    }
    at
}

// Whether some line closes metadata of the byte.
fn has_closing_line(bytes: &[u8], byte: u8) -> bool
    ensures { result ≡ any_line_closes byte 0 bytes.now }
{
    scan_closing_line(bytes, 0, byte) < bytes.len()
}

// The length of the first line, with its line ending, if it and the next line allow metadata of the byte to
// open here.
#[tactic(auto, unfolding(crate::specs::Metadata::begins_metadata))]
pub(crate) fn scan_metadata_opening(bytes: &[u8], byte: u8) -> Option<usize>
    ensures value { result ≡ (if begins_metadata byte bytes.now then Some (line_len bytes.now) else None) }
    ensures within { IfSome result (λ n. n ≤ length bytes.now) }
{
    if scan_run(bytes, byte) != 3 || scan_blank_line(&bytes[3..]).is_none() {
        return None;
    }
    let end = scan_nextline(bytes);
    let next = rest_of(bytes, end);
    if scan_blank_line(next).is_some() || scan_closing_metadata_block(next, byte).is_some() {
        return None;
    }
    Some(end)
}

// Whether metadata of the byte opens here.
#[tactic(auto, unfolding(crate::specs::Metadata::opens_metadata))]
fn opens_metadata(bytes: &[u8], byte: u8) -> bool
    ensures { result ≡ metadata_opens byte bytes.now }
{
    match scan_metadata_opening(bytes, byte) {
        None => false,
        Some(end) => {
            let next = rest_of(bytes, end);
            has_closing_line(rest_of(next, scan_nextline(next)), byte)
        }
    }
}

/// Returns the byte of the metadata block at the start of `bytes`: `-` if `yaml` is on, `+` if `pluses` is on. The
/// first line of the block is exactly three of that byte, then white space. The next line is neither blank nor a
/// closing line, and a later line is a closing line. Returns `None` if no such block is there. `bytes` extends to the
/// end of the text, and its lines are read with their container prefixes.
#[tactic(auto, unfolding(crate::specs::Metadata::metadata_byte))]
pub fn scan_metadata_block(bytes: &[u8], yaml: bool, pluses: bool) -> Option<u8>
    ensures value { result ≡ metadata_byte yaml pluses bytes.now }
{
    match bytes {
        [b'-', ..] if yaml => {
            if !opens_metadata(bytes, b'-') {
                return None;
            }
            Some(b'-')
        }
        [b'+', ..] if pluses => {
            if !opens_metadata(bytes, b'+') {
                return None;
            }
            Some(b'+')
        }
        _ => None,
    }
}
