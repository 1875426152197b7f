//! The text of an entry in a Markdown list of headings: plain, or a link.

ghost use Rattle.first_pass_items.specs.Bytes.{line_feed};
ghost use Rattle.first_pass_lines.specs.Lines.{is_white};
ghost use Rattle.first_pass_outline.specs.EntryTexts.{as_paragraph, has_label_end, is_bracket, is_like_label, is_like_tag, is_plain_id as is_plain, is_plain_id_byte, is_row_byte, may_be_link, may_begin_block, written_text};
ghost use Rattle.first_pass_scan.specs.Markers.{is_checked, task_box};
ghost use Rattle.std.specs.Char.{is_ascii_digit};
ghost use Rattle.std.specs.List.{list_all, list_any, prefix_len};
ghost use Rattle.std.specs.Option.{option_and_then, option_map};
ghost use Rattle.std.specs.Prelude.{◌≡◌, ◌++◌, ◌∷◌, ◌≤◌, ◌&&◌, ◌||◌, [], length, codes, is_some, OnOk, Some, None, if◌then◌else◌};

use first_pass_kinds::interrupt::interrupts_by_standard;
use first_pass_lines::lines::{begins, ends, is_white, is_white_or_line_end, trailing_white};
use first_pass_lines::places::rest_of;
use std::alloc::AllocError;

/// Appends the text of an entry, as a link to `id` if one is given. If the text may begin another block than a
/// paragraph in an item, a backslash comes before its first byte, or after the digits that it begins with.
pub fn append_written(line: &mut Vec<u8>, text: &[u8], link: Option<&str>) -> Result<(), AllocError>
    ensures { OnOk result (line.new.items
        ≡ line.old.items ++ written_text text.now (option_map (λ id. id.now) link.entry)) }
{
    match link {
        None => append_paragraph(line, text),
        Some(id) => append_link(line, text, id),
    }
}

// Appends a link with this text to the heading with this id.
fn append_link(line: &mut Vec<u8>, text: &[u8], id: &str) -> Result<(), AllocError>
    ensures { OnOk result (line.new.items
        ≡ line.old.items ++ codes "[" ++ text.now ++ codes "](#" ++ id.now ++ codes ")") }
{
    line.push(b'[')?;
    line.extend_from_slice(text)?;
    line.extend_from_slice(b"](#")?;
    line.extend_from_slice(id.as_bytes())?;
    line.push(b')')?;
    Ok(())
}

// Appends a text as a paragraph, with a backslash if it may begin another block.
fn append_paragraph(line: &mut Vec<u8>, text: &[u8]) -> Result<(), AllocError>
    ensures { OnOk result (line.new.items ≡ line.old.items ++ as_paragraph text.now) }
{
    if !may_begin_block(text) {
        return line.extend_from_slice(text);
    }
    let (digits, rest) = text.split_at(digit_count(text));
    line.extend_from_slice(digits)?;
    line.push(b'\\')?;
    line.extend_from_slice(rest)
}

// The number of ASCII digits at the start.
fn digit_count(text: &[u8]) -> usize
    ensures value { result ≡ prefix_len is_ascii_digit text.now }
    ensures within { result ≤ length text.now }
{
    text.iter().take_while(|b| b.is_ascii_digit()).count()
}

// Whether a text, in an item, may begin another block than a paragraph.
#[tactic(auto, unfolding(crate::specs::EntryTexts::may_begin_block))]
fn may_begin_block(text: &[u8]) -> bool
    ensures { result ≡ may_begin_block text.now }
{
    interrupts_by_standard(text, false)
        || is_like_tag(text)
        || is_like_row(text)
        || is_like_label(text)
}

// Whether a text begins with `<` and ends with `>`, as a tag on a line of its own does.
fn is_like_tag(text: &[u8]) -> bool
    ensures { result ≡ is_like_tag text.now }
{
    begins(b'<', text) && ends(b'>', &text[..text.len() - trailing_white(text)])
}

// Whether a text has only bytes of a delimiter row.
fn is_like_row(text: &[u8]) -> bool
    ensures { result ≡ list_all is_row_byte text.now }
{
    text.iter().all(|b| is_row_byte(*b))
}

fn is_row_byte(byte: u8) -> bool
    ensures { result ≡ is_row_byte byte }
{
    matches!(byte, b'-' | b'|' | b':') || is_white_or_line_end(byte)
}

// Whether a text may be a definition, or begins with a task list item marker.
fn is_like_label(text: &[u8]) -> bool
    ensures { result ≡ is_like_label text.now }
{
    begins(b'[', text) && (has_label_end(text) || is_task(text))
}

// Whether a `]` and then a `:` are among the bytes.
#[tactic(auto, unfolding(crate::specs::EntryTexts::has_label_end))]
fn has_label_end(bytes: &[u8]) -> bool
    ensures { result ≡ has_label_end bytes.now }
{
    let mut rest = bytes;
    while let [first, others @ ..] = rest {
        if *first == b']' && begins(b':', others) {
            return true;
        }
        rest = others;
    }
    false
}

// Whether a line with this text begins with a task list item marker.
#[tactic(auto, unfolding(first_pass_scan::specs::Markers::task_box))]
fn is_task(text: &[u8]) -> bool
    ensures { result ≡ is_some (task_box (text.now ++ line_feed ∷ [])) }
{
    match text {
        [b'[', mark, b']'] => is_task_mark(*mark),
        [b'[', mark, b']', next, ..] => is_task_mark(*mark) && is_white_or_line_end(*next),
        _ => false,
    }
}

// Whether a byte may be between the brackets of a task list item marker.
fn is_task_mark(byte: u8) -> bool
    ensures { result ≡ (is_white byte || is_checked byte) }
{
    is_white(byte) || byte == b'x' || byte == b'X'
}

/// Returns the id, if it may be the destination of a link with this text. The id has a byte, and no control character,
/// space, parenthesis, angle bracket, backslash, backquote or dollar sign. The text has no bracket, and does not end
/// with a backslash.
pub fn link_to<'a>(id: Option<&'a str>, text: &[u8]) -> Option<&'a str>
    ensures { option_map (λ id. id.now) result
        ≡ option_and_then (λ id. if is_plain id && may_be_link text.now then Some id else None)
        (option_map (λ id. id.now) id.entry) }
{
    let id = id?;
    if is_plain_id(id) && may_be_link(text) {
        Some(id)
    } else {
        None
    }
}

fn is_plain_id(id: &str) -> bool
    ensures { result ≡ is_plain id.now }
{
    let bytes = id.as_bytes();
    !bytes.is_empty() && are_plain(bytes)
}

fn are_plain(id: &[u8]) -> bool
    ensures { result ≡ list_all is_plain_id_byte id.now }
{
    id.iter().all(|b| is_plain_id_byte(*b))
}

fn is_plain_id_byte(byte: u8) -> bool
    ensures { result ≡ is_plain_id_byte byte }
{
    byte > b' '
        && byte != 127
        && !matches!(byte, b'(' | b')' | b'<' | b'>' | b'\\')
        && !matches!(byte, b'`' | b'$')
}

// Whether a text has no bracket, and does not end with a backslash.
fn may_be_link(text: &[u8]) -> bool
    ensures { result ≡ may_be_link text.now }
{
    !has_bracket(text) && !ends(b'\\', text)
}

fn has_bracket(text: &[u8]) -> bool
    ensures { result ≡ list_any is_bracket text.now }
{
    text.iter().any(|b| is_bracket(*b))
}

fn is_bracket(byte: u8) -> bool
    ensures { result ≡ is_bracket byte }
{
    byte == b'[' || byte == b']'
}
