//! The parts of the text that make up the content of a chain.

ghost use Rattle.first_pass_content.specs.Parts.{gap, is_lone, line_end_of, part_of};
ghost use Rattle.first_pass_grammar.specs.Order.{is_task_marker};
ghost use Rattle.first_pass_tokens.specs.LineTokens.{is_break};
ghost use Rattle.std.specs.Prelude.{◌≡◌, slice_index};

use first_pass_items::item::{Item, ItemBody};
use first_pass_lines::lines::content_len;
use first_pass_reports::references::label::{bytes_between, whole_start};
use std::ops::Range;

/// Returns the part of the text that a token has in the content of its chain. It includes a backslash that was dropped
/// before the token (CommonMark 2.4). That of a break ends before its line ending, and that of a task list item marker
/// is empty.
pub fn part_of(text: &[u8], token: Item) -> Range<usize>
    ensures { result ≡ part_of text.now token }
{
    if is_break(token.body) {
        token.start..line_end_of(text, token)
    } else if is_task_marker(token.body) {
        token.start..token.start
    } else {
        whole_start(token)..token.end
    }
}

/// Returns the start of the line ending of a break, or the end of the break if it has none.
pub fn line_end_of(text: &[u8], token: Item) -> usize
    ensures { result ≡ line_end_of text.now token }
{
    token.start + content_len(bytes_between(text, token.start, token.end))
}

/// Returns the part of the text between a token and the next one that is content, although no token has it: before a
/// break the white space at the end of the line, or the only byte of a line without tokens. It is empty elsewhere.
pub fn gap(text: &[u8], token: Item, next: Item) -> Range<usize>
    ensures { result ≡ gap text.now token next }
{
    if !is_break(next.body) {
        return next.start..next.start;
    }
    if !is_break(token.body) {
        return token.end..next.start;
    }
    if token.end < next.start && is_lone_at(text, next.start - 1) {
        next.start - 1..next.start
    } else {
        next.start..next.start
    }
}

/// Whether a token is a break between two lines (CommonMark 6.7, 6.8).
pub fn is_break(body: ItemBody) -> bool
    ensures { result ≡ is_break body }
{
    matches!(body, ItemBody::SoftBreak | ItemBody::HardBreak(_))
}

// Whether a token is a task list item marker.
fn is_task_marker(body: ItemBody) -> bool
    ensures { result ≡ is_task_marker body }
{
    matches!(body, ItemBody::TaskListMarker(_))
}

// Whether the byte at an offset can be the only one of a line without tokens.
fn is_lone_at(text: &[u8], at: usize) -> bool
    ensures { result ≡ is_lone (slice_index text.now at) }
{
    at < text.len() && matches!(text[at], 0x0B | 0x0C)
}
