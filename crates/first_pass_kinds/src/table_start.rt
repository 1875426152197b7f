//! The lines that head a table (GFM 4.10).

ghost use Rattle.first_pass_grammar.specs.TableHeads.{table_at, table_interrupts, ends_in_backslash, headed_table};
ghost use Rattle.first_pass_items.specs.Bytes.{backslash, colon, pipe};
ghost use Rattle.first_pass_kinds.specs.Memory.{may_head_table};
ghost use Rattle.first_pass_kinds.specs.TableHeads.{table_head_len};
ghost use Rattle.first_pass_lines.specs.Lines.{begins, is_content, line_len};
ghost use Rattle.first_pass_lines.specs.Plain.{begins_inert};
ghost use Rattle.first_pass_open.specs.Path.{path_of, context_of};
ghost use Rattle.std.specs.List.{prefix_len, suffix_len};
ghost use Rattle.std.specs.Option.{option_map};
ghost use Rattle.std.specs.Prelude.{◌≡◌, ◌≤◌, ◌+◌, ◌==◌, ◌&&◌, ◌||◌, not, length, drop, true, IfOk, IfSome, OnOk, OnErr, IsUtf8, IsCharBoundary};

use bitflags::Flags;
use first_pass_items::item::{Alignment, Item};
use first_pass_items::option_set::Options;
use first_pass_lines::lines::{begins, content_len, is_inert_front, scan_eol, scan_nextline};
use first_pass_lines::places::rest_of;
use first_pass_open::front::front_of;
use first_pass_open::source::Source;
use first_pass_scan::pipes::has_pipe_in_line;
use first_pass_scan::table_start::{scan_delimiter_row, scan_head_columns};
use first_pass_tree::forest::Tree;
use std::alloc::AllocError;

/// The table that a line heads.
#[derive(Drop)]
pub struct HeadedTable {
    /// The alignments of its columns.
    pub alignments: Vec<Alignment>,
    // The number of bytes of the header row, without its line ending.
    row_content: usize,
    /// The number of bytes from the start of the header row to the end of the delimiter row. It includes both line
    /// endings, and the container prefixes before the delimiter row.
    pub table_head_len: usize,
}

// Whether `bytes` has a first byte, and it is no space, tab, `>`, bullet, digit, `|` or `:`. Then its first line is no
// delimiter row, whichever containers are open.
#[inline(always)]
fn begins_no_row(bytes: &[u8]) -> bool
    ensures { result ≡ (begins_inert bytes.now && not (begins pipe bytes.now || begins colon bytes.now)) }
{
    is_inert_front(bytes) && !matches!(bytes, [b'|' | b':', ..])
}

// The length of the first line of `bytes` with its line ending. Without that, its length is `content`.
#[inline(always)]
#[tactic(auto, unfolding(first_pass_lines::specs::Lines::line_len))]
fn line_len(bytes: &[u8], content: usize) -> usize
    requires content { content ≡ prefix_len is_content bytes.now }
    requires within { content ≤ length bytes.now }
    ensures value { result ≡ line_len bytes.now }
    ensures within { result ≤ length bytes.now }
{
    match scan_eol(&bytes[content..]) {
        Some(end) => content + end,
        None => content,
    }
}

// The table whose header row is the first line of `bytes`. `bytes` extends from there to the end of the text, or to an
// earlier end that a caller sets. The alignments are those of the delimiter row in the next line, if that line
// continues all open containers and the header row has as many columns. The first byte of the next line often rules
// out a delimiter row.
#[tactic(auto, unfolding(first_pass_grammar::specs::TableHeads::table_at))]
fn scan_table_at(
    source: &Source<'_>,
    tree: &Tree<Item>,
    bytes: &[u8],
) -> Result<Option<HeadedTable>, AllocError>
    ensures value { IfOk result (λ found. option_map (λ t. t.alignments.items) found
        ≡ table_at (path_of source.now.options tree.now) bytes.now) }
    ensures head { IfOk result (λ found. IfSome found (λ t. t.table_head_len ≡ table_head_len bytes.now)) }
    ensures within { IfOk result (λ found. IfSome found (λ t. t.table_head_len ≤ length bytes.now)) }
    ensures content { IfOk result (λ found. IfSome found (λ t. t.row_content ≡ prefix_len is_content bytes.now)) }
{
    let row_content = content_len(bytes);
    let row_len = line_len(bytes, row_content);
    let after = rest_of(bytes, row_len);
    if begins_no_row(after) {
        return Ok(None);
    }
    let front = front_of(after, tree, source.options);
    if !front.continues_all {
        return Ok(None);
    }
    let Some(alignments) = scan_delimiter_row(source.alloc, &front.rest)? else {
        return Ok(None);
    };
    if alignments.len() != scan_head_columns(bytes, row_content) {
        return Ok(None);
    }
    Ok(Some(HeadedTable {
        alignments,
        row_content,
        table_head_len: row_len + scan_nextline(after),
    }))
}

/// Returns whether a table interrupts a paragraph at the first line of `bytes`, its header row (GFM 4.10). `bytes` is
/// all the rest of the text. Returns `false` without `ENABLE_TABLES`, or if the line does not begin with a pipe (this
/// project). Fails only if an allocation fails, which can happen only if `ENABLE_TABLES` is set and the line begins
/// with a pipe.
#[inline(always)]
pub fn interrupts_as_table(
    source: &Source<'_>,
    tree: &Tree<Item>,
    bytes: &[u8],
) -> Result<bool, AllocError>
    ensures value { IfOk result (λ yes. yes ≡ table_interrupts (context_of source.now.options tree.now) bytes.now) }
    ensures err { OnErr result (may_head_table (context_of source.now.options tree.now) bytes.now ≡ true) }
{
    if !begins(b'|', bytes) || !source.options.contains(Options::ENABLE_TABLES) {
        return Ok(false);
    }
    Ok(scan_table_at(source, tree, bytes)?.is_some())
}

// The number of backslashes at the end.
fn scan_last_backslashes(bytes: &[u8]) -> usize
    ensures { result ≡ suffix_len (λ b. b == backslash) bytes.now }
{
    bytes.iter().rev().take_while(|b| **b == b'\\').count()
}

// Whether the first line of `bytes`, of `content` bytes without its line ending, ends in an odd number of backslashes.
fn ends_in_backslash(bytes: &[u8], content: usize) -> bool
    requires { content ≡ prefix_len is_content bytes.now }
    ensures { result ≡ ends_in_backslash bytes.now }
{
    scan_last_backslashes(&bytes[..content]) % 2 == 1
}

/// Returns the table whose header row is the first line of `bytes`, given that no container or other block begins
/// there. `bytes` extends from there to the end of the text, or to an earlier end that the caller sets. Returns `None`
/// if the line is no header row; then it is the first line of paragraph text. A header row needs `ENABLE_TABLES`. It
/// has as many columns as the delimiter row in the next line, and does not end in an odd number of backslashes (GFM
/// 4.10, and this project). Fails only if an allocation fails.
#[tactic(auto, unfolding(first_pass_grammar::specs::TableHeads::headed_table))]
pub fn scan_headed_line(
    source: &Source<'_>,
    tree: &Tree<Item>,
    bytes: &[u8],
) -> Result<Option<HeadedTable>, AllocError>
    ensures value { IfOk result (λ found. option_map (λ t. t.alignments.items) found
        ≡ headed_table (context_of source.now.options tree.now) bytes.now) }
    ensures head { IfOk result (λ found. IfSome found (λ t. t.table_head_len ≡ table_head_len bytes.now)) }
    ensures within { IfOk result (λ found. IfSome found (λ t. t.table_head_len ≤ length bytes.now)) }
{
    if !source.options.contains(Options::ENABLE_TABLES) {
        return Ok(None);
    }
    // Most paragraphs begin with a line without a pipe.
    if !has_pipe_in_line(bytes) {
        return Ok(None);
    }
    let Some(table) = scan_table_at(source, tree, bytes)? else {
        return Ok(None);
    };
    if ends_in_backslash(bytes, table.row_content) {
        Ok(None)
    } else {
        Ok(Some(table))
    }
}

/// Returns the table whose header row begins at `start`, given that no container or other block begins there. `start`
/// is an offset into the text. Returns `None` if paragraph text begins there (see `scan_headed_line`). Fails only if an
/// allocation fails.
pub fn scan_headed_table(
    source: &Source<'_>,
    tree: &Tree<Item>,
    start: usize,
) -> Result<Option<HeadedTable>, AllocError>
    requires { IsCharBoundary source.now.text.now start }
    ensures value { IfOk result (λ found. option_map (λ t. t.alignments.items) found
        ≡ headed_table (context_of source.now.options tree.now) (drop start source.now.text.now)) }
    ensures head { IfOk result (λ found. IfSome found (λ t.
        t.table_head_len ≡ table_head_len (drop start source.now.text.now))) }
    ensures within { IfOk result (λ found. IfSome found (λ t. start + t.table_head_len ≤ length source.now.text.now)) }
    ensures utf8 { OnOk result (IsUtf8 source.now.text.now) }
{
    let bytes = rest_of(source.text.as_bytes(), start);
    let found = scan_headed_line(source, tree, bytes)?;
    Ok(found)
}
