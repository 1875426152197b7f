//! Raw lines: the lines of code, metadata and HTML, in which no markup is read (CommonMark 4.4, 4.5, 4.6).

ghost use Rattle.first_pass_grammar.specs.RawLines.{ends_with_both};
ghost use Rattle.first_pass_leaves.specs.RawBlocks.{range_of, AppendsColumns, AppendsRaw};
ghost use Rattle.first_pass_lines.specs.Places.{offset, place_at};
ghost use Rattle.first_pass_names.specs.TableEntries.{names_of, NamesMore};
ghost use Rattle.first_pass_tokens.specs.TreeTokens.{with_tokens};
ghost use Rattle.std.specs.Prelude.{◌≡◌, ◌≤◌, length, OnOk};

use first_pass_items::cow_str::CowStr;
use first_pass_items::item::{Item, ItemBody};
use first_pass_names::items::Allocations;
use first_pass_scan::line_start::LineStart;
use first_pass_tree::forest::Tree;
use std::alloc::AllocError;

// Appends a text of `columns` spaces, at most 3, with an empty range at the offset `at`; nothing for no columns.
fn append_columns<'a>(
    tree: &mut Tree<Item>,
    allocs: &mut Allocations<'a>,
    columns: usize,
    at: usize,
) -> Result<(), AllocError>
    requires { columns ≤ 3 }
    ensures items { OnOk result (AppendsColumns (names_of allocs.new) columns at tree.old tree.new) }
    ensures more { OnOk result (NamesMore allocs.old allocs.new) }
{
    if columns == 0 {
        return Ok(());
    }
    let spaces = "   ";
    let ix = allocs.allocate_cow(CowStr::Borrowed(&spaces[..columns]))?;
    tree.append(Item {
        start: at,
        end: at,
        body: ItemBody::SynthesizeText(ix),
    })?;
    Ok(())
}

// Whether the bytes from `start` up to `end` end with `\r\n`.
fn ends_with_both(bytes: &[u8], start: usize, end: usize) -> bool
    requires order { start ≤ end }
    requires within { end ≤ length bytes.now }
    ensures { result ≡ ends_with_both bytes.now start end }
{
    start + 1 < end && bytes[end - 2] == b'\r' && bytes[end - 1] == b'\n'
}

/// The kind of a raw line: its bytes are appended as texts, or as HTML.
#[derive(Clone, Copy)]
pub enum RawKind {
    Code,
    Html,
}

/// A raw line.
#[derive(Clone, Copy)]
pub struct RawLine {
    /// Its kind.
    pub kind: RawKind,
    /// The columns that are owed before it, at most 3.
    pub owed: usize,
    /// The start of its bytes, an offset into the text.
    pub start: usize,
    /// The end of its bytes, after its line ending if it has one.
    pub end: usize,
}

impl RawLine {
    /// Returns the raw line of a kind from a place on up to `end`. The place is in the line that begins at `start`.
    #[inline(always)]
    pub fn from_place(
        kind: RawKind,
        start: usize,
        line_start: &LineStart<'_>,
        end: usize,
    ) -> RawLine
        requires { offset (place_at start line_start.now) ≤ end }
        ensures line { result ≡ record {
          kind = kind;
          owed = line_start.now.owed;
          start = offset (place_at start line_start.now);
          «end» = end;
        } }
        ensures small { result.owed ≤ 3 }
    {
        RawLine {
            kind,
            owed: line_start.remaining_space(),
            start: start + line_start.bytes_scanned(),
            end,
        }
    }
}

// Appends a range of the bytes of a raw line.
#[inline(always)]
fn append_range(
    tree: &mut Tree<Item>,
    kind: RawKind,
    start: usize,
    end: usize,
) -> Result<(), AllocError>
    requires { start ≤ end }
    ensures { OnOk result (tree.new ≡ with_tokens tree.old (range_of kind start end)) }
{
    match kind {
        RawKind::Code => tree.append_text(start, end, false)?,
        RawKind::Html => {
            tree.append(Item {
                start,
                end,
                body: ItemBody::Html,
            })?;
        }
    }
    Ok(())
}

/// Appends a raw line of the text to the innermost open node: the columns that are owed before it, and its bytes. If
/// the line ends with `\r\n`, leaves out the `\r`. Fails only if an allocation fails.
#[inline(always)]
pub fn append_raw_line<'a>(
    tree: &mut Tree<Item>,
    allocs: &mut Allocations<'a>,
    text: &str,
    line: RawLine,
) -> Result<(), AllocError>
    requires owed { line.owed ≤ 3 }
    requires order { line.start ≤ line.«end» }
    requires within { line.«end» ≤ length text.now }
    ensures line { OnOk result (AppendsRaw (range_of line.kind) text.now (names_of allocs.new) line.owed line.start
        line.«end» tree.old tree.new) }
    ensures more { OnOk result (NamesMore allocs.old allocs.new) }
{
    append_columns(tree, allocs, line.owed, line.start)?;
    if ends_with_both(text.as_bytes(), line.start, line.end) {
        append_range(tree, line.kind, line.start, line.end - 2)?;
        append_range(tree, line.kind, line.end - 1, line.end)?;
    } else {
        append_range(tree, line.kind, line.start, line.end)?;
    }
    Ok(())
}
