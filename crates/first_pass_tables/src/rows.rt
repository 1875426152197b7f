//! The rows of a table, one after the other (GFM 4.10).

ghost use Rattle.first_pass_grammar.specs.Leaves.{document};
ghost use Rattle.first_pass_grammar.specs.Tables.{interrupts_row, row_text};
ghost use Rattle.first_pass_lines.specs.Places.{line_place};
ghost use Rattle.first_pass_names.specs.TableEntries.{names_of, AddsTexts, NamesMore};
ghost use Rattle.first_pass_open.specs.Between.{AddsBetween};
ghost use Rattle.first_pass_open.specs.Between.{line_end_at};
ghost use Rattle.first_pass_open.specs.OpenBlock.{IsJustPushed};
ghost use Rattle.first_pass_open.specs.Path.{context_of};
ghost use Rattle.first_pass_tables.specs.Appends.{IsOpenNode, open_table, ReadsRowLine, AppendsRows, AddsWholeRows, ClosesBetween};
ghost use Rattle.first_pass_tables.specs.RowsRead.{AppendsBody};
ghost use Rattle.first_pass_tree.specs.declared.tree_index.TreeIndex.{TreeIndex};
ghost use Rattle.std.specs.Prelude.{◌≡◌, ◌≤◌, None, ℕ, drop, IfOk, OnOk, IfSome, IsUtf8, IsCharBoundary};

use crate::row::{CellsWanted, TableSoFar, append_head_row, parse_table_row_inner};
use bitflags::Flags;
use first_pass_items::item::Item;
use first_pass_items::option_set::Options;
use first_pass_kinds::interrupt::{interrupts_as_footnote, interrupts_by_standard};
use first_pass_lines::lines::begins;
use first_pass_names::items::Allocations;
use first_pass_open::front::scan_continued;
use first_pass_open::open_block::close_block;
use first_pass_open::source::Source;
use first_pass_tokens::braces::BraceContexts;
use first_pass_tree::forest::Tree;
use first_pass_tree::tree_index::TreeIndex;
use std::alloc::AllocError;

// Whether a line, whose rest after its indentation is `bytes`, ends a table before it: it interrupts a paragraph, as
// any list item does here, except by heading a table (GFM 4.10, and this project).
#[inline(always)]
fn interrupts_rows(options: Options, bytes: &[u8]) -> bool
    ensures { result ≡ interrupts_row options bytes.now }
{
    // Most rows begin with a pipe.
    if begins(b'|', bytes) {
        return false;
    }
    interrupts_by_standard(bytes, false)
        || interrupts_as_footnote(bytes, options.contains(Options::ENABLE_FOOTNOTES))
}

// The start of a row's text in the line at the offset `start`. `None` if that line is no row: if it does not continue
// all open containers, or if its text interrupts rows.
fn scan_row_text(source: &Source<'_>, tree: &Tree<Item>, start: usize) -> Option<usize>
    requires { IsCharBoundary source.now.text.now start }
    ensures value { result
        ≡ row_text (context_of source.now.options tree.now) (line_place start (drop start source.now.text.now)) }
    ensures place { IfSome result (λ n. IsCharBoundary source.now.text.now n) }
    ensures utf8 { IsUtf8 source.now.text.now }
{
    source.recall_length();
    let Some(rest) = scan_continued(source, tree, start) else {
        return None;
    };
    let mut text = rest;
    text.scan_all_space();
    if interrupts_rows(source.options, text.left()) {
        return None;
    }
    Some(start + text.bytes_scanned())
}

/// Appends the row in the line at `wanted.start` to the table, the innermost open node; returns as
/// `parse_table_row_inner`. Also returns `None` if the line does not continue all open containers, or if its text
/// would interrupt a paragraph, as any list item does here (GFM 4.10). Adds the texts that tokens name to `allocs`.
/// `table`, the state before the row, becomes that after it.
pub fn parse_table_row(
    source: &Source<'_>,
    tree: &mut Tree<Item>,
    allocs: &mut Allocations<'_>,
    table: &mut TableSoFar,
    wanted: CellsWanted,
) -> Result<Option<(usize, TreeIndex)>, AllocError>
    requires boundary { IsCharBoundary source.now.text.now wanted.start }
    requires open { IsOpenNode tree.old }
    ensures row { IfOk result (λ row.
        ReadsRowLine (document source.now.text.now source.now.options (names_of allocs.new)) wanted.most wanted.start
        (open_table tree.old table.old.missing_empty_cells table.old.braces)
        (open_table tree.new table.new.missing_empty_cells table.new.braces) row) }
    ensures more { OnOk result (NamesMore allocs.old allocs.new) }
    ensures texts { OnOk result (AddsTexts (names_of allocs.new) (names_of allocs.old)) }
    ensures fits { IfOk result (λ row. (from : ℕ) → from ≤ wanted.start
        → IfSome row (λ r. AddsBetween source.now.text.now from r.0 tree.old tree.new)) }
    ensures utf8 { OnOk result (IsUtf8 source.now.text.now) }
{
    let Some(at) = scan_row_text(source, tree, wanted.start) else {
        return Ok(None);
    };
    let cells = CellsWanted {
        start: at,
        most: wanted.most,
    };
    let row = parse_table_row_inner(source, tree, allocs, table, cells)?;
    Ok(row)
}

// Appends the rows among the lines from `wanted.start` on to the table, the innermost open node, up to the first line
// that is no row. Returns the start of that line, or the end of the text. Adds the texts that tokens name to `allocs`.
// `table`, the state before the rows, becomes that after them.
fn append_body(
    source: &Source<'_>,
    tree: &mut Tree<Item>,
    allocs: &mut Allocations<'_>,
    table: &mut TableSoFar,
    wanted: CellsWanted,
) -> Result<usize, AllocError>
    requires boundary { IsCharBoundary source.now.text.now wanted.start }
    requires open { IsOpenNode tree.old }
    requires some { tree.old.current ≡ None → ⊥ }
    ensures body { IfOk result (λ next.
        AppendsBody (document source.now.text.now source.now.options (names_of allocs.new)) wanted.most wanted.start
        (open_table tree.old table.old.missing_empty_cells table.old.braces) tree.new next) }
    ensures more { OnOk result (NamesMore allocs.old allocs.new) }
    ensures texts { OnOk result (AddsTexts (names_of allocs.new) (names_of allocs.old)) }
    ensures utf8 { OnOk result (IsUtf8 source.now.text.now) }
{
    tree.recall_forest();
    let mut ix = wanted.start;
    'rows: loop {
        let row = CellsWanted {
            start: ix,
            most: wanted.most,
        };
        match parse_table_row(source, tree, allocs, table, row)? {
            Some((next, _)) => ix = next,
            None => return Ok(ix),
        }
    }
}

/// The places of a table's rows, and the number of its columns.
#[derive(Clone, Copy)]
pub struct TableRows {
    /// The number of columns of the table.
    pub columns: usize,
    /// The offset into the text at which the header row begins.
    pub head_start: usize,
    /// The start of the line after the delimiter row, in which the next row may be.
    pub body_start: usize,
}

/// Appends the rows of a table to it, the innermost open node, which was just opened, and closes it after them. The
/// rows are the header row, and those among the lines from `body_start` on, up to the first line that is no row.
/// Returns the start of that line, or the end of the text. Adds the texts that tokens name to `allocs`. No brace
/// context is open before the header row; the rows after it begin with those that it leaves. Fails only if an
/// allocation fails (GFM 4.10).
///
/// Each row then has as many cells as the table has columns. At most 262,144 cells are inserted, or as many as are
/// inserted into the header row if these are more. With tables, none is inserted into that row if the line at
/// `head_start`, as a header row, has at least as many columns (this project).
pub fn parse_table(
    source: &Source<'_>,
    tree: &mut Tree<Item>,
    allocs: &mut Allocations<'_>,
    rows: TableRows,
) -> Result<usize, AllocError>
    requires head { IsCharBoundary source.now.text.now rows.head_start }
    requires body { IsCharBoundary source.now.text.now rows.body_start }
    requires open { (ix : TreeIndex) × IsJustPushed tree.old ix }
    ensures rows { IfOk result (λ next.
        AppendsRows (document source.now.text.now source.now.options (names_of allocs.new)) rows.columns rows.head_start
        rows.body_start tree.old tree.new next) }
    ensures more { OnOk result (NamesMore allocs.old allocs.new) }
    ensures texts { OnOk result (AddsTexts (names_of allocs.new) (names_of allocs.old)) }
    ensures fits { IfOk result (λ next. (from : ℕ) → from ≤ rows.head_start
        → line_end_at source.now.text.now rows.head_start ≤ rows.body_start
        → ClosesBetween source.now.text.now from next tree.old tree.new) }
    ensures tables { IfOk result (λ next.
        AddsWholeRows (document source.now.text.now source.now.options (names_of allocs.new)) rows.columns
        rows.head_start tree.old tree.new next) }
{
    tree.recall_forest();
    let mut table = TableSoFar {
        missing_empty_cells: 0,
        braces: BraceContexts::new(),
    };
    let head = CellsWanted {
        start: rows.head_start,
        most: rows.columns,
    };
    append_head_row(source, tree, allocs, &mut table, head)?;
    let body = CellsWanted {
        start: rows.body_start,
        most: rows.columns,
    };
    let next = append_body(source, tree, allocs, &mut table, body)?;
    close_block(tree, next);
    Ok(next)
}
