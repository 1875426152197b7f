//! A row of a table (GFM 4.10).

ghost use Rattle.first_pass_grammar.specs.Leaves.{document};
ghost use Rattle.first_pass_names.specs.TableEntries.{names_of, AddsTexts, NamesMore};
ghost use Rattle.first_pass_open.specs.Between.{AddsBetween};
ghost use Rattle.first_pass_open.specs.OpenBlock.{IsJustPushed};
ghost use Rattle.first_pass_tables.specs.Appends.{AppendsCells, AddsHead, IsOpenNode, open_table, ReadsRow};
ghost use Rattle.first_pass_tables.specs.Reading.{AppendsSome};
ghost use Rattle.first_pass_tokens.specs.LineTokens.{spot};
ghost use Rattle.first_pass_tree.specs.declared.tree_index.TreeIndex.{TreeIndex};
ghost use Rattle.std.specs.Prelude.{◌≡◌, ◌≤◌, ◌&&◌, ◌||◌, not, nat_lt, nat_le, IsTrue, ℕ, length, OnOk, IfOk, IfSome, IsUtf8, IsCharBoundary};

use crate::cells::{append_table_cell, cell_at, drop_beyond, fill_row};
use first_pass_items::item::{Item, ItemBody};
use first_pass_names::items::Allocations;
use first_pass_open::open_block::{close_block, open_block};
use first_pass_open::source::Source;
use first_pass_tokens::braces::BraceContexts;
use first_pass_tree::forest::Tree;
use first_pass_tree::tree_index::TreeIndex;
use std::alloc::AllocError;

/// The greatest number of cells that are inserted into the rows of one table.
pub const MAX_AUTOCOMPLETED_CELLS: usize = 1 << 18;

/// The cells of a row that are kept.
#[derive(Clone, Copy)]
pub struct CellsWanted {
    /// The offset into the text from which they are read.
    pub start: usize,
    /// The greatest number that is kept: the number of the table's columns.
    pub most: usize,
}

/// The state of an open table that matters for the next rows.
#[derive(Drop)]
pub struct TableSoFar {
    /// The number of cells that are inserted into its rows so far.
    pub missing_empty_cells: usize,
    /// The brace contexts after its last cell.
    pub braces: BraceContexts,
}

// How far the cells of a row were read: to the end of the row, if it ended, or to the next cell; and the number of
// cells.
#[derive(Clone, Copy, Drop)]
struct CellsRead {
    at: usize,
    count: usize,
    ended: bool,
}

// Appends the wanted cells of a row to the innermost open node. Adds the texts that their tokens name to `allocs`.
// `braces`, the brace contexts before those cells, become those after them.
#[inline(always)]
fn append_some_cells(
    source: &Source<'_>,
    tree: &mut Tree<Item>,
    allocs: &mut Allocations<'_>,
    braces: &mut BraceContexts,
    wanted: CellsWanted,
) -> Result<CellsRead, AllocError>
    requires within { wanted.start ≤ length source.now.text.now }
    ensures cells { IfOk result (λ read.
        AppendsSome (document source.now.text.now source.now.options (names_of allocs.new)) wanted.most
        (spot wanted.start braces.old) tree.old tree.new (read, braces.new)) }
    ensures more { OnOk result (NamesMore allocs.old allocs.new) }
    ensures texts { OnOk result (AddsTexts (names_of allocs.new) (names_of allocs.old)) }
    ensures utf8 { OnOk result (IsUtf8 source.now.text.now) }
{
    let bytes = source.text.as_bytes();
    let mut at = wanted.start;
    let mut count = 0;
    'cells: loop {
        let start = cell_at(bytes, at);
        if let Some(eol) = start.eol {
            return Ok(CellsRead {
                at: start.content + eol,
                count,
                ended: true,
            });
        }
        if count == wanted.most {
            return Ok(CellsRead {
                at,
                count,
                ended: false,
            });
        }
        at = append_table_cell(source, tree, allocs, braces, &start)?;
        count += 1;
    }
}

// The same as `append_some_cells`, for the cells beyond the table's columns. Few rows have such cells.
#[inline(never)]
fn append_excess_cells(
    source: &Source<'_>,
    tree: &mut Tree<Item>,
    allocs: &mut Allocations<'_>,
    braces: &mut BraceContexts,
    wanted: CellsWanted,
) -> Result<CellsRead, AllocError>
    requires within { wanted.start ≤ length source.now.text.now }
    ensures cells { IfOk result (λ read.
        AppendsSome (document source.now.text.now source.now.options (names_of allocs.new)) wanted.most
        (spot wanted.start braces.old) tree.old tree.new (read, braces.new)) }
    ensures more { OnOk result (NamesMore allocs.old allocs.new) }
    ensures texts { OnOk result (AddsTexts (names_of allocs.new) (names_of allocs.old)) }
    ensures utf8 { OnOk result (IsUtf8 source.now.text.now) }
{
    let read = append_some_cells(source, tree, allocs, braces, wanted)?;
    Ok(read)
}

// Appends the wanted cells of a row to the innermost open node, which was just opened. Returns the end of the row and
// the number of its cells. Adds the texts that the tokens of all its cells name to `allocs`. `braces`, the brace
// contexts before the row, become those after all its cells.
#[inline(always)]
fn append_cells(
    source: &Source<'_>,
    tree: &mut Tree<Item>,
    allocs: &mut Allocations<'_>,
    braces: &mut BraceContexts,
    wanted: CellsWanted,
) -> Result<(usize, usize), AllocError>
    requires within { wanted.start ≤ length source.now.text.now }
    requires fresh { (ix : TreeIndex) × IsJustPushed tree.old ix }
    ensures cells { IfOk result (λ answer.
        AppendsCells (document source.now.text.now source.now.options (names_of allocs.new)) wanted.most
        (spot wanted.start braces.old) tree.old tree.new (spot answer.0 braces.new, answer.1)) }
    ensures more { OnOk result (NamesMore allocs.old allocs.new) }
    ensures texts { OnOk result (AddsTexts (names_of allocs.new) (names_of allocs.old)) }
    ensures utf8 { OnOk result (IsUtf8 source.now.text.now) }
{
    source.recall_length();
    let kept = append_some_cells(source, tree, allocs, braces, wanted)?;
    if kept.ended {
        return Ok((kept.at, kept.count));
    }
    tree.recall_forest();
    let last = tree.cur();
    let others = CellsWanted {
        start: kept.at,
        most: usize::MAX,
    };
    let excess = append_excess_cells(source, tree, allocs, braces, others)?;
    if excess.count > 0 {
        drop_beyond(tree, last);
    }
    Ok((excess.at, kept.count + excess.count))
}

/// Appends the header row of a table, which begins at `wanted.start`, to the innermost open node, and inserts empty
/// cells at its end if it has too few. Sets the number of inserted cells of `table`. Adds the texts that tokens name to
/// `allocs`. The brace contexts before the row become those after it. Fails only if an allocation fails (GFM 4.10).
pub fn append_head_row(
    source: &Source<'_>,
    tree: &mut Tree<Item>,
    allocs: &mut Allocations<'_>,
    table: &mut TableSoFar,
    wanted: CellsWanted,
) -> Result<(), AllocError>
    requires within { wanted.start ≤ length source.now.text.now }
    ensures head { OnOk result (
        AddsHead (document source.now.text.now source.now.options (names_of allocs.new)) wanted.most
        (spot wanted.start table.old.braces) tree.old
        (open_table tree.new table.new.missing_empty_cells table.new.braces)) }
    ensures more { OnOk result (NamesMore allocs.old allocs.new) }
    ensures texts { OnOk result (AddsTexts (names_of allocs.new) (names_of allocs.old)) }
{
    open_block(tree, wanted.start, ItemBody::TableHead)?;
    let (end, count) = append_cells(source, tree, allocs, &mut table.braces, wanted)?;
    let missing = wanted.most.saturating_sub(count);
    fill_row(tree, end, missing)?;
    close_block(tree, end);
    table.missing_empty_cells = missing;
    Ok(())
}

// Whether a row with `count` cells is kept: it has one, or no row is before it in its table, and no more are missing
// than may be inserted.
fn is_kept(following: bool, count: usize, missing: usize, most: usize) -> bool
    ensures value { result ≡ ((not following || nat_lt 0 count) && nat_le missing most) }
    ensures node_bound { IsTrue result → missing ≤ most }
{
    (!following || count > 0) && missing <= most
}

/// Appends the row that begins at `wanted.start`, after the container prefixes of its line, to the innermost open node.
/// Inserts empty cells at its end if it has too few, and adds their number to that of `table`. Returns the end of the
/// row and its index. Returns `None` and appends nothing if the row has no cell and is not the table's first, or if
/// more than 262,144 cells would be inserted into the table. Adds the texts that tokens name to `allocs`, also those of
/// a row that is not appended. The brace contexts of `table` become those after the row's cells in either case. Fails
/// only if an allocation fails (GFM 4.10).
pub fn parse_table_row_inner(
    source: &Source<'_>,
    tree: &mut Tree<Item>,
    allocs: &mut Allocations<'_>,
    table: &mut TableSoFar,
    wanted: CellsWanted,
) -> Result<Option<(usize, TreeIndex)>, AllocError>
    requires within { wanted.start ≤ length source.now.text.now }
    requires open { IsOpenNode tree.old }
    ensures row { IfOk result (λ row.
        ReadsRow (document source.now.text.now source.now.options (names_of allocs.new)) wanted.most wanted.start
        (open_table tree.old table.old.missing_empty_cells table.old.braces)
        (open_table tree.new table.new.missing_empty_cells table.new.braces) row) }
    ensures more { OnOk result (NamesMore allocs.old allocs.new) }
    ensures texts { OnOk result (AddsTexts (names_of allocs.new) (names_of allocs.old)) }
    ensures fits { IfOk result (λ row. IsCharBoundary source.now.text.now wanted.start → (from : ℕ)
        → from ≤ wanted.start
        → IfSome row (λ r. AddsBetween source.now.text.now from r.0 tree.old tree.new)) }
{
    tree.recall_forest();
    let before = tree.cur();
    open_block(tree, wanted.start, ItemBody::TableRow)?;
    let (end, count) = append_cells(source, tree, allocs, &mut table.braces, wanted)?;
    let missing = wanted.most.saturating_sub(count);
    let most = MAX_AUTOCOMPLETED_CELLS.saturating_sub(table.missing_empty_cells);
    if !is_kept(before.is_some(), count, missing, most) {
        tree.pop();
        drop_beyond(tree, before);
        return Ok(None);
    }
    fill_row(tree, end, missing)?;
    close_block(tree, end);
    table.missing_empty_cells += missing;
    Ok(tree.cur().map(|row| (end, row)))
}
