//! The cells of a row, one by one (GFM 4.10).

ghost use Rattle.first_pass_grammar.specs.Leaves.{document};
ghost use Rattle.first_pass_grammar.specs.Tables.{cell_start, cell_text};
ghost use Rattle.first_pass_lines.specs.Lines.{eol_len};
ghost use Rattle.first_pass_names.specs.TableEntries.{names_of, AddsTexts, NamesMore};
ghost use Rattle.first_pass_tables.specs.Appends.{AddsCell, empty_cell, without_after};
ghost use Rattle.first_pass_tokens.specs.LineTokens.{spot};
ghost use Rattle.first_pass_tokens.specs.TreeTokens.{chained};
ghost use Rattle.first_pass_tree.specs.Forest.{IsChild};
ghost use Rattle.first_pass_walk.specs.Walk.{MarksSpecial};
ghost use Rattle.std.specs.Prelude.{◌≡◌, ◌+◌, ◌≤◌, true, None, length, drop, replicate, IfOk, OnOk, IfSome};

use first_pass_items::item::{Item, ItemBody};
use first_pass_lines::lines::{begins, scan_eol, scan_whitespace_no_nl};
use first_pass_lines::places::rest_of;
use first_pass_names::items::Allocations;
use first_pass_open::open_block::{close_block, open_block};
use first_pass_open::source::Source;
use first_pass_tokens::braces::BraceContexts;
use first_pass_tokens::line::scan_plain_content;
use first_pass_tokens::pieces::Content;
use first_pass_tree::forest::Tree;
use first_pass_tree::tree_index::TreeIndex;
use std::alloc::AllocError;

/// Returns the start of the cell at the offset `at` into `bytes`: after its pipe, if there is one (GFM 4.10).
pub fn cell_start(bytes: &[u8], at: usize) -> usize
    requires { at ≤ length bytes.now }
    ensures value { result ≡ cell_start bytes.now at }
    ensures within { result ≤ length bytes.now }
    ensures order { at ≤ result }
{
    if begins(b'|', rest_of(bytes, at)) {
        at + 1
    } else {
        at
    }
}

/// The start of a cell, and the start of its content: offsets into the text.
#[derive(Clone, Copy)]
pub struct CellStart {
    pub at: usize,
    pub content: usize,
    /// If the row ends at the start of the content, and has no cell here: the length of the line ending there, or 0 at
    /// the end of the text.
    pub eol: Option<usize>,
}

/// Returns the start of the cell at the offset `at` into `bytes`, the start of its content after the white space there,
/// and whether the row ends there instead (GFM 4.10).
#[inline(always)]
pub fn cell_at(bytes: &[u8], at: usize) -> CellStart
    requires { at ≤ length bytes.now }
    ensures begins { result.at ≡ cell_start bytes.now at }
    ensures content { result.content ≡ cell_text bytes.now at }
    ensures eol { result.eol ≡ eol_len (drop result.content bytes.now) }
    ensures fits { IfSome result.eol (λ n. result.content + n ≤ length bytes.now) }
    ensures within { result.content ≤ length bytes.now }
    ensures order { (at ≤ result.at) × (result.at ≤ result.content) }
{
    let cell = cell_start(bytes, at);
    // The most frequent cases come first. Two bytes are left, except at the end of the text.
    match rest_of(bytes, cell) {
        [b' ', next, ..] if *next > b' ' => start_in_row(cell, cell + 1),
        [first, _, ..] if *first > b' ' => start_in_row(cell, cell),
        [b'\n', _, ..] => CellStart {
            at: cell,
            content: cell,
            eol: Some(1),
        },
        left => {
            let content = cell + scan_whitespace_no_nl(left);
            CellStart {
                at: cell,
                content,
                eol: scan_eol(rest_of(bytes, content)),
            }
        }
    }
}

// The starts of a cell and of its content, if the row does not end there.
#[inline(always)]
fn start_in_row(at: usize, content: usize) -> CellStart
    ensures { result ≡ record { at = at; content = content; eol = None } }
{
    CellStart {
        at,
        content,
        eol: None,
    }
}

/// Appends a cell with its tokens to the innermost open node, and returns the offset at which it ends. Adds the texts
/// that tokens name to `allocs`. `braces`, the brace contexts before the cell, become those after it. Fails only if an
/// allocation fails (GFM 4.10).
#[inline(always)]
pub fn append_table_cell(
    source: &Source<'_>,
    tree: &mut Tree<Item>,
    allocs: &mut Allocations<'_>,
    braces: &mut BraceContexts,
    cell: &CellStart,
) -> Result<usize, AllocError>
    requires within { cell.now.content ≤ length source.now.text.now }
    ensures cell { IfOk result (λ stop.
        AddsCell (document source.now.text.now source.now.options (names_of allocs.new)) cell.now.at
        (spot cell.now.content braces.old) tree.old tree.new (spot stop braces.new)) }
    ensures more { OnOk result (NamesMore allocs.old allocs.new) }
    ensures texts { OnOk result (AddsTexts (names_of allocs.new) (names_of allocs.old)) }
{
    let content = Content {
        options: source.options,
        whole: source.text,
        special: &source.special,
        start: cell.content,
        end: None,
        row: true,
    };
    // Most cells are plain text.
    if let Some(plain) = scan_plain_content(content) {
        let item = Item {
            start: cell.at,
            end: plain.end,
            body: ItemBody::TableCell,
        };
        tree.append_with_text(item, cell.content, plain.token_end)?;
        return Ok(plain.end);
    }
    append_tokens_cell(content, tree, allocs, braces, cell.at)
}

// The same, for a cell with any tokens, given its content and the offset at which it starts.
#[inline(never)]
fn append_tokens_cell(
    content: Content<'_>,
    tree: &mut Tree<Item>,
    allocs: &mut Allocations<'_>,
    braces: &mut BraceContexts,
    start: usize,
) -> Result<usize, AllocError>
    requires whole { content.«end» ≡ None }
    requires row { content.row ≡ true }
    requires within { content.start ≤ length content.whole.now }
    requires marks { MarksSpecial content.special.now content.options }
    ensures cell { IfOk result (λ stop.
        AddsCell (document content.entry.whole.now content.entry.options (names_of allocs.new)) start
        (spot content.entry.start braces.old) tree.old tree.new (spot stop braces.new)) }
    ensures more { OnOk result (NamesMore allocs.old allocs.new) }
    ensures texts { OnOk result (AddsTexts (names_of allocs.new) (names_of allocs.old)) }
{
    tree.recall_forest();
    open_block(tree, start, ItemBody::TableCell)?;
    let end = allocs.append_cell(content, tree, braces)?;
    close_block(tree, end);
    Ok(end)
}

/// Drops everything after a child of the innermost open node; without a child, all descendants of that node.
pub fn drop_beyond(tree: &mut Tree<Item>, last: Option<TreeIndex>)
    requires { IfSome last (λ ix. IsChild tree.old ix) }
    ensures { tree.new ≡ without_after tree.old last }
{
    match last {
        Some(ix) => tree.drop_after(ix),
        None => {
            if let Some(ix) = tree.peek_up() {
                tree.drop_children(ix);
            }
        }
    }
}

/// Fills a row: inserts `missing` empty cells at the offset where it ends. Fails only if an allocation fails (GFM
/// 4.10).
pub fn fill_row(tree: &mut Tree<Item>, end: usize, missing: usize) -> Result<(), AllocError>
    ensures { OnOk result (tree.new ≡ chained tree.old (replicate missing (empty_cell end))) }
{
    let mut left = missing;
    while 0 < left {
        tree.append(Item {
            start: end,
            end,
            body: ItemBody::TableCell,
        })?;
        left -= 1;
    }
    Ok(())
}
