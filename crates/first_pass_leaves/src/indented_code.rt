//! Indented code blocks (CommonMark 4.4).

ghost use Rattle.first_pass_grammar.specs.Leaves.{document};
ghost use Rattle.first_pass_grammar.specs.RawLines.{range_text};
ghost use Rattle.first_pass_leaves.specs.RawBlocks.{code_rest_at, IsPlaceAt, AppendsRaw, AddsIndented, after_line_at};
ghost use Rattle.first_pass_lines.specs.Lines.{is_blank_line};
ghost use Rattle.first_pass_lines.specs.Places.{Place, place_at, IsPlaceOf};
ghost use Rattle.first_pass_names.specs.TableEntries.{names_of, NamesMore};
ghost use Rattle.first_pass_open.specs.Path.{path_of, has_quote_after};
ghost use Rattle.first_pass_tree.specs.Forest.{IsChild, kept_after, with_end_at};
ghost use Rattle.std.specs.Prelude.{IsCharBoundary, IsUtf8};
ghost use Rattle.std.specs.Prelude.{◌≡◌, ◌≤◌, length, drop, Some, false, if◌then◌else◌, IfOk, OnOk, IfSome};

use crate::raw_line::{RawKind, RawLine, append_raw_line};
use first_pass_items::item::{Item, ItemBody};
use first_pass_lines::lines::scan_blank_line;
use first_pass_lines::places::next_line;
use first_pass_names::items::Allocations;
use first_pass_open::front::scan_continued_past;
use first_pass_open::open_block::{close_block, open_block};
use first_pass_open::prefixes::nodes_to_quote;
use first_pass_open::source::Source;
use first_pass_scan::line_start::LineStart;
use first_pass_tree::forest::Tree;
use first_pass_tree::tree_index::TreeIndex;
use std::alloc::AllocError;

/// Where indented code begins: at the text of its first line, after four columns.
#[derive(Clone, Copy)]
pub struct CodeStart {
    /// The offset of its first byte.
    pub at: usize,
    /// The columns owed there, at most 3.
    pub owed: usize,
}

// The part of the lines so far that stays if only blank lines follow: its last node, and its end.
#[derive(Clone, Copy)]
struct Kept {
    last: Option<TreeIndex>,
    end: usize,
}

/// Appends the indented code whose first line has its text at `start`. Returns the start of the next unread line, or
/// the end of the text. Also returns whether the last line read is blank: blank lines at the end are no part of the
/// block (CommonMark 4.4). Fails only if an allocation fails.
pub fn parse_indented_code_block<'a>(
    source: &Source<'a>,
    tree: &mut Tree<Item>,
    allocs: &mut Allocations<'a>,
    start: &CodeStart,
) -> Result<(usize, bool), AllocError>
    requires boundary { IsCharBoundary source.now.text.now start.now.at }
    requires owed { start.now.owed ≤ 3 }
    requires code { is_blank_line (drop start.now.at source.now.text.now) ≡ false }
    ensures block { IfOk result (λ answer. (p : Place)
        → IsPlaceAt source.now.text.now start.now.at p → p.rest.owed ≡ start.now.owed
        → AddsIndented (document source.now.text.now source.now.options (names_of allocs.new)) p
        tree.old tree.new answer.0 answer.1) }
    ensures boundary { IfOk result (λ answer. (after_line_at source.now.text.now start.now.at ≤ answer.0)
        × IsCharBoundary source.now.text.now answer.0) }
    ensures more { OnOk result (NamesMore allocs.old allocs.new) }
    ensures utf8 { IsUtf8 source.now.text.now }
{
    tree.recall_forest();
    let text = source.text;
    open_block(tree, start.at, ItemBody::IndentCodeBlock)?;
    tree.recall_forest();
    let nodes_to_quote = nodes_to_quote(tree);
    let mut next = append_code_line(tree, allocs, text, start.at, start.owed)?;
    let mut kept = Kept {
        last: tree.cur(),
        end: next,
    };
    let mut blank = false;
    'lines: while let Some(line_start) = indented_line(source, tree, next, nodes_to_quote) {
        let at = next + line_start.bytes_scanned();
        blank = scan_blank_line(line_start.left()).is_some();
        next = append_code_line(tree, allocs, text, at, line_start.remaining_space())?;
        kept = kept_line(kept, tree, blank, next);
    }
    cut_after(tree, kept);
    close_block(tree, kept.end);
    Ok((next, blank))
}

// Appends the line of code from the offset `at` on, with `owed` columns owed there, and returns the end of the line.
fn append_code_line<'a>(
    tree: &mut Tree<Item>,
    allocs: &mut Allocations<'a>,
    text: &str,
    at: usize,
    owed: usize,
) -> Result<usize, AllocError>
    requires within { at ≤ length text.now }
    requires owed { owed ≤ 3 }
    ensures end { IfOk result (λ next. next ≡ after_line_at text.now at) }
    ensures within { IfOk result (λ next. next ≤ length text.now) }
    ensures line { IfOk result (λ next. AppendsRaw range_text text.now (names_of allocs.new) owed at next tree.old
        tree.new) }
    ensures more { OnOk result (NamesMore allocs.old allocs.new) }
    ensures utf8 { IsUtf8 text.now }
{
    let next = next_line(text.as_bytes(), at);
    let line = RawLine {
        kind: RawKind::Code,
        owed,
        start: at,
        end: next,
    };
    append_raw_line(tree, allocs, text, line)?;
    Ok(next)
}

// The part that stays: the same as before if the last appended line is blank, otherwise everything up to its end.
fn kept_line(kept: Kept, tree: &Tree<Item>, blank: bool, end: usize) -> Kept
    ensures { result ≡ (if blank then kept else record { last = tree.now.current; «end» = end }) }
{
    if blank {
        return kept;
    }
    Kept {
        last: tree.cur(),
        end,
    }
}

// Drops the nodes after the last node that stays. A blank line may have been joined to that node, so its end is set
// again.
fn cut_after(tree: &mut Tree<Item>, kept: Kept)
    requires { IfSome kept.last (λ child. IsChild tree.old child) }
    ensures { IfSome kept.last (λ child. tree.new ≡ with_end_at (kept_after tree.old child) child kept.«end») }
{
    if let Some(child) = kept.last {
        tree.drop_after(child);
        tree.set_end(child, kept.end);
    }
}

// The rest of the line at `start`, after its container prefixes and four columns or fewer, if it continues indented
// code. None of the open nodes after the first `nodes_to_quote`, counted from the outermost, may be a block quote.
fn indented_line<'a>(
    source: &Source<'a>,
    tree: &Tree<Item>,
    start: usize,
    nodes_to_quote: usize,
) -> Option<LineStart<'a>>
    requires quotes { has_quote_after source.now.options tree.now nodes_to_quote ≡ false }
    requires boundary { IsCharBoundary source.now.text.now start }
    ensures value { result ≡ code_rest_at source.now.text.now (path_of source.now.options tree.now) start }
    ensures place { IfSome result (λ line_start. IsPlaceOf source.now.text.now (place_at start line_start)) }
{
    if start == source.text.len() {
        return None;
    }
    let mut line_start = scan_continued_past(source, tree, start, nodes_to_quote)?;
    if !line_start.scan_space(4) && !line_start.is_at_eol() {
        return None;
    }
    Some(line_start)
}
