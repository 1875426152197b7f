//! HTML blocks (CommonMark 4.6).

ghost use Rattle.first_pass_grammar.specs.HtmlBlocks.{holds_end, IsHtml};
ghost use Rattle.first_pass_grammar.specs.Leaves.{document};
ghost use Rattle.first_pass_grammar.specs.RawLines.{range_html};
ghost use Rattle.first_pass_html.specs.Ends.{condition_of};
ghost use Rattle.first_pass_items.specs.declared.item.ItemBody.TheVariants.{HtmlBlock};
ghost use Rattle.first_pass_items.specs.declared.option_set.Options.{Options};
ghost use Rattle.first_pass_leaves.specs.RawBlocks.{IsPlaceAt, AppendsRaw, AddsRaw, html_to_end, html_to_blank};
ghost use Rattle.first_pass_leaves.specs.RawBlocks.{after_line_at};
ghost use Rattle.first_pass_lines.specs.Places.{Place};
ghost use Rattle.first_pass_names.specs.TableEntries.{names_of, NamesMore};
ghost use Rattle.first_pass_open.specs.OpenBlock.{opened_block};
ghost use Rattle.first_pass_open.specs.Path.{path_of};
ghost use Rattle.first_pass_tokens.specs.TreeTokens.{JoinsNone};
ghost use Rattle.std.specs.Prelude.{◌≡◌, ◌≤◌, IfOk, OnOk, IsUtf8, IsCharBoundary};

use crate::extent::{JudgesLines, read_lines};
use crate::raw_line::{RawKind, RawLine, append_raw_line};
use crate::verdict::Verdict;
use first_pass_html::ends::{HtmlEnd, holds_raw_end_tag};
use first_pass_items::item::{Item, ItemBody};
use first_pass_lines::lines::scan_blank_line;
use first_pass_lines::places::next_line;
use first_pass_names::items::Allocations;
use first_pass_open::open_block::{close_block, open_block};
use first_pass_open::source::Source;
use first_pass_scan::line_start::LineStart;
use first_pass_tree::forest::Tree;
use std::alloc::AllocError;
use std::ops::Range;

/// The start of an HTML block.
#[derive(Clone, Copy)]
pub struct HtmlStart {
    /// The offset of its first byte.
    pub at: usize,
    /// The columns before it, at most 3.
    pub columns: usize,
}

/// Appends the HTML block of types 1 to 5 that begins at `start`, up to the first line that meets its end
/// condition. Returns the start of the next unread line, or the end of the text (CommonMark 4.6). Fails only if an
/// allocation fails.
pub fn parse_html_block_type_1_to_5<'a>(
    source: &Source<'a>,
    tree: &mut Tree<Item>,
    allocs: &mut Allocations<'a>,
    start: &HtmlStart,
    html_end: HtmlEnd,
) -> Result<usize, AllocError>
    requires boundary { IsCharBoundary source.now.text.now start.now.at }
    requires columns { start.now.columns ≤ 3 }
    ensures block { IfOk result (λ next. (p : Place) → IsPlaceAt source.now.text.now start.now.at p
        → let e = html_to_end source.now.text.now (path_of source.now.options tree.old) (condition_of html_end) p in
        AddsRaw (document source.now.text.now source.now.options (names_of allocs.new)) (λ d.
        IsHtml d start.now.at start.now.columns e.places e.«end») e.left tree.old tree.new next) }
    ensures boundary { IfOk result (λ next. (after_line_at source.now.text.now start.now.at ≤ next)
        × IsCharBoundary source.now.text.now next) }
    ensures more { OnOk result (NamesMore allocs.old allocs.new) }
    ensures utf8 { IsUtf8 source.now.text.now }
{
    let end = open_html_block(tree, allocs, source.text, start)?;
    if holds_end(&source.text[start.at..end], html_end) {
        close_block(tree, end);
        return Ok(end);
    }
    let lines = read_lines(&ToEnd { html_end }, source, tree, allocs, end)?;
    close_block(tree, lines.end);
    Ok(lines.next)
}

/// Appends the HTML block of types 6 and 7 that begins at `start`, up to a blank line. Returns the start of the
/// next unread line, or the end of the text. The block may end after the container prefixes on the blank line, past
/// the returned offset (CommonMark 4.6). Fails only if an allocation fails.
pub fn parse_html_block_type_6_or_7<'a>(
    source: &Source<'a>,
    tree: &mut Tree<Item>,
    allocs: &mut Allocations<'a>,
    start: &HtmlStart,
) -> Result<usize, AllocError>
    requires boundary { IsCharBoundary source.now.text.now start.now.at }
    requires columns { start.now.columns ≤ 3 }
    ensures block { IfOk result (λ next. (p : Place) → IsPlaceAt source.now.text.now start.now.at p
        → let e = html_to_blank source.now.text.now (path_of source.now.options tree.old) p in
        AddsRaw (document source.now.text.now source.now.options (names_of allocs.new)) (λ d.
        IsHtml d start.now.at start.now.columns e.places e.«end») e.left tree.old tree.new next) }
    ensures boundary { IfOk result (λ next. (after_line_at source.now.text.now start.now.at ≤ next)
        × IsCharBoundary source.now.text.now next) }
    ensures more { OnOk result (NamesMore allocs.old allocs.new) }
    ensures utf8 { IsUtf8 source.now.text.now }
{
    let next = open_html_block(tree, allocs, source.text, start)?;
    let lines = read_lines(&ToBlank, source, tree, allocs, next)?;
    close_block(tree, lines.end);
    Ok(lines.next)
}

// Opens the HTML block that begins at `start`, and appends its first line. Returns the end of that line.
#[inline(always)]
fn open_html_block<'a>(
    tree: &mut Tree<Item>,
    allocs: &mut Allocations<'a>,
    text: &str,
    start: &HtmlStart,
) -> Result<usize, AllocError>
    requires boundary { IsCharBoundary text.now start.now.at }
    requires columns { start.now.columns ≤ 3 }
    ensures next { IfOk result (λ next.
        (next ≡ after_line_at text.now start.now.at) × IsCharBoundary text.now next) }
    ensures line { IfOk result (λ next.
        AppendsRaw range_html text.now (names_of allocs.new) start.now.columns start.now.at next
        (opened_block tree.old start.now.at HtmlBlock) tree.new) }
    ensures path { OnOk result ((options : Options) → path_of options tree.new ≡ path_of options tree.old) }
    ensures apart { OnOk result (JoinsNone tree.new) }
    ensures more { OnOk result (NamesMore allocs.old allocs.new) }
    ensures utf8 { IsUtf8 text.now }
{
    tree.recall_forest();
    open_block(tree, start.at, ItemBody::HtmlBlock)?;
    tree.recall_forest();
    let next = next_line(text.as_bytes(), start.at);
    let line = RawLine {
        kind: RawKind::Html,
        owed: start.columns,
        start: start.at,
        end: next,
    };
    append_raw_line(tree, allocs, text, line)?;
    Ok(next)
}

// Whether the line contains the end of a block of types 1 to 5.
fn holds_end(line: &str, html_end: HtmlEnd) -> bool
    ensures { result ≡ holds_end (condition_of html_end) line.now }
{
    match html_end {
        HtmlEnd::AnyRawTag => holds_raw_end_tag(line.as_bytes()),
        HtmlEnd::Text(text) => line.contains(text),
    }
}

// An HTML block up to the first line that contains its end.
#[derive(Clone, Copy)]
struct ToEnd {
    html_end: HtmlEnd,
}

impl JudgesLines for ToEnd {
    ghost use Rattle.first_pass_grammar.specs.HtmlBlocks.{tag_judge};
    ghost use Rattle.first_pass_html.specs.Ends.{condition_of};
    ghost use Rattle.first_pass_leaves.specs.declared.raw_line.RawKind.TheVariants.{Html};

    ghost judges = { λ block. tag_judge (condition_of block.html_end) };

    ghost kinds = { λ block. Html };

    fn kind(&self) -> RawKind {
        RawKind::Html
    }

    #[inline(always)]
    fn judge(&self, text: &str, line: &Range<usize>, line_start: &mut LineStart<'_>) -> Verdict {
        let at = line.start + line_start.bytes_scanned();
        if at == text.len() {
            return Verdict::Closes(at);
        }
        if holds_end(&text[at..line.end], self.html_end) {
            Verdict::IsLast
        } else {
            Verdict::GoesOn
        }
    }
}

// An HTML block up to a blank line.
#[derive(Clone, Copy)]
struct ToBlank;

impl JudgesLines for ToBlank {
    ghost use Rattle.first_pass_grammar.specs.HtmlBlocks.{blank_judge};
    ghost use Rattle.first_pass_leaves.specs.declared.raw_line.RawKind.TheVariants.{Html};

    ghost judges = { λ block. blank_judge };

    ghost kinds = { λ block. Html };

    fn kind(&self) -> RawKind {
        RawKind::Html
    }

    #[inline(always)]
    fn judge(&self, _text: &str, line: &Range<usize>, line_start: &mut LineStart<'_>) -> Verdict {
        if line_start.is_at_eol() {
            return Verdict::Stops(line.start);
        }
        if scan_blank_line(line_start.left()).is_some() {
            return Verdict::Stops(line.start + line_start.bytes_scanned());
        }
        Verdict::GoesOn
    }
}
