//! The lines of a paragraph or of a setext heading.

ghost use Rattle.first_pass_grammar.specs.Leaves.{document};
ghost use Rattle.first_pass_grammar.specs.Texts.{by_backslash};
ghost use Rattle.first_pass_kinds.specs.Fronts.{KnowsFront};
ghost use Rattle.first_pass_leaves.specs.Appends.{AppendsLines, AddsPlainText, with_closed_break};
ghost use Rattle.first_pass_leaves.specs.LineBreaks.{break_item};
ghost use Rattle.first_pass_names.specs.TableEntries.{names_of, NamesMore};
ghost use Rattle.first_pass_open.specs.Between.{AddsBetween, MarkerIsInItem, MarkerBetween};
ghost use Rattle.first_pass_tokens.specs.TreeTokens.{JoinsNone};
ghost use Rattle.first_pass_tree.specs.Forest.{is_text};
ghost use Rattle.std.specs.Prelude.{◌≡◌, ◌<◌, ◌^◌, ℕ, false, true, length, min, None, IfOk, IfSome, OnOk, IsUtf8, IsCharBoundary};

use crate::attributes::{Underlined, make_heading};
use crate::line_break::{LineBreak, break_item, held_break};
use first_pass_items::item::{HeadingLevel, Item, ItemBody};
use first_pass_kinds::interrupt::{NextLine, scan_next_line};
use first_pass_kinds::next_front::NextFront;
use first_pass_lines::places::next_line;
use first_pass_names::items::Allocations;
use first_pass_open::open_block::{append_item, close_block, open_block};
use first_pass_open::source::Source;
use first_pass_tokens::braces::BraceContexts;
use first_pass_tokens::pieces::Content;
use first_pass_tree::forest::Tree;
use std::alloc::AllocError;
use std::cmp::min;

// Whether a backslash makes the break.
fn is_by_backslash(line_break: Option<Item>) -> bool
    ensures { result ≡ by_backslash line_break }
{
    match line_break {
        Some(line_break) => matches!(line_break.body, ItemBody::HardBreak(true)),
        None => false,
    }
}

/// Ends a block's last line: a backslash that would make a hard break there becomes text.
pub fn append_last_backslash(
    tree: &mut Tree<Item>,
    line_break: Option<Item>,
) -> Result<(), AllocError>
    requires { IfSome line_break (λ x. x.start < 2 ^ 63) }
    ensures { OnOk result (tree.new ≡ with_closed_break tree.old line_break) }
{
    match line_break {
        Some(
            Item {
                start,
                body: ItemBody::HardBreak(true),
                ..
            },
        ) => {
            tree.append_text(start, start + 1, false)?;
            Ok(())
        }
        _ => Ok(()),
    }
}

// What follows the lines of paragraph text. `next` is the start of the next line, or the end of the whole text.
// `line_break` is the break after the last line. `underline` is the level of the heading, if the next line is an
// underline.
#[derive(Clone, Copy, Drop)]
struct TextEnd {
    next: usize,
    line_break: Option<Item>,
    underline: Option<HeadingLevel>,
}

// The end of paragraph text before the line at `next`, with the break after its last line.
#[inline(always)]
fn end_before(next: usize, held: Option<LineBreak>, underline: Option<HeadingLevel>) -> TextEnd
    ensures { result ≡ record { next = next; line_break = break_item held; underline = underline } }
{
    TextEnd {
        next,
        line_break: break_item(held),
        underline,
    }
}

/// The start of the text of a paragraph or a setext heading.
#[derive(Clone, Copy, Drop)]
pub struct TextStart<'m> {
    /// The offset into the whole text at which it begins.
    pub at: usize,
    /// The task list item marker before it, if there is one.
    pub marker: &'m Option<Item>,
}

// The paragraph was closed, so the front may count only the nodes that are still open.
#[inline(always)]
fn limit_to_open(tree: &Tree<Item>, next_front: &mut NextFront<'_>)
    ensures { next_front.new ≡ record next_front.old {
      continued = min next_front.old.continued (length tree.now.spine);
    } }
{
    next_front.continued = min(next_front.continued, tree.spine_len());
}

/// Appends a paragraph or a setext heading to the innermost open node. The task list item marker before it, if there is
/// one, becomes its first child. Returns the start of the line after it, or the end of the text (CommonMark 4.3, 4.8).
/// Adds the attributes of a heading, and the texts that tokens name, to `allocs`. `next_front` has the front of that
/// line afterwards, or no front.
pub fn parse_paragraph<'a>(
    source: &Source<'a>,
    tree: &mut Tree<Item>,
    allocs: &mut Allocations<'a>,
    text: TextStart<'_>,
    next_front: &mut NextFront<'a>,
) -> Result<usize, AllocError>
    requires boundary { IsCharBoundary source.now.text.now text.at }
    requires marker { IfSome text.marker.now (λ x. is_text x.body ≡ false) }
    ensures more { OnOk result (NamesMore allocs.old allocs.new) }
    ensures block { IfOk result (λ next.
        AddsPlainText (document source.now.text.now source.now.options (names_of allocs.new)) text.entry.at
        text.entry.marker.now tree.old tree.new next) }
    ensures fits { IfOk result (λ next. MarkerIsInItem tree.old text.entry.marker.now → (from : ℕ)
        → MarkerBetween source.now.text.now from text.entry.at text.entry.marker.now
        → AddsBetween source.now.text.now from next tree.old tree.new) }
    ensures front { IfOk result (λ next. KnowsFront source.now tree.new next next_front.new) }
{
    tree.recall_forest();
    let node_ix = open_block(tree, text.at, ItemBody::Paragraph)?;
    append_item(tree, *text.marker)?;
    let end = append_text_lines(source, tree, allocs, text.at, next_front)?;
    let Some(level) = end.underline else {
        append_last_backslash(tree, end.line_break)?;
        close_block(tree, end.next);
        limit_to_open(tree, next_front);
        return Ok(end.next);
    };
    let underlined = Underlined {
        level,
        broken: is_by_backslash(end.line_break),
    };
    make_heading(source, tree, allocs, node_ix, underlined)?;
    append_last_backslash(tree, end.line_break)?;
    let next = next_line(source.text.as_bytes(), end.next);
    close_block(tree, next);
    Ok(next)
}

// Appends to the innermost open node the chain of the paragraph text that begins at `start`, without the break after
// its last line. Adds the texts that its tokens name to `allocs`. Afterwards `next_front` has the front of the next
// line, or no front; it has none if that line is the underline.
fn append_text_lines<'a>(
    source: &Source<'a>,
    tree: &mut Tree<Item>,
    allocs: &mut Allocations<'a>,
    start: usize,
    next_front: &mut NextFront<'a>,
) -> Result<TextEnd, AllocError>
    requires boundary { IsCharBoundary source.now.text.now start }
    requires apart { JoinsNone tree.old }
    ensures utf8 { OnOk result (IsUtf8 source.now.text.now) }
    ensures more { OnOk result (NamesMore allocs.old allocs.new) }
    ensures lines { IfOk result (λ end.
        AppendsLines (document source.now.text.now source.now.options (names_of allocs.new)) start
        tree.old tree.new end) }
    ensures known { IfOk result (λ end. next_front.new.is_known ≡ true → end.underline ≡ None) }
    ensures front { IfOk result (λ end. KnowsFront source.now tree.new end.next next_front.new) }
{
    source.recall_length();
    tree.recall_forest();
    let mut braces = BraceContexts::new();
    let mut ix = start;
    'lines: loop {
        let content = Content {
            options: source.options,
            whole: source.text,
            special: &source.special,
            start: ix,
            end: None,
            row: false,
        };
        let (next, line_break) = allocs.append_line(content, tree, &mut braces)?;
        let held = held_break(line_break);
        match scan_next_line(source, next, tree, next_front)? {
            NextLine::More(at) => {
                append_item(tree, break_item(held))?;
                ix = at;
            }
            NextLine::Underline(level) => return Ok(end_before(next, held, Some(level))),
            NextLine::NotText => return Ok(end_before(next, held, None)),
        }
    }
}
