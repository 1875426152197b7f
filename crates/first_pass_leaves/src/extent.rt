//! The lines of a raw leaf block: those up to the first that ends it (CommonMark 4.5, 4.6).

ghost use Rattle.first_pass_grammar.specs.Extents.{Verdict as Judgement};
ghost use Rattle.first_pass_grammar.specs.Leaves.{document};
ghost use Rattle.first_pass_items.specs.declared.option_set.Options.{Options};
ghost use Rattle.first_pass_leaves.specs.declared.raw_line.RawKind.{RawKind};
ghost use Rattle.first_pass_leaves.specs.RawBlocks.{range_of, said, extent_from, AppendsLines, AreWhole};
ghost use Rattle.first_pass_lines.specs.Places.{Place, place_at, line_place, line_end, IsPlaceOf};
ghost use Rattle.first_pass_names.specs.TableEntries.{names_of, NamesMore};
ghost use Rattle.first_pass_open.specs.Path.{path_of};
ghost use Rattle.first_pass_tokens.specs.TreeTokens.{JoinsNone};
ghost use Rattle.first_pass_tree.specs.Forest.{with_text};
ghost use Rattle.std.specs.Prelude.{◌≡◌, ◌≤◌, ◌⊎◌, ℕ, [], length, drop, true, false, IfOk, OnOk, IsCharBoundary};

use crate::raw_line::{RawKind, RawLine, append_raw_line};
use crate::verdict::Verdict;
use first_pass_items::item::{Item, ItemBody};
use first_pass_lines::places::next_line;
use first_pass_names::items::Allocations;
use first_pass_open::front::scan_continued_past;
use first_pass_open::open_block::BlockLines;
use first_pass_open::prefixes::nodes_to_quote;
use first_pass_open::source::Source;
use first_pass_scan::line_start::LineStart;
use first_pass_tree::forest::Tree;
use std::alloc::AllocError;
use std::ops::Range;

/// A kind of raw leaf block, with its verdicts on the lines that continue the containers around it.
pub trait JudgesLines {
    // The verdict on a line, with the place after its container prefixes.
    ghost judges: { Self → Place → Place → Judgement };

    // The kind of its raw lines.
    ghost kinds: { Self → RawKind };

    /// Returns the kind of its raw lines, which decides how their bytes are appended.
    fn kind(&self) -> RawKind
        ensures { result ≡ kinds self.now };

    /// Returns the end of whole lines of code from the offset `start` on, or `start` if it finds none. It may find
    /// fewer than there are. A whole line does not end with `\r\n`, and belongs to the block from its first byte on if
    /// no container is around the block.
    fn whole_lines(&self, _text: &[u8], start: usize) -> usize
        requires { start ≤ length _text.now }
        ensures { (lines : ℕ) × AreWhole (kinds self.now) (judges self.now) _text.now lines start result }
    {
        start
    }

    /// Returns the verdict on a line of the text. `line` is the range of the line with its line ending, and
    /// `line_start` its rest after the container prefixes. If the line belongs to the block, moves `line_start` to the
    /// text of the line.
    fn judge(&self, text: &str, line: &Range<usize>, line_start: &mut LineStart<'_>) -> Verdict
        requires place { IsPlaceOf text.now (place_at line.now.start line_start.old) }
        requires next { line.now.«end» ≡ line_end (place_at line.now.start line_start.old) }
        requires boundary { IsCharBoundary text.now line.now.«end» }
        ensures verdict { judges self.now (line_place line.now.start (drop line.now.start text.now))
            (place_at line.now.start line_start.old) ≡ said result (place_at line.now.start line_start.new) }
        ensures place { IsPlaceOf text.now (place_at line.now.start line_start.new) }
        ensures next { line.now.«end» ≡ line_end (place_at line.now.start line_start.new) };
}

// Returns `true` only if the open nodes are a fenced code block and no other. Then no container is open.
fn is_outermost_code(tree: &Tree<Item>) -> bool
    ensures { result ≡ true → (options : Options) → path_of options tree.now ≡ [] }
{
    tree.recall_forest();
    match tree.walk_spine() {
        [ix] => matches!(tree[*ix].body, ItemBody::FencedCodeBlock(_)),
        _ => false,
    }
}

// If the block is fenced code that no container is around, appends whole lines from the offset `start` on as one text.
// Returns the end of that text, or `start`.
#[inline(always)]
fn append_whole_lines<J: JudgesLines>(
    judge: &J,
    text: &[u8],
    tree: &mut Tree<Item>,
    start: usize,
) -> Result<usize, AllocError>
    requires { start ≤ length text.now }
    ensures text { IfOk result (λ next. tree.new ≡ with_text tree.old start next false) }
    ensures whole { IfOk result (λ next.
        (lines : ℕ) × AreWhole (J.kinds judge.now) (J.judges judge.now) text.now lines start next) }
    ensures path { IfOk result (λ next.
        (next ≡ start) ⊎ ((options : Options) → path_of options tree.old ≡ [])) }
{
    if !is_outermost_code(tree) {
        return Ok(start);
    }
    let end = judge.whole_lines(text, start);
    tree.append_text(start, end, false)?;
    Ok(end)
}

/// Appends the lines of a block from the line at `start` on, according to `judge`. `start` is an offset into the
/// text. Fails only if an allocation fails.
pub fn read_lines<'a, J: JudgesLines>(
    judge: &J,
    source: &Source<'a>,
    tree: &mut Tree<Item>,
    allocs: &mut Allocations<'a>,
    start: usize,
) -> Result<BlockLines, AllocError>
    requires apart { JoinsNone tree.old }
    requires boundary { IsCharBoundary source.now.text.now start }
    ensures lines { IfOk result (λ lines. AppendsLines (range_of (J.kinds judge.now))
        (document source.now.text.now source.now.options (names_of allocs.new))
        (extent_from source.now.text.now (path_of source.now.options tree.old) (J.judges judge.now) start)
        tree.old tree.new lines.«end» lines.next) }
    ensures boundary { IfOk result (λ lines. (start ≤ lines.next) × IsCharBoundary source.now.text.now lines.next) }
    ensures more { OnOk result (NamesMore allocs.old allocs.new) }
{
    tree.recall_forest();
    let nodes_to_quote = nodes_to_quote(tree);
    let mut ix = append_whole_lines(judge, source.text.as_bytes(), tree, start)?;
    while ix < source.text.len() {
        let Some(mut line_start) = scan_continued_past(source, tree, ix, nodes_to_quote) else {
            return Ok(BlockLines { end: ix, next: ix });
        };
        let next = next_line(source.text.as_bytes(), ix);
        let verdict = judge.judge(source.text, &(ix..next), &mut line_start);
        if let Verdict::Stops(end) = verdict {
            return Ok(BlockLines { end, next: ix });
        }
        if let Verdict::Closes(end) = verdict {
            return Ok(BlockLines { end, next });
        }
        let line = RawLine::from_place(judge.kind(), ix, &line_start, next);
        append_raw_line(tree, allocs, source.text, line)?;
        if let Verdict::IsLast = verdict {
            return Ok(BlockLines { end: next, next });
        }
        ix = next;
    }
    Ok(BlockLines { end: ix, next: ix })
}
