//! The walk over a chain, with one stack of open brackets.

ghost use Rattle.first_pass_inline.specs.declared.mark.MarkKind.TheVariants.{FootnoteReference};
ghost use Rattle.first_pass_inline.specs.declared.pair.Place.{Place};
ghost use Rattle.first_pass_inline.specs.declared.pair.View.TheVariants.{Opens};
ghost use Rattle.first_pass_inline.specs.Look.{AreWhole, Chain, look as look_at, mark_of as mark_from_to};
ghost use Rattle.first_pass_inline.specs.Marks.{AreMarks, note_marks, pair_marks, undefined_mark};
ghost use Rattle.first_pass_inline.specs.Open.{IsBefore, IsPopped, is_fresh as fresh_by, name_after as name_by, pair_by};
ghost use Rattle.first_pass_inline.specs.Sequences.{IsLaterIn, first_of as first_place_of, is_text};
ghost use Rattle.std.specs.Prelude.{◌≡◌, ◌+◌, ◌++◌, ◌||◌, ◌<◌, ◌≤◌, if◌then◌else◌, length, take, drop, ◌∷◌, [], None, IfOk, OnOk};

use crate::chain::InlineChain;
use crate::judge::{is_image, judge, piece_pipe};
use crate::look::look;
use crate::mark::{Link, Mark, MarkKind, Name, Span, Undefined, mark_of};
use crate::pair::{Pair, Place, Verdict, View};
use first_pass_atoms::html_ends::HtmlEnds;
use std::alloc::{AllocError, Global};

/// An open bracket: the index of its mark, the mark, whether the pair before it has looked for this one as its label and
/// found no definition, and the first pipe of the level around it.
#[derive(Clone, Copy, PartialEq, Eq)]
pub(crate) struct Opened {
    index: usize,
    mark: Mark,
    waited: bool,
    pipe: Option<usize>,
}

// The state of the walk: the marks of what was read; the open brackets; how many of these, from the outermost on, hold a
// link, and how many a footnote reference; whether the last pair has looked for the next one as its label and found no
// definition; and the first pipe of the innermost level.
#[derive(Drop)]
pub(crate) struct Walk {
    marks: Vec<Mark>,
    brackets: Vec<Opened>,
    links: usize,
    notes: usize,
    waited: bool,
    pipe: Option<usize>,
    // The ends of raw HTML that were sought in vain.
    ends: HtmlEnds,
}

/// Returns the marks of a chain. Fails only if an allocation fails.
pub fn marks_of(alloc: Global, chain: &InlineChain<'_, '_, '_>) -> Result<Vec<Mark>, AllocError>
    requires { AreWhole chain.now }
    ensures { IfOk result (λ marks. AreMarks chain.now marks.items) }
{
    let mut walk = Walk {
        marks: Vec::new(alloc),
        brackets: Vec::new(alloc),
        links: 0,
        notes: 0,
        waited: false,
        pipe: None,
        ends: HtmlEnds::new(chain.content().as_bytes()),
    };
    let mut at = Place {
        index: 0,
        offset: 0,
    };
    while at.index < chain.tokens().len() {
        at = read(alloc, &mut walk, chain, at)?;
    }
    Ok(walk.marks)
}

// Reads what is at a place, and returns the place after it.
fn read(
    alloc: Global,
    walk: &mut Walk,
    chain: &InlineChain<'_, '_, '_>,
    at: Place,
) -> Result<Place, AllocError>
    requires whole { AreWhole chain.now }
    requires before { IsBefore chain.now walk.old at }
    requires within { at.index < length chain.now.tokens }
    ensures before { IfOk result (λ next. IsBefore chain.now walk.new next) }
    ensures within { IfOk result (λ next. next.index ≤ length chain.now.tokens) }
    ensures further { IfOk result (λ next. at.index < next.index) }
{
    match look(chain, &mut walk.ends, at) {
        View::AtEnd => Ok(Place {
            index: chain.tokens().len(),
            offset: at.offset,
        }),
        View::Piece(mark, next) => {
            walk.waited = false;
            walk.pipe = first_of(walk.pipe, piece_pipe(chain, mark));
            walk.marks.push(mark)?;
            Ok(next)
        }
        View::Opens(mark, next) => {
            open(walk, mark)?;
            Ok(next)
        }
        View::Closes(mark, next) => match walk.brackets.pop() {
            Some(bracket) => close(alloc, walk, chain, bracket, (mark, next)),
            None => {
                walk.waited = false;
                walk.marks.push(mark)?;
                Ok(next)
            }
        },
    }
}

// Reads an opening bracket.
fn open(walk: &mut Walk, mark: Mark) -> Result<(), AllocError>
    ensures { (c : Chain) (at next : Place) → IsBefore c walk.old at → look_at c at ≡ Opens mark next
        → OnOk result (IsBefore c walk.new next) }
{
    walk.brackets.push(Opened {
        index: walk.marks.len(),
        mark,
        waited: walk.waited,
        pipe: walk.pipe,
    })?;
    walk.waited = false;
    walk.pipe = None;
    walk.marks.push(mark)?;
    Ok(())
}

// Reads the closing bracket of a pair, and returns the place after the pair. `bracket` was the innermost open one.
fn close(
    alloc: Global,
    walk: &mut Walk,
    chain: &InlineChain<'_, '_, '_>,
    bracket: Opened,
    closing: (Mark, Place),
) -> Result<Place, AllocError>
    requires whole { AreWhole chain.now }
    requires before { IsPopped chain.now walk.old bracket closing.0 closing.1 }
    requires within { closing.1.index ≤ length chain.now.tokens }
    ensures before { IfOk result (λ next. IsBefore chain.now walk.new next) }
    ensures order { IfOk result (IsLaterIn chain.now closing.1) }
{
    let (closes, end) = closing;
    let pair = pair_of(walk, bracket, closes, end);
    let verdict = judge(alloc, chain, &mut walk.ends, pair)?;
    let depth = walk.brackets.len();
    walk.waited = verdict.waits();
    walk.pipe = first_of(bracket.pipe, text_pipe(verdict, walk.pipe));
    walk.links = below(
        verdict.is_link(pair.is_image),
        pair.holds_link,
        depth,
        walk.links,
    );
    walk.notes = below(verdict.is_note(), pair.holds_note, depth, walk.notes);
    write_pair(
        &mut walk.marks,
        bracket.index,
        bracket.mark,
        closes,
        verdict,
    )?;
    Ok(verdict.past(end))
}

// The pair of an open bracket, which was the innermost one, and a closing one.
fn pair_of(walk: &Walk, bracket: Opened, closes: Mark, end: Place) -> Pair
    requires { bracket.index < length walk.now.marks.items }
    ensures { result ≡ pair_by walk.now bracket closes end }
{
    let depth = walk.brackets.len();
    Pair {
        is_image: is_image(bracket.mark),
        is_inner: is_fresh(walk.brackets.as_slice(), bracket.index),
        waited: bracket.waited,
        text: Span {
            start: bracket.mark.part.end,
            end: closes.part.start,
        },
        end,
        name: name_after(walk.marks.as_slice(), bracket.index),
        holds_link: depth < walk.links,
        holds_note: depth < walk.notes,
        pipe: walk.pipe,
    }
}

// Whether the innermost of these brackets is directly before the one whose mark has this index.
fn is_fresh(brackets: &[Opened], index: usize) -> bool
    ensures { result ≡ fresh_by brackets.now index }
{
    if brackets.is_empty() {
        return false;
    }
    let outer = brackets[brackets.len() - 1].index;
    outer < index && index - outer == 1
}

// The name that the mark after this one has.
fn name_after(marks: &[Mark], index: usize) -> Option<Name>
    requires { index < length marks.now }
    ensures { result ≡ name_by marks.now index }
{
    if index + 1 >= marks.len() {
        return None;
    }
    match marks[index + 1].kind {
        MarkKind::Name(name) => Some(name),
        _ => None,
    }
}

// The number of the brackets that are still open and hold a pair of a kind, after a pair: all, if it is or holds one.
fn below(is: bool, holds: bool, depth: usize, number: usize) -> usize
    ensures { result ≡ (if (is || holds) then depth else number) }
{
    if is || holds { depth } else { number }
}

// The first of two places, if there is one, or the other.
fn first_of(first: Option<usize>, other: Option<usize>) -> Option<usize>
    ensures { result ≡ first_place_of first other }
{
    match first {
        Some(at) => Some(at),
        None => other,
    }
}

// The first pipe in a pair that counts for the level around it.
fn text_pipe(verdict: Verdict, pipe: Option<usize>) -> Option<usize>
    ensures { result ≡ (if is_text verdict then pipe else None) }
{
    if verdict.is_text() { pipe } else { None }
}

// Writes the marks of a pair over that of its bracket and after those of the pieces in it.
fn write_pair(
    marks: &mut Vec<Mark>,
    index: usize,
    opens: Mark,
    closes: Mark,
    verdict: Verdict,
) -> Result<(), AllocError>
    requires { index < length marks.old.items }
    ensures { OnOk result (marks.new.items
        ≡ take index marks.old.items ++ pair_marks opens closes verdict (drop (index + 1) marks.old.items)) }
{
    match verdict {
        Verdict::Text => close_as(marks, index, opens, closes),
        Verdict::Undefined {
            label,
            end,
            is_after,
        } => {
            let count = marks.len() - index + 1;
            let first = undefined_mark(opens, label, end, is_after, count);
            close_as(marks, index, first, closes)
        }
        Verdict::Link {
            target,
            shown,
            past,
        } => {
            let link = Link {
                is_image: is_image(opens),
                target,
                shown,
                end: past.offset,
            };
            let first = mark_at(opens.part, MarkKind::Link(link));
            let last = mark_of(closes.part.start, past.offset, MarkKind::LinkEnd);
            close_as(marks, index, first, last)
        }
        Verdict::FootnoteReference(label) => {
            marks.truncate(index);
            push_note(marks, opens, closes, label)
        }
        Verdict::Name(name) => close_as(
            marks,
            index,
            mark_at(opens.part, MarkKind::Name(name)),
            mark_at(closes.part, MarkKind::NameEnd),
        ),
    }
}

// Writes the marks of the brackets of a pair.
fn close_as(marks: &mut Vec<Mark>, index: usize, first: Mark, last: Mark) -> Result<(), AllocError>
    requires { index < length marks.old.items }
    ensures { OnOk result (marks.new.items
        ≡ take index marks.old.items ++ first ∷ (drop (index + 1) marks.old.items ++ last ∷ [])) }
{
    marks[index] = first;
    marks.push(last)?;
    Ok(())
}

// Appends the marks of a footnote reference.
fn push_note(
    marks: &mut Vec<Mark>,
    opens: Mark,
    closes: Mark,
    label: Span,
) -> Result<(), AllocError>
    ensures { OnOk result (marks.new.items ≡ marks.old.items ++ note_marks opens closes label) }
{
    let start = opens.part.start;
    if !is_image(opens) {
        marks.push(note_mark(start, closes, label))?;
        return Ok(());
    }
    let bracket = opens.part.end.saturating_sub(1);
    marks.push(mark_of(start, bracket, opens.kind))?;
    marks.push(note_mark(bracket, closes, label))?;
    Ok(())
}

// The mark of a footnote reference from a place on.
fn note_mark(start: usize, closes: Mark, label: Span) -> Mark
    ensures { result ≡ mark_from_to start closes.part.«end» (FootnoteReference label) }
{
    mark_of(start, closes.part.end, MarkKind::FootnoteReference(label))
}

// The mark of the opening bracket of an undefined reference.
fn undefined_mark(opens: Mark, label: Span, end: usize, is_after: bool, count: usize) -> Mark
    ensures { result ≡ undefined_mark opens label end is_after count }
{
    let wait = if is_after { count } else { 0 };
    mark_at(
        opens.part,
        MarkKind::Undefined(Undefined { label, end, wait }),
    )
}

// The mark of a part.
fn mark_at(part: Span, kind: MarkKind) -> Mark
    ensures { result ≡ record { part = part; kind = kind } }
{
    Mark { part, kind }
}
