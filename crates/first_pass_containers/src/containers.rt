//! The open containers: how far a line continues them, and how they are closed and opened (CommonMark 5).

ghost use Rattle.first_pass_containers.specs.Entering.{all_popped, place_entered, ClosesAt, EntersLine};
ghost use Rattle.first_pass_containers.specs.Positions.{LineAt, ReadsTo, may_define};
ghost use Rattle.first_pass_containers.specs.Starts.{start_opened, BeginsNoContainer};
ghost use Rattle.first_pass_kinds.specs.Fronts.{IsFrontAt};
ghost use Rattle.first_pass_lines.specs.Places.{line_end, IsPlaceOf};
ghost use Rattle.first_pass_lists.specs.Closing.{footnote_ended};
ghost use Rattle.first_pass_open.specs.Path.{outer};
ghost use Rattle.std.specs.Prelude.{◌≡◌, ◌<◌, ◌≤◌, ◌-◌, length, None, OnOk, IsUtf8, IsCharBoundary, true};

use crate::openers::{Opener, Start};
use bitflags::Flags;
use first_pass_grammar::AfterMarker;
use first_pass_items::option_set::Options;
use first_pass_kinds::next_front::NextFront;
use first_pass_lines::lines::{begins, scan_blank_line};
use first_pass_lines::places::next_line;
use first_pass_lists::state::PassState;
use first_pass_open::front::{Front, scan_continued_past, scan_front};
use first_pass_open::open_block::append_item;
use first_pass_open::place::Place;
use first_pass_open::prefixes::nodes_to_quote;
use first_pass_open::source::Source;
use first_pass_scan::line_start::LineStart;
use std::alloc::AllocError;

/// Closes the open nodes at `ix`, an offset into the text, except the outermost `kept`. If all are kept, nothing
/// changes (CommonMark 5).
pub fn close_containers(state: &mut PassState, kept: usize, ix: usize)
    requires { kept ≤ length state.old.tree.spine }
    ensures value { state.new ≡ all_popped (length state.old.tree.spine - kept) ix state.old }
    ensures spine { state.new.tree.spine ≡ outer kept state.old.tree.spine }
    ensures kept { ClosesAt state.old state.new kept ix }
{
    while kept < state.tree.spine_len() {
        state.tree.recall_forest();
        state.pop(ix);
    }
}

/// Closes the containers that the line at `start_ix`, an offset into the text, does not continue. Then, if a counting
/// blank line is directly before, closes an innermost footnote definition in the old form. Returns the place after the
/// prefixes of the open containers. If the rest of the line there is blank, reads the line and returns `None`
/// (CommonMark 5, and this project).
#[inline(always)]
pub fn enter_line<'a>(
    state: &mut PassState,
    source: &Source<'a>,
    start_ix: usize,
) -> Option<Place<'a>>
    requires within { start_ix < length source.now.text.now }
    requires boundary { IsCharBoundary source.now.text.now start_ix }
    ensures utf8 { IsUtf8 source.now.text.now }
    ensures value { result ≡ place_entered source.now state.old.tree start_ix }
    ensures entered { EntersLine source.now state.old state.new start_ix result }
{
    let Front {
        continued,
        continues_all: _,
        rest,
    } = scan_front(source, &state.tree, start_ix);
    enter_front(state, source, start_ix, continued, rest)
}

/// The same as `enter_line`, where the front of the line is known. The open containers are not walked over again.
#[inline(always)]
pub fn enter_known<'a>(
    state: &mut PassState,
    source: &Source<'a>,
    start_ix: usize,
    next_front: &NextFront<'a>,
) -> Option<Place<'a>>
    requires within { start_ix < length source.now.text.now }
    requires boundary { IsCharBoundary source.now.text.now start_ix }
    requires front { IsFrontAt source.now state.old.tree start_ix next_front.now.continued next_front.now.rest }
    ensures utf8 { IsUtf8 source.now.text.now }
    ensures value { result ≡ place_entered source.now state.old.tree start_ix }
    ensures entered { EntersLine source.now state.old state.new start_ix result }
{
    enter_front(
        state,
        source,
        start_ix,
        next_front.continued,
        next_front.rest.copy(),
    )
}

// The same as `enter_line`. The line continues the outermost `continued` open nodes, and `rest` follows their prefixes.
#[inline(always)]
fn enter_front<'a>(
    state: &mut PassState,
    source: &Source<'a>,
    start_ix: usize,
    continued: usize,
    rest: LineStart<'a>,
) -> Option<Place<'a>>
    requires within { start_ix < length source.now.text.now }
    requires boundary { IsCharBoundary source.now.text.now start_ix }
    requires front { IsFrontAt source.now state.old.tree start_ix continued rest }
    ensures utf8 { IsUtf8 source.now.text.now }
    ensures value { result ≡ place_entered source.now state.old.tree start_ix }
    ensures entered { EntersLine source.now state.old state.new start_ix result }
{
    // This call gives that the text is UTF-8.
    let _ = source.text.as_bytes();
    close_containers(state, continued, start_ix);
    end_old_footnote(state, source, start_ix);
    if scan_blank_line(rest.left()).is_some() {
        state.read_blank_line();
        return None;
    }
    state.finish_empty_list_item();
    Some(Place {
        line: start_ix,
        rest,
    })
}

/// Skips blank lines from `start`, an offset into the text, as long as they leave the state unchanged. Such a line
/// follows a counting blank line and continues every open node, and no node ends at it. Returns the offset of the next
/// unread line, or of the end of the text. It skips lines only if many containers are open, to save the walk over
/// these; a caller may read the same lines by `enter_line`.
pub fn read_blank_lines<'a>(state: &PassState, source: &Source<'a>, start: usize) -> usize
    requires { IsCharBoundary source.now.text.now start }
    ensures later { start ≤ result }
    ensures boundary { IsCharBoundary source.now.text.now result }
    ensures read { ReadsTo source.now start state.now state.now (LineAt start) (LineAt result) }
{
    if !state.is_unchanged_by_blank_line() {
        return start;
    }
    if state.is_in_footnote() && !source.options.has_gfm_footnotes() {
        return start;
    }
    let nodes_to_quote = nodes_to_quote(&state.tree);
    if nodes_to_quote == state.tree.spine_len() {
        return start;
    }
    let mut next = start;
    while next < source.text.len() {
        let Some(rest) = scan_continued_past(source, &state.tree, next, nodes_to_quote) else {
            return next;
        };
        if scan_blank_line(rest.left()).is_none() {
            return next;
        }
        next = next_line(source.text.as_bytes(), next);
    }
    next
}

// Closes an innermost footnote definition in the old form at the line at `start_ix`, if a counting blank line is
// directly before.
fn end_old_footnote<'a>(state: &mut PassState, source: &Source<'a>, start_ix: usize)
    ensures { state.new ≡ footnote_ended source.now.options start_ix state.old }
{
    // `finish_old_footnote` also checks for a blank line; the check here spares most lines the call.
    if state.blank && !source.options.has_gfm_footnotes() {
        state.finish_old_footnote(start_ix);
    }
}

/// Returns `true` only if no column is owed, and the next byte is no space or tab and begins no container: no list
/// item, block quote, definition or footnote definition. `false` promises nothing (CommonMark 5, and this project).
#[inline(always)]
pub fn begins_no_container<'a>(rest: &LineStart<'a>) -> bool
    ensures { result ≡ true → BeginsNoContainer rest.now }
{
    rest.is_at_plain()
        || rest.is_at_inert() && !begins(b':', rest.left()) && !begins(b'[', rest.left())
}

/// Returns whether a `:` may begin a definition here: the options include definition lists, and a definition may follow
/// the last block (this project).
#[inline(always)]
pub fn may_define(source: &Source<'_>, state: &PassState) -> bool
    ensures { result ≡ may_define source.now.options state.now.tree }
{
    source.options.contains(Options::ENABLE_DEFINITION_LIST) && state.may_begin_definition()
}

/// Opens a container, and the list that it needs. `place` is after its marker, in the line in which it begins. If that
/// line ends after the marker of an item or a definition, the container is recorded as empty so far; the marker of its
/// task, if it has one, is then its only child. Fails only if an allocation fails (CommonMark 5, GFM 5.3, and this
/// project).
#[inline(always)]
pub fn open_start<'a>(
    state: &mut PassState,
    source: &Source<'a>,
    place: &Place<'a>,
    start: Start,
) -> Result<(), AllocError>
    requires { IsPlaceOf source.now.text.now place.now }
    ensures { OnOk result (state.new ≡ start_opened place.now.line start (line_end place.now) state.old) }
{
    match start.opener {
        Opener::Item(marker) => state.open_item(start.start, marker)?,
        Opener::Quote(kind) => state.open_quote(place.line, start.start, kind)?,
        Opener::Definition(indent) => state.open_definition(start.start, indent)?,
    }
    if let AfterMarker::LineEnds(marker) = start.after {
        append_item(&mut state.tree, marker)?;
        state.begin_list_item = Some(next_line_start(source, place));
    }
    Ok(())
}

/// Returns the offset into the text at which the line of a place ends: the start of the next line, or the end of the
/// text (CommonMark 2.1).
pub fn next_line_start<'a>(source: &Source<'a>, place: &Place<'a>) -> usize
    requires { IsPlaceOf source.now.text.now place.now }
    ensures { result ≡ line_end place.now }
{
    source.recall_length();
    next_line(source.text.as_bytes(), place.offset())
}
