//! The part of a link reference definition after its colon.

ghost use Rattle.first_pass_definitions.specs.Found.{AreInOrder, HasTitle, IsTarget};
ghost use Rattle.first_pass_definitions.specs.Memory.{IsEscaped, TargetAsks, after_asks};
ghost use Rattle.first_pass_definitions.specs.Reading.{IsReadText, IsReadTitle};
ghost use Rattle.first_pass_grammar.specs.Definitions.{target_at, after_destination, title_after, title_distance};
ghost use Rattle.first_pass_items.specs.CowText.{text_of};
ghost use Rattle.first_pass_lines.specs.Lines.{is_line_end};
ghost use Rattle.first_pass_links.specs.Escapes.{unescaped};
ghost use Rattle.first_pass_open.specs.Path.{context_of};
ghost use Rattle.first_pass_tree.specs.Forest.{in_table};
ghost use Rattle.std.specs.Box.{boxed_str_bytes};
ghost use Rattle.std.specs.List.{list_any};
ghost use Rattle.std.specs.Prelude.{◌≡◌, ℕ, ◌+◌, ◌≤◌, List, Option, drop, None, Some, IfOk, IfSome, OnErr, true, ◌⊎◌, IsSomeAnd, MatchOption, IsCharBoundary};

use crate::space::scan_refdef_space;
use crate::title::scan_refdef_title;
use first_pass_items::cow_str::CowStr;
use first_pass_items::item::Item;
use first_pass_labels::label_table::{LinkDef, LinkPlaces};
use first_pass_lines::lines::scan_blank_line;
use first_pass_lines::places::rest_of;
use first_pass_links::destination::scan_link_dest;
use first_pass_links::escape::unescape;
use first_pass_open::source::Source;
use first_pass_tree::forest::Tree;
use std::alloc::{AllocError, Global};
use std::boxed::BoxedStr;

// The deepest nesting of parentheses in a destination.
const DEEPEST_NESTING: usize = 32;

/// Reads the part of a definition after its colon, from the offset `start` into the text on. The colon is directly
/// before `start`. The part is white space, a destination, and optionally white space and a title. White space may
/// include one line ending. Returns its number of bytes from `start` on, and the definition, whose destination and
/// title are unescaped. Its span begins at `span_start`, and its label ends two bytes before `start`.
///
/// Returns `None` if there is no destination. Also returns `None` if something other than white space or a line ending
/// directly follows it, or if neither a title nor a blank rest of its line follows it. Fails only if an allocation
/// fails. That can happen only in three cases: unescaping changes the destination or the title; what begins like a
/// title continues after a line ending; or a line after a line ending may head a table (CommonMark 4.7).
pub fn scan_refdef<'a>(
    source: &Source<'a>,
    tree: &Tree<Item>,
    span_start: usize,
    start: usize,
) -> Result<Option<(usize, LinkDef<'a>)>, AllocError>
    requires { IsCharBoundary source.now.text.now start }
    ensures value { IfOk result (λ answer. MatchOption
        (target_at (context_of source.now.options tree.now) (drop start source.now.text.now)) (answer ≡ None)
        (λ target. IsSomeAnd answer (IsTarget (in_table tree.now.nodes tree.now.spine) span_start start target))) }
    ensures fits { IfOk result (λ answer. IfSome answer (λ part. IsCharBoundary source.now.text.now (start + part.0))) }
    ensures places { IfOk result (λ answer. IfSome answer (λ part. AreInOrder source.now.text.now start part.1)) }
    ensures err { OnErr result (TargetAsks (in_table tree.now.nodes tree.now.spine)
        (context_of source.now.options tree.now) (drop start source.now.text.now)) }
{
    source.recall_length();
    let Some((dest_start, _)) = scan_refdef_space(source, tree, start)? else {
        return Ok(None);
    };
    let Some((dest_len, dest)) = scan_link_dest(source.text, dest_start, DEEPEST_NESTING) else {
        return Ok(None);
    };
    let dest_end = dest_start + dest_len;
    let Some((title_start, end, title)) = scan_after_destination(source, tree, dest_end)? else {
        return Ok(None);
    };
    let in_table = tree.is_in_table();
    let definition = LinkDef {
        dest: unescape(source.alloc, dest, in_table)?,
        title: unescape_title(source.alloc, title, in_table)?,
        span: span_start..end,
        places: LinkPlaces {
            label_end: start.saturating_sub(2),
            dest_start,
            dest_end,
            title_start,
        },
    };
    Ok(Some((end - start, definition)))
}

// Reads the end of a definition after its destination, which ends at the offset `at`. Returns three things: the start
// of the title (the end of the definition if there is no title), the end of the definition, and the title, if any.
fn scan_after_destination<'a>(
    source: &Source<'a>,
    tree: &Tree<Item>,
    at: usize,
) -> Result<Option<(usize, usize, Option<CowStr<'a>>)>, AllocError>
    requires { IsCharBoundary source.now.text.now at }
    ensures value { IfOk result (λ answer. MatchOption
        (after_destination (context_of source.now.options tree.now) (drop at source.now.text.now))
        (answer ≡ None)
        (λ further. IsSomeAnd answer (λ found. (found.1 ≡ at + further.0) × IsReadTitle further.1 found.2
        × (found.0 ≡ at + title_distance (context_of source.now.options tree.now)
        (drop at source.now.text.now) further.1)))) }
    ensures fits { IfOk result (λ answer. IfSome answer (λ found. (at ≤ found.0) × (found.0 ≤ found.1)
        × IsCharBoundary source.now.text.now found.0 × IsCharBoundary source.now.text.now found.1)) }
    ensures err { OnErr result (after_asks (context_of source.now.options tree.now)
        (drop at source.now.text.now) ≡ true) }
{
    if let Some((start, end, title)) = scan_title_after(source, tree, at)? {
        return Ok(Some((start, end, Some(title))));
    }
    if scan_blank_line(rest_of(source.text.as_bytes(), at)).is_some() {
        return Ok(Some((at, at, None)));
    }
    Ok(None)
}

// Returns the title after a destination that ends at the offset `at`: its start, its end, and its text. White space
// separates the two, and the rest of the line after the title is blank.
fn scan_title_after<'a>(
    source: &Source<'a>,
    tree: &Tree<Item>,
    at: usize,
) -> Result<Option<(usize, usize, CowStr<'a>)>, AllocError>
    requires { IsCharBoundary source.now.text.now at }
    ensures value { IfOk result (λ answer. MatchOption
        (title_after (context_of source.now.options tree.now) (drop at source.now.text.now))
        (answer ≡ None)
        (λ title. IsSomeAnd answer (λ found. (found.1 ≡ at + title.0) × IsReadText title.1 found.2
        × (found.0 ≡ at + title_distance (context_of source.now.options tree.now)
        (drop at source.now.text.now) (Some title.1))))) }
    ensures fits { IfOk result (λ answer. IfSome answer (λ found. (at ≤ found.0) × (found.0 ≤ found.1)
        × IsCharBoundary source.now.text.now found.0 × IsCharBoundary source.now.text.now found.1)) }
    ensures err { OnErr result (after_asks (context_of source.now.options tree.now)
        (drop at source.now.text.now) ≡ true) }
{
    source.recall_length();
    let Some((start, _)) = scan_refdef_space(source, tree, at)? else {
        return Ok(None);
    };
    if start == at {
        return Ok(None);
    }
    let Some((len, title)) = scan_refdef_title(source, tree, &source.text[start..])? else {
        return Ok(None);
    };
    let end = start + len;
    if scan_blank_line(rest_of(source.text.as_bytes(), end)).is_none() {
        return Ok(None);
    }
    Ok(Some((start, end, title)))
}

// Unescapes a title.
#[inline(always)]
fn unescape_title<'a>(
    alloc: Global,
    title: Option<CowStr<'a>>,
    in_table: bool,
) -> Result<Option<CowStr<'a>>, AllocError>
    ensures value { IfOk result (λ answer. (text : Option (List ℕ)) → IsReadTitle text title.entry
        → HasTitle in_table text answer) }
    ensures err { OnErr result ((text : Option (List ℕ)) → IsReadTitle text title.entry
        → IsSomeAnd text (λ t. (list_any is_line_end t ≡ true) ⊎ IsEscaped in_table t)) }
{
    match title {
        Some(CowStr::Borrowed(text)) => Ok(Some(unescape(alloc, text, in_table)?)),
        Some(CowStr::Boxed(text)) => Ok(Some(unescape_owned(alloc, text, in_table)?)),
        Some(CowStr::Inlined(text)) => {
            let owned = BoxedStr::from_str(alloc, text.as_str())?;
            Ok(Some(unescape_owned(alloc, owned, in_table)?))
        }
        None => Ok(None),
    }
}

// Unescapes an owned string. Returns the string itself if nothing changes.
fn unescape_owned<'a>(
    alloc: Global,
    text: BoxedStr,
    in_table: bool,
) -> Result<CowStr<'a>, AllocError>
    ensures { IfOk result (λ answer. text_of answer ≡ unescaped in_table (boxed_str_bytes text)) }
{
    let changed = match unescape(alloc, text.as_str(), in_table)? {
        CowStr::Boxed(changed) => Some(changed),
        _ => None,
    };
    match changed {
        Some(changed) => Ok(CowStr::Boxed(changed)),
        None => Ok(CowStr::Boxed(text)),
    }
}
