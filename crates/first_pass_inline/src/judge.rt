//! What a pair of brackets is.

ghost use Rattle.first_pass_atoms.specs.HtmlEnds.{IsKnownOf};
ghost use Rattle.first_pass_inline.specs.declared.pair.Place.{Place};
ghost use Rattle.first_pass_inline.specs.Look.{AreWhole, look as look_at};
ghost use Rattle.first_pass_inline.specs.Sequences.{IsLaterIn, IsWholePair, closes as view_closes, is_image as is_image_mark, is_name as is_name_pair, judged, link_or_note as link_or_note_of, named as name_by, past, pipe_in, piece_pipe as pipe_of_piece, quiet as quiet_pair, wikilinks};
ghost use Rattle.first_pass_items.specs.Bytes.{pipe};
ghost use Rattle.first_pass_items.specs.OptionWords.{has};
ghost use Rattle.std.specs.List.{position};
ghost use Rattle.std.specs.Prelude.{◌≡◌, ◌==◌, ◌<◌, ◌≤◌, length, unwrap_or, IfOk, IfSome};

use crate::chain::InlineChain;
use crate::follows::what_follows;
use crate::look::look;
use crate::mark::{Mark, MarkKind, Name, Span, Target};
use crate::pair::{Pair, Place, Verdict, View};
use bitflags::Flags;
use first_pass_atoms::html_ends::HtmlEnds;
use first_pass_items::item::ItemBody;
use first_pass_items::option_set::Options;
use first_pass_reports::references::label::bytes_between;
use std::alloc::{AllocError, Global};

/// Returns what a pair is. What `ends` holds does not change the result. Fails only if an allocation fails.
#[tactic(auto, unfolding(crate::specs::Sequences::judged))]
pub(crate) fn judge(
    alloc: Global,
    chain: &InlineChain<'_, '_, '_>,
    ends: &mut HtmlEnds,
    pair: Pair,
) -> Result<Verdict, AllocError>
    requires chain { AreWhole chain.now }
    requires known { IsKnownOf chain.now.bytes ends.old }
    requires whole { IsWholePair chain.now pair }
    requires within { pair.«end».index ≤ length chain.now.tokens }
    ensures value { IfOk result (λ verdict. verdict ≡ judged chain.now pair) }
    ensures order { IfOk result (λ verdict. IsLaterIn chain.now pair.«end» (past pair.«end» verdict)) }
    ensures known { IsKnownOf chain.now.bytes ends.new }
{
    if let Some(name) = pair.name {
        return Ok(Verdict::Link {
            target: Target::Name(name),
            shown: name.shown.unwrap_or(name.name),
            past: pair.end,
        });
    }
    if is_name(chain, ends, pair) {
        Ok(Verdict::Name(named(pair.text, pair.pipe)))
    } else {
        link_or_note(alloc, chain, pair)
    }
}

// The name in a pair with this text, by the place after its first pipe.
fn named(text: Span, pipe: Option<usize>) -> Name
    ensures { result ≡ name_by text pipe }
{
    match pipe {
        None => Name {
            name: text,
            shown: None,
        },
        Some(after) => Name {
            name: Span {
                start: text.start,
                end: after.saturating_sub(1),
            },
            shown: Some(Span {
                start: after,
                end: text.end,
            }),
        },
    }
}

// Whether a pair is around the name of a wikilink.
fn is_name(chain: &InlineChain<'_, '_, '_>, ends: &mut HtmlEnds, pair: Pair) -> bool
    requires chain { AreWhole chain.now }
    requires known { IsKnownOf chain.now.bytes ends.old }
    ensures value { result ≡ is_name_pair chain.now pair }
    ensures known { IsKnownOf chain.now.bytes ends.new }
{
    if !has_wikilinks(chain) || !pair.is_inner || pair.is_image {
        return false;
    }
    if pair.holds_link || pair.holds_note || !is_closing(chain, ends, pair.end) {
        return false;
    }
    let name = named(pair.text, pair.pipe).name;
    name.start < name.end
}

// Whether wikilinks are enabled.
fn has_wikilinks(chain: &InlineChain<'_, '_, '_>) -> bool
    ensures { result ≡ has chain.now.options wikilinks }
{
    chain.options().contains(Options::ENABLE_WIKILINKS)
}

// Whether a bracket that may close a pair is at a place.
fn is_closing(chain: &InlineChain<'_, '_, '_>, ends: &mut HtmlEnds, place: Place) -> bool
    requires chain { AreWhole chain.now }
    requires known { IsKnownOf chain.now.bytes ends.old }
    ensures value { result ≡ view_closes (look_at chain.now place) }
    ensures known { IsKnownOf chain.now.bytes ends.new }
{
    matches!(look(chain, ends, place), View::Closes(_, _))
}

// What a pair is that has to do with no wikilink.
fn link_or_note(
    alloc: Global,
    chain: &InlineChain<'_, '_, '_>,
    pair: Pair,
) -> Result<Verdict, AllocError>
    requires whole { IsWholePair chain.now pair }
    requires within { pair.«end».index ≤ length chain.now.tokens }
    ensures value { IfOk result (λ verdict. verdict ≡ link_or_note_of chain.now pair) }
    ensures order { IfOk result (λ verdict. IsLaterIn chain.now pair.«end» (past pair.«end» verdict)) }
{
    if pair.holds_note || (pair.holds_link && !pair.is_image) {
        return Ok(Verdict::Text);
    }
    let verdict = what_follows(alloc, chain, pair)?;
    Ok(quiet(pair.waited, verdict))
}

// What a pair is that may be the label for which the one before it has looked.
fn quiet(waited: bool, verdict: Verdict) -> Verdict
    ensures value { result ≡ quiet_pair waited verdict }
    ensures past { (at : Place) → past at result ≡ past at verdict }
{
    match verdict {
        Verdict::Undefined { .. } if waited => Verdict::Text,
        other => other,
    }
}

/// Returns whether a bracket is that of an image.
pub(crate) fn is_image(mark: Mark) -> bool
    ensures { result ≡ is_image_mark mark }
{
    matches!(mark.kind, MarkKind::Token(ItemBody::MaybeImage))
}

/// Returns the place after the first pipe in a piece, if it is text and wikilinks are enabled.
pub(crate) fn piece_pipe(chain: &InlineChain<'_, '_, '_>, mark: Mark) -> Option<usize>
    ensures { result ≡ pipe_of_piece chain.now mark mark.kind }
{
    match mark.kind {
        MarkKind::Token(_) if has_wikilinks(chain) => pipe_in(
            chain.content().as_bytes(),
            mark.part,
        ),
        _ => None,
    }
}

// The place after the first pipe in a part of a content.
fn pipe_in(bytes: &[u8], part: Span) -> Option<usize>
    ensures { result ≡ pipe_in bytes.now part }
{
    let inside = bytes_between(bytes, part.start, part.end);
    match first_pipe(inside) {
        Some(before) => Some(part.start + before + 1),
        None => None,
    }
}

// The number of bytes before the first pipe.
fn first_pipe(bytes: &[u8]) -> Option<usize>
    ensures value { result ≡ position (λ b. b == pipe) bytes.now }
    ensures within { IfSome result (λ before. before < length bytes.now) }
{
    bytes.iter().position(|byte| *byte == b'|')
}
