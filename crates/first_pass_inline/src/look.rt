//! What begins at a place.

ghost use Rattle.first_pass_atoms.specs.Autolinks.{autolink_at as autolink_of};
ghost use Rattle.first_pass_atoms.specs.HtmlEnds.{IsKnownOf};
ghost use Rattle.first_pass_content.specs.Tokens.{IsWholeToken};
ghost use Rattle.first_pass_inline.specs.declared.pair.View.TheVariants.{Piece};
ghost use Rattle.first_pass_inline.specs.Look.{AreWhole, IsFurther, after_token, look as look_at, mark_of as mark_from_to, math_from, math_to, place_at, run_len, token_from as token_of, view_body, view_code, view_html, view_math};
ghost use Rattle.std.specs.Prelude.{ℕ, ◌≡◌, ◌+◌, ◌<◌, ◌≤◌, length};

use crate::chain::InlineChain;
use crate::mark::{MarkKind, Span, mark_of, token_from};
use crate::pair::{Place, View};
use first_pass_atoms::autolinks::autolink_at;
use first_pass_atoms::html_ends::HtmlEnds;
use first_pass_atoms::raw_html::raw_html_at;
use first_pass_atoms::token_ends::MathEnd;
use first_pass_content::tokens::PlacedToken;
use first_pass_items::item::ItemBody;

/// Returns what begins at a place. What `ends` holds does not change the result.
#[tactic(auto, unfolding(crate::specs::Look::look))]
pub(crate) fn look(chain: &InlineChain<'_, '_, '_>, ends: &mut HtmlEnds, place: Place) -> View
    requires whole { AreWhole chain.now }
    requires known { IsKnownOf chain.now.bytes ends.old }
    ensures value { result ≡ look_at chain.now place }
    ensures further { IsFurther place.index (length chain.now.tokens) result }
    ensures known { IsKnownOf chain.now.bytes ends.new }
{
    let Some((token, next)) = chain.token_at(place.index) else {
        return View::AtEnd;
    };
    if token.start < place.offset {
        return View::Piece(token_from(place.offset, token), next);
    }
    look_at_token(chain, ends, place.index, token, next)
}

// What the token with an index begins. `next` is the place after it.
fn look_at_token(
    chain: &InlineChain<'_, '_, '_>,
    ends: &mut HtmlEnds,
    index: usize,
    token: PlacedToken,
    next: Place,
) -> View
    requires whole { IsWholeToken chain.now.bytes token }
    requires known { IsKnownOf chain.now.bytes ends.old }
    requires next { next ≡ after_token index token }
    requires within { next.index ≤ length chain.now.tokens }
    ensures value { result ≡ view_body chain.now index token token.body }
    ensures further { IsFurther index (length chain.now.tokens) result }
    ensures known { IsKnownOf chain.now.bytes ends.new }
{
    match token.body {
        ItemBody::MaybeLinkOpen | ItemBody::MaybeImage => View::Opens(
            token_from(token.start, token),
            next,
        ),
        ItemBody::MaybeLinkClose(_) => View::Closes(token_from(token.start, token), next),
        ItemBody::MaybeCode(_, _) => look_at_code(chain, index, token, next),
        ItemBody::MaybeMath(_, _, _) => look_at_math(chain, index, token, next),
        ItemBody::MaybeHtml => look_at_html(chain, ends, index, token, next),
        _ => plain(token, next),
    }
}

// A token that stands for itself.
fn plain(token: PlacedToken, next: Place) -> View
    ensures { result ≡ Piece (token_of token.start token) next }
{
    View::Piece(token_from(token.start, token), next)
}

// What a run of backquotes begins.
#[tactic(auto, using(crate::proofs::Views::code_none, crate::proofs::Views::code_out, crate::proofs::Views::code_in))]
fn look_at_code(
    chain: &InlineChain<'_, '_, '_>,
    index: usize,
    token: PlacedToken,
    next: Place,
) -> View
    requires next { next ≡ after_token index token }
    requires within { next.index ≤ length chain.now.tokens }
    ensures value { result ≡ view_code chain.now index token }
    ensures further { IsFurther index (length chain.now.tokens) result }
{
    let Some(last) = chain.code_end(index) else {
        return plain(token, next);
    };
    let Some((end, after)) = chain.token_at(last) else {
        return plain(token, next);
    };
    let code = Span {
        start: token.end,
        end: end.start,
    };
    let start = token.end.saturating_sub(run_len(end));
    View::Piece(mark_of(start, end.end, MarkKind::Code(code)), after)
}

// The length of the run of backquotes that a token is.
fn run_len(token: PlacedToken) -> usize
    ensures { result ≡ run_len token.body }
{
    match token.body {
        ItemBody::MaybeCode(count, _) => count,
        _ => 0,
    }
}

// What a dollar sign begins.
#[tactic(auto, using(crate::proofs::Views::math_none, crate::proofs::Views::math_out, crate::proofs::Views::math_in))]
fn look_at_math(
    chain: &InlineChain<'_, '_, '_>,
    index: usize,
    token: PlacedToken,
    next: Place,
) -> View
    requires next { next ≡ after_token index token }
    requires within { next.index ≤ length chain.now.tokens }
    ensures value { result ≡ view_math chain.now index token }
    ensures further { IsFurther index (length chain.now.tokens) result }
{
    let Some(found) = chain.math_end(index) else {
        return plain(token, next);
    };
    let Some((end, after)) = chain.token_at(found.last) else {
        return plain(token, next);
    };
    let content = Span {
        start: math_from(chain, token, next.index, found.display),
        end: math_to(chain, found),
    };
    let kind = MarkKind::Math {
        is_display: found.display,
        content,
    };
    View::Piece(mark_of(token.start, end.end, kind), after)
}

// The place after the opening dollar signs of math. `next` is the index of the token after the first one.
fn math_from(
    chain: &InlineChain<'_, '_, '_>,
    token: PlacedToken,
    next: usize,
    display: bool,
) -> usize
    ensures { (index : ℕ) → next ≡ index + 1 → result ≡ math_from chain.now index token display }
{
    if !display {
        return token.end;
    }
    match chain.token_at(next) {
        Some((second, _)) => second.end,
        None => token.end,
    }
}

// The place of the closing dollar signs of math.
fn math_to(chain: &InlineChain<'_, '_, '_>, found: MathEnd) -> usize
    ensures { result ≡ math_to chain.now found }
{
    let first = if found.display {
        found.last.saturating_sub(1)
    } else {
        found.last
    };
    match chain.token_at(first) {
        Some((token, _)) => token.start,
        None => 0,
    }
}

// What a `<` begins: an autolink, raw HTML, or itself.
#[tactic(auto, using(crate::proofs::Views::html_link, crate::proofs::Views::html_raw, crate::proofs::Views::html_none))]
fn look_at_html(
    chain: &InlineChain<'_, '_, '_>,
    ends: &mut HtmlEnds,
    index: usize,
    token: PlacedToken,
    next: Place,
) -> View
    requires whole { IsWholeToken chain.now.bytes token }
    requires known { IsKnownOf chain.now.bytes ends.old }
    requires next { next ≡ after_token index token }
    requires within { next.index ≤ length chain.now.tokens }
    ensures value { result ≡ view_html chain.now index token (autolink_of chain.now.bytes token.start) }
    ensures further { IsFurther index (length chain.now.tokens) result }
    ensures known { IsKnownOf chain.now.bytes ends.new }
{
    let content = chain.content().as_bytes();
    if let Some(link) = autolink_at(content, token.start) {
        return piece_up_to(chain, token, next, link.end, MarkKind::Autolink(link.form));
    }
    match raw_html_at(content, token.start, ends) {
        Some(end) => piece_up_to(chain, token, next, end, MarkKind::RawHtml),
        None => plain(token, next),
    }
}

// The piece from the start of a token up to a place. `next` is the place after the token.
fn piece_up_to(
    chain: &InlineChain<'_, '_, '_>,
    token: PlacedToken,
    next: Place,
    end: usize,
    kind: MarkKind,
) -> View
    requires { next.index ≤ length chain.now.tokens }
    ensures value { result ≡ Piece (mark_from_to token.start «end» kind) (place_at chain.now next.index «end») }
    ensures further { (index : ℕ) → index < next.index → IsFurther index (length chain.now.tokens) result }
{
    View::Piece(
        mark_of(token.start, end, kind),
        chain.place_at(next.index, end),
    )
}
