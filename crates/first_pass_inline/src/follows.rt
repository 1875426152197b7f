//! What follows a pair of brackets: a target, a label, or nothing that belongs to it.

ghost use Rattle.first_pass_inline.specs.declared.pair.Verdict.TheVariants.{Link};
ghost use Rattle.first_pass_inline.specs.Look.{place_at};
ghost use Rattle.first_pass_inline.specs.Sequences.{IsLaterIn, IsWholePair, by_definition as defined_pair, by_footnote as footnote_pair, by_label as labelled_pair, by_own as own_pair, bytes_in, has_footnote, is_full as is_full_form, label_after as label_next, own_label as own_label_of, past, span_of as span_of_part, what_follows};
ghost use Rattle.first_pass_items.specs.Bytes.{circumflex};
ghost use Rattle.first_pass_items.specs.OptionWords.{gfm_footnotes};
ghost use Rattle.first_pass_lines.specs.Lines.{begins};
ghost use Rattle.first_pass_targets.specs.InlineLabels.{is_footnote_label};
ghost use Rattle.first_pass_targets.specs.Parts.{IsPartFrom};
ghost use Rattle.std.specs.Prelude.{◌≡◌, ◌≤◌, ◌||◌, drop, length, not, true, IfOk, IfSome};
ghost use Rattle.std.specs.Str.{IsCharBoundary};

use crate::chain::InlineChain;
use crate::mark::{ReferenceForm, Span, Target};
use crate::pair::{Pair, Reference, Verdict};
use first_pass_lines::lines::begins;
use first_pass_lines::places::rest_of;
use first_pass_targets::footnote::is_footnote_label;
use first_pass_targets::label::{is_blank_label, scan_inline_label};
use first_pass_targets::part::Part;
use first_pass_targets::target::scan_target;
use std::alloc::{AllocError, Global};

/// Returns what a pair is by what follows it, and by its own label. Fails only if an allocation fails.
#[tactic(auto, unfolding(crate::specs::Sequences::what_follows))]
pub(crate) fn what_follows(
    alloc: Global,
    chain: &InlineChain<'_, '_, '_>,
    pair: Pair,
) -> Result<Verdict, AllocError>
    requires whole { IsWholePair chain.now pair }
    requires within { pair.«end».index ≤ length chain.now.tokens }
    ensures value { IfOk result (λ verdict. verdict ≡ what_follows chain.now pair) }
    ensures order { IfOk result (λ verdict. IsLaterIn chain.now pair.«end» (past pair.«end» verdict)) }
{
    match scan_target(chain.content(), pair.end.offset) {
        Some(found) => {
            let target = Target::Inline {
                dest: span_of(found.dest),
                title: found.title.map(span_of),
            };
            Ok(link_to(chain, pair, target, found.past))
        }
        None => by_label(alloc, chain, pair),
    }
}

// A link or an image with a target, up to a place.
fn link_to(chain: &InlineChain<'_, '_, '_>, pair: Pair, target: Target, end: usize) -> Verdict
    requires { pair.«end».index ≤ length chain.now.tokens }
    ensures value { result ≡ Link target pair.text (place_at chain.now pair.«end».index «end») }
    ensures order { IsLaterIn chain.now pair.«end» (past pair.«end» result) }
{
    Verdict::Link {
        target,
        shown: pair.text,
        past: chain.place_at(pair.end.index, end),
    }
}

// The text of a part.
fn span_of(part: Part) -> Span
    ensures { result ≡ span_of_part part }
{
    Span {
        start: part.start,
        end: part.end,
    }
}

// What a pair is by a label after it, or by its own.
fn by_label(
    alloc: Global,
    chain: &InlineChain<'_, '_, '_>,
    pair: Pair,
) -> Result<Verdict, AllocError>
    requires whole { IsWholePair chain.now pair }
    requires within { pair.«end».index ≤ length chain.now.tokens }
    ensures value { IfOk result (λ verdict. verdict ≡ labelled_pair chain.now pair (label_next chain.now pair)) }
    ensures order { IfOk result (λ verdict. IsLaterIn chain.now pair.«end» (past pair.«end» verdict)) }
{
    let Some(label) = label_after(chain, pair) else {
        return by_own(alloc, chain, pair, ReferenceForm::Shortcut, pair.end.offset);
    };
    if label.start == label.end {
        return by_own(alloc, chain, pair, ReferenceForm::Collapsed, label.past);
    }
    let text = &chain.content()[label.start..label.end];
    if is_blank_label(text.as_bytes()) || is_footnote_label(text.as_bytes(), chain.options()) {
        return by_own(alloc, chain, pair, ReferenceForm::Shortcut, pair.end.offset);
    }
    let reference = Reference {
        form: ReferenceForm::Full,
        label: span_of(label),
        end: label.past,
    };
    by_definition(alloc, chain, pair, reference, text)
}

// The label in brackets directly after a pair.
fn label_after(chain: &InlineChain<'_, '_, '_>, pair: Pair) -> Option<Part>
    requires { IsCharBoundary chain.now.bytes pair.«end».offset }
    ensures value { result ≡ label_next chain.now pair }
    ensures from { IfSome result (IsPartFrom chain.now.bytes 0) }
{
    let content = chain.content();
    if !begins(b'[', rest_of(content.as_bytes(), pair.end.offset)) {
        return None;
    }
    scan_inline_label(content, pair.end.offset + 1)
}

// What a pair is by its own label, as a reference of this form that ends at a place.
fn by_own(
    alloc: Global,
    chain: &InlineChain<'_, '_, '_>,
    pair: Pair,
    form: ReferenceForm,
    end: usize,
) -> Result<Verdict, AllocError>
    requires whole { IsWholePair chain.now pair }
    requires within { pair.«end».index ≤ length chain.now.tokens }
    ensures value { IfOk result (λ verdict. verdict ≡ own_pair chain.now pair form «end») }
    ensures order { IfOk result (λ verdict. IsLaterIn chain.now pair.«end» (past pair.«end» verdict)) }
{
    let Some(label) = own_label(chain, pair) else {
        return Ok(Verdict::Text);
    };
    let text = &chain.content()[label.start..label.end];
    if is_footnote_label(text.as_bytes(), chain.options()) {
        return by_footnote(alloc, chain, pair, label, text);
    }
    let reference = Reference { form, label, end };
    by_definition(alloc, chain, pair, reference, text)
}

// The label between the brackets of a pair.
fn own_label(chain: &InlineChain<'_, '_, '_>, pair: Pair) -> Option<Span>
    requires { IsCharBoundary chain.now.bytes pair.text.start }
    ensures value { result ≡ own_label_of chain.now pair }
    ensures whole { IfSome result (λ label. (label.start ≤ label.«end»)
        × IsCharBoundary chain.now.bytes label.start × IsCharBoundary chain.now.bytes label.«end») }
{
    let label = scan_inline_label(chain.content(), pair.text.start)?;
    let text = &chain.content()[label.start..label.end];
    if label.past != pair.end.offset || is_blank_label(text.as_bytes()) {
        return None;
    }
    Some(span_of(label))
}

// What a pair is whose label is that of a footnote reference, and has this text.
fn by_footnote(
    alloc: Global,
    chain: &InlineChain<'_, '_, '_>,
    pair: Pair,
    label: Span,
    text: &str,
) -> Result<Verdict, AllocError>
    requires text { text.now ≡ bytes_in chain.now label }
    requires note { is_footnote_label chain.now.options text.now ≡ true }
    ensures value { IfOk result (λ verdict. verdict ≡ footnote_pair chain.now pair label) }
    ensures past { IfOk result (λ verdict. past pair.«end» verdict ≡ pair.«end») }
{
    if is_footnote(alloc, chain, text)? {
        return Ok(Verdict::FootnoteReference(label));
    }
    Ok(Verdict::Undefined {
        label,
        end: pair.end.offset,
        is_after: false,
    })
}

// Whether a footnote has this label, which begins with `^`, or footnotes have their old form.
fn is_footnote(
    alloc: Global,
    chain: &InlineChain<'_, '_, '_>,
    label: &str,
) -> Result<bool, AllocError>
    requires { is_footnote_label chain.now.options label.now ≡ true }
    ensures { IfOk result (λ is. is ≡ (not (gfm_footnotes chain.now.options)
        || has_footnote chain.now (drop 1 label.now))) }
{
    if !chain.options().has_gfm_footnotes() {
        return Ok(true);
    }
    chain.has_footnote(alloc, after_circumflex(label))
}

// The text of a footnote label without the `^` at its start.
fn after_circumflex(label: &str) -> &str
    ensures { begins circumflex label.now ≡ true → result.now ≡ drop 1 label.now }
{
    if begins(b'^', label.as_bytes()) {
        return &label[1..];
    }
    label
}

// What a pair is by the definition that the label of a reference names. The label has this text.
fn by_definition(
    alloc: Global,
    chain: &InlineChain<'_, '_, '_>,
    pair: Pair,
    reference: Reference,
    text: &str,
) -> Result<Verdict, AllocError>
    requires text { text.now ≡ bytes_in chain.now reference.label }
    requires within { pair.«end».index ≤ length chain.now.tokens }
    ensures value { IfOk result (λ verdict. verdict ≡ defined_pair chain.now pair reference) }
    ensures order { IfOk result (λ verdict. IsLaterIn chain.now pair.«end» (past pair.«end» verdict)) }
{
    let Reference { form, label, end } = reference;
    Ok(match chain.definition_index(alloc, text)? {
        Some(index) => link_to(chain, pair, Target::Definition { form, label, index }, end),
        None => Verdict::Undefined {
            label,
            end,
            is_after: is_full(form),
        },
    })
}

// Whether the label of a reference is after its pair.
fn is_full(form: ReferenceForm) -> bool
    ensures { result ≡ is_full_form form }
{
    matches!(form, ReferenceForm::Full)
}
