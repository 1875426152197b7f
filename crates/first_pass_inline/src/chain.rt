//! A chain.

ghost use Rattle.first_pass_atoms.specs.NextTokens.{AreEndsOf};
ghost use Rattle.first_pass_atoms.specs.TokenEnds.{code_end, math_end};
ghost use Rattle.first_pass_inline.specs.Look.{after_token, place_at, place_in};
ghost use Rattle.first_pass_inline.specs.Sequences.{has_footnote, named_by};
ghost use Rattle.std.specs.Option.{option_map};
ghost use Rattle.std.specs.Prelude.{◌≡◌, ◌<◌, ◌≤◌, length, slice_get, IfOk, IfSome, None};

use crate::labels::Labels;
use crate::pair::Place;
use first_pass_atoms::token_ends::{MathEnd, TokenEnds};
use first_pass_content::tokens::PlacedToken;
use first_pass_items::item::Item;
use first_pass_items::option_set::Options;
use std::alloc::{AllocError, Global};
use std::marker::Model;

/// A chain: its tokens as nodes and with their places, its content, the ends of its code spans and math, and what labels
/// name in its text.
pub struct InlineChain<'c, 't, 'a> {
    nodes: &'c [(usize, Item)],
    tokens: &'c [PlacedToken],
    content: &'c str,
    ends: &'c TokenEnds,
    labels: &'c Labels<'t, 'a>,
}

impl<'c, 't, 'a> Model for InlineChain<'c, 't, 'a> {
    ghost use Rattle.first_pass_atoms.specs.NextTokens.{AreEndsOf};
    ghost use Rattle.first_pass_inline.specs.Look.{Chain};

    ghost Value = { Chain };

    ghost view = { λ c. record {
      nodes = c.nodes.now;
      tokens = c.tokens.now;
      bytes = c.content.now;
      options = c.labels.now.options;
      definitions = c.labels.now.definitions;
      footnotes = c.labels.now.footnotes;
    } };

    ghost invariant = { λ c. AreEndsOf c.nodes.now c.ends.now };
}

impl Drop for InlineChain<'_, '_, '_> {
    fn drop(self) {
        let InlineChain {
            nodes: _,
            tokens: _,
            content: _,
            ends: _,
            labels: _,
        } = self;
    }
}

impl<'c, 't, 'a> InlineChain<'c, 't, 'a> {
    // The chain with these parts.
    pub(crate) fn new(
        nodes: &'c [(usize, Item)],
        tokens: &'c [PlacedToken],
        content: &'c str,
        ends: &'c TokenEnds,
        labels: &'c Labels<'t, 'a>,
    ) -> InlineChain<'c, 't, 'a>
        requires { AreEndsOf nodes.now ends.now }
        ensures { result ≡ record {
          nodes = nodes.now;
          tokens = tokens.now;
          bytes = content.now;
          options = labels.now.options;
          definitions = labels.now.definitions;
          footnotes = labels.now.footnotes;
        } }
    {
        InlineChain {
            nodes,
            tokens,
            content,
            ends,
            labels,
        }
    }

    // The tokens.
    pub(crate) fn tokens(&self) -> &'c [PlacedToken]
        ensures { result.now ≡ self.now.tokens }
    {
        self.tokens
    }

    // The content.
    pub(crate) fn content(&self) -> &'c str
        ensures { result.now ≡ self.now.bytes }
    {
        self.content
    }

    // The token with an index, and the place after it.
    pub(crate) fn token_at(&self, index: usize) -> Option<(PlacedToken, Place)>
        ensures value { result ≡ option_map (λ t. (t, after_token index t)) (slice_get self.now.tokens index) }
        ensures within { IfSome result (λ found. found.1.index ≤ length self.now.tokens) }
    {
        token_in(self.tokens, index)
    }

    // The place at an offset that is in the token with an index, or after it.
    pub(crate) fn place_at(&self, index: usize, offset: usize) -> Place
        requires { index ≤ length self.now.tokens }
        ensures value { result ≡ place_at self.now index offset }
        ensures within { result.index ≤ length self.now.tokens }
        ensures further { index ≤ result.index }
    {
        place_in(self.tokens, index, offset)
    }

    // The options.
    pub(crate) fn options(&self) -> Options
        ensures { result ≡ self.now.options }
    {
        self.labels.options()
    }

    // The last token of the code span that the token with an index begins.
    pub(crate) fn code_end(&self, index: usize) -> Option<usize>
        ensures value { result ≡ code_end self.now.nodes index }
        ensures within { IfSome result (λ last. index < last) }
    {
        self.ends.code_end(self.nodes, index)
    }

    // The end of the math that the token with an index begins.
    pub(crate) fn math_end(&self, index: usize) -> Option<MathEnd>
        ensures value { result ≡ math_end self.now.nodes index }
        ensures within { IfSome result (λ end. index < end.last) }
    {
        self.ends.math_end(self.nodes, index)
    }

    // The index of the definition that a label names.
    pub(crate) fn definition_index(
        &self,
        alloc: Global,
        label: &str,
    ) -> Result<Option<usize>, AllocError>
        ensures { IfOk result (λ found. found ≡ named_by self.now label.now) }
    {
        self.labels.definition_index(alloc, label)
    }

    // Whether a footnote has a label.
    pub(crate) fn has_footnote(&self, alloc: Global, label: &str) -> Result<bool, AllocError>
        ensures { IfOk result (λ found. found ≡ has_footnote self.now label.now) }
    {
        self.labels.has_footnote(alloc, label)
    }
}

// The token with an index, and the place after it.
fn token_in(tokens: &[PlacedToken], index: usize) -> Option<(PlacedToken, Place)>
    ensures value { result ≡ option_map (λ t. (t, after_token index t)) (slice_get tokens.now index) }
    ensures within { IfSome result (λ found. found.1.index ≤ length tokens.now) }
{
    if index >= tokens.len() {
        return None;
    }
    let token = tokens[index];
    let next = Place {
        index: index + 1,
        offset: token.end,
    };
    Some((token, next))
}

// The place at an offset that is in the token with an index, or after it.
fn place_in(tokens: &[PlacedToken], index: usize, offset: usize) -> Place
    requires { index ≤ length tokens.now }
    ensures value { result ≡ place_in tokens.now index offset }
    ensures within { result.index ≤ length tokens.now }
    ensures further { index ≤ result.index }
{
    let mut next = index;
    while next < tokens.len() && tokens[next].end <= offset {
        next += 1;
    }
    Place {
        index: next,
        offset,
    }
}
