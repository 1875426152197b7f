//! The tokens of a chain, and their places in its content.

ghost use Rattle.first_pass_content.specs.Content.{content};
ghost use Rattle.first_pass_content.specs.Tokens.{own_start, placed_tokens, token_between};
ghost use Rattle.std.specs.Prelude.{◌≡◌, IfOk};

use crate::builder::begin_content;
use crate::content::Content;
use first_pass_items::item::{Item, ItemBody};
use first_pass_reports::references::label::whole_start;
use std::alloc::{AllocError, Global};

/// A token of a chain, and its places in the content of the chain: that of the backslash that was dropped before it, or
/// of its first byte; that of its first byte; and the place after its last one.
#[derive(Clone, Copy, PartialEq, Eq)]
pub struct PlacedToken {
    pub body: ItemBody,
    pub whole: usize,
    pub start: usize,
    pub end: usize,
}

/// A chain: its content, and its tokens with their places in it.
#[derive(Drop)]
pub struct PlacedChain<'t> {
    pub content: Content<'t>,
    pub tokens: Vec<PlacedToken>,
}

/// Returns the chain with these tokens of a text. Fails only if an allocation fails.
pub fn placed_chain<'t>(
    alloc: Global,
    text: &'t [u8],
    tokens: &[(usize, Item)],
) -> Result<PlacedChain<'t>, AllocError>
    ensures content { IfOk result (λ chain. chain.content ≡ content text.now tokens.now) }
    ensures tokens { IfOk result (λ chain. chain.tokens.items ≡ placed_tokens text.now 0 tokens.now) }
{
    let mut builder = begin_content(alloc);
    let mut placed = Vec::new(alloc);
    let mut rest = tokens;
    while let Some((node, following)) = rest.split_first() {
        let whole = builder.len();
        builder.add_own(text, node.1)?;
        placed.push(token_between(node.1, whole, builder.len()))?;
        builder.add_gap(text, node.1, following)?;
        rest = following;
    }
    Ok(PlacedChain {
        content: builder.finish(text)?,
        tokens: placed,
    })
}

// The token whose content has the places from one up to another.
fn token_between(token: Item, whole: usize, end: usize) -> PlacedToken
    ensures { result ≡ token_between token whole «end» }
{
    PlacedToken {
        body: token.body,
        whole,
        start: own_start(token, whole, end),
        end,
    }
}

// The place of the own bytes of a token whose content has the places from one up to another.
fn own_start(token: Item, whole: usize, end: usize) -> usize
    ensures { result ≡ own_start token whole «end» }
{
    if whole_start(token) < token.start && whole < end {
        whole + 1
    } else {
        whole
    }
}
