//! Calls of `first_pass_content`: the content of a paragraph or of a cell, and its tokens in it.

use crate::call::Call;
use crate::tokens::tokens_of;
use first_pass_cases::answer::Answer;
use first_pass_content::content::content_of;
use first_pass_content::tokens::placed_chain;
use first_pass_items::item::Item;
use std::alloc::AllocError;

/// Makes a call for a content, under the options with the given bits. Returns `false` for any other call.
pub fn answer_contents(call: &Call<'_>, answer: &mut Answer) -> Result<bool, AllocError> {
    match call.name {
        "content_of" => append_content(call, false, answer)?,
        "content_of_cell" => append_content(call, true, answer)?,
        "placed_chain" => append_places(call, answer)?,
        _ => return Ok(false),
    }
    Ok(true)
}

// The tokens below the first node.
fn below(nodes: &[(usize, Item)]) -> &[(usize, Item)] {
    match nodes {
        [_, _, tokens @ ..] => tokens,
        _ => nodes,
    }
}

// Appends the content of a paragraph, or of the cells of a row.
fn append_content(call: &Call<'_>, row: bool, answer: &mut Answer) -> Result<(), AllocError> {
    let tree = tokens_of(call, row)?;
    let content = content_of(call.alloc, call.text.as_bytes(), below(tree.nodes()))?;
    match str::from_utf8(content.bytes()) {
        Ok(text) => answer.text(text),
        Err(_) => answer.none(),
    }
}

// Appends the places of each token of a paragraph: of its content, and of its own first byte.
fn append_places(call: &Call<'_>, answer: &mut Answer) -> Result<(), AllocError> {
    let tree = tokens_of(call, false)?;
    let chain = placed_chain(call.alloc, call.text.as_bytes(), below(tree.nodes()))?;
    for token in chain.tokens.iter() {
        answer.number(token.whole)?;
        answer.number(token.start)?;
        answer.number(token.end)?;
    }
    Ok(())
}
