//! Calls of `first_pass_tokens`: the tokens of lines and of cells.

use crate::call::Call;
use crate::containers::{open_node, options_of};
use first_pass_cases::answer::Answer;
use first_pass_items::item::{Item, ItemBody};
use first_pass_tokens::braces::BraceContexts;
use first_pass_tokens::line::{append_cell, append_line, scan_plain_content};
use first_pass_tokens::pieces::Content;
use first_pass_tree::forest::Tree;
use first_pass_walk::walk::special_bytes;
use std::alloc::AllocError;

/// Makes a call for tokens under the options with the given bits. Returns `false` for any other call.
pub fn answer_tokens(call: &Call<'_>, answer: &mut Answer) -> Result<bool, AllocError> {
    match call.name {
        "append_line" => append_tokens(&tokens_of(call, false)?, answer)?,
        "append_cell" => append_tokens(&tokens_of(call, true)?, answer)?,
        "scan_plain_content" => append_plain_content(call, answer)?,
        _ => return Ok(false),
    }
    Ok(true)
}

/// Returns the lines of a paragraph, each with its line break, or the cells of a row. In a row the text begins after the
/// pipe before the first cell, each further cell begins after the pipe that ends the one before, and a node `end` marks
/// the end of each.
pub fn tokens_of(call: &Call<'_>, row: bool) -> Result<Tree<Item>, AllocError> {
    let (alloc, text) = (call.alloc, call.text);
    let options = options_of(call.given.number(0));
    let special = special_bytes(&options);
    let mut tree = Tree::with_capacity(alloc, 8)?;
    let body = match row {
        true => ItemBody::TableRow,
        false => ItemBody::Paragraph,
    };
    open_node(&mut tree, body)?;
    let mut texts = Vec::new(alloc);
    let mut braces = BraceContexts::new();
    let mut at = 0;
    while at < text.len() {
        let content = Content {
            options,
            whole: text,
            special: &special,
            start: at,
            end: None,
            row,
        };
        if row {
            at = append_cell(content, &mut tree, &mut texts, &mut braces)?;
            tree.append(end_of_cell(at))?;
            at += 1;
        } else {
            let (next, line_break) = append_line(content, &mut tree, &mut texts, &mut braces)?;
            if let Some(item) = line_break {
                tree.append(item)?;
            }
            at = next;
        }
    }
    Ok(tree)
}

// Appends the end of the token of a plain cell and that of its content, which begins at the start of the text.
fn append_plain_content(call: &Call<'_>, answer: &mut Answer) -> Result<(), AllocError> {
    let options = options_of(call.given.number(0));
    let special = special_bytes(&options);
    let content = Content {
        options,
        whole: call.text,
        special: &special,
        start: 0,
        end: None,
        row: true,
    };
    match scan_plain_content(content) {
        Some(plain) => {
            answer.number(plain.token_end)?;
            answer.number(plain.end)
        }
        None => answer.none(),
    }
}

// The node that marks the end of a cell.
fn end_of_cell(at: usize) -> Item {
    Item {
        start: at,
        end: at,
        body: ItemBody::TableCell,
    }
}

// Each node in the open block: its name, its start and its end.
fn append_tokens(tree: &Tree<Item>, answer: &mut Answer) -> Result<(), AllocError> {
    for node in tree.nodes().iter().skip(2) {
        answer.word(name(&node.1.body))?;
        answer.number(node.1.start)?;
        answer.number(node.1.end)?;
    }
    Ok(())
}

fn name(body: &ItemBody) -> &'static str {
    match body {
        ItemBody::Text {
            backslash_escaped: true,
        } => "Text(escaped)",
        ItemBody::Text {
            backslash_escaped: false,
        } => "Text",
        ItemBody::SoftBreak => "SoftBreak",
        ItemBody::HardBreak(true) => "HardBreak(true)",
        ItemBody::HardBreak(false) => "HardBreak(false)",
        ItemBody::MaybeEmphasis(1, true, true) => "MaybeEmphasis(1,true,true)",
        ItemBody::MaybeCode(1, false) => "MaybeCode(1,false)",
        ItemBody::MaybeCode(1, true) => "MaybeCode(1,true)",
        ItemBody::MaybeCode(2, true) => "MaybeCode(2,true)",
        ItemBody::MaybeMath(true, true, 255) => "MaybeMath(true,true,255)",
        ItemBody::SynthesizeText(_) => "SynthesizeText",
        ItemBody::MaybeHtml => "MaybeHtml",
        ItemBody::MaybeLinkOpen => "MaybeLinkOpen",
        ItemBody::MaybeLinkClose(true) => "MaybeLinkClose(true)",
        ItemBody::MaybeImage => "MaybeImage",
        ItemBody::TableCell => "end",
        _ => "other",
    }
}
