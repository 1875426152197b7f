//! A paragraph is opened and read line by line, may become a heading, and is closed.

ghost use Rattle.first_pass.specs.Views.{with_tree};
ghost use Rattle.first_pass_client.specs.Places.{InText, MayAdd};
ghost use Rattle.first_pass_tokens.specs.LineTokens.{is_break as is_break_body};
ghost use Rattle.first_pass_tree.specs.Forest.{appended};
ghost use Rattle.std.specs.Prelude.{◌≡◌, ◌≤◌, IfOk, MatchOption, OnOk, true};

use crate::lists::{close_lists, close_node, open_block};
use first_pass::below::{Item, ItemBody, TreeIndex};
use first_pass::block_begins;
use first_pass::flank::TableParseMode;
use first_pass::pass::{FirstPass, PassState};
use std::alloc::AllocError;

/// Opens a paragraph at an offset. Returns its index.
pub fn begin_text(pass: &mut FirstPass<'_>, at: usize) -> Result<TreeIndex, AllocError>
    requires { MayAdd pass.old at }
    ensures { IfOk result (λ block. InText pass.new block at) }
{
    block_begins();
    let reader = &mut pass.pass;
    let block = open_block(&mut reader.state, at, ItemBody::Paragraph)?;
    Ok(block)
}

fn is_break(body: ItemBody) -> bool
    ensures { result ≡ is_break_body body }
{
    matches!(body, ItemBody::SoftBreak | ItemBody::HardBreak(_))
}

/// Reads a line of an open paragraph, and appends its break. Returns the offset after the line, and whether it has a
/// break.
pub fn read_line(
    pass: &mut FirstPass<'_>,
    block: TreeIndex,
    at: usize,
) -> Result<(usize, bool), AllocError>
    requires { InText pass.old block at }
    ensures { IfOk result (λ answer. InText pass.new block answer.0) }
{
    let (next, line_break) = pass.parse_line(at, None, TableParseMode::Disabled)?;
    let Some(item) = line_break else {
        return Ok((next, false));
    };
    if !is_break(item.body) {
        return Ok((next, false));
    }
    let reader = &mut pass.pass;
    add_break(&mut reader.state, item)?;
    Ok((next, true))
}

fn add_break(state: &mut PassState, item: Item) -> Result<(), AllocError>
    ensures { OnOk result (state.new ≡ with_tree state.old (appended state.old.tree item)) }
{
    state.tree.append(item)?;
    Ok(())
}

/// Reads a line of an open paragraph, if it does not interrupt it. Returns the offset after the line, or `None` if it
/// does.
pub fn continue_text(
    pass: &mut FirstPass<'_>,
    block: TreeIndex,
    at: usize,
) -> Result<Option<usize>, AllocError>
    requires { InText pass.old block at }
    ensures { IfOk result (λ next. MatchOption next (InText pass.new block at) (λ n. InText pass.new block n)) }
{
    let text = pass.pass.source.text;
    if pass.scan_paragraph_interrupt(&text[at..], true, 0)? {
        return Ok(None);
    }
    let (next, _more) = read_line(pass, block, at)?;
    Ok(Some(next))
}

/// Reads a line of an open paragraph that may be the header row of a table. If it is, returns the offset after the
/// delimiter row, and the table. Otherwise appends the line's break, and returns the offset after the line, and `None`.
pub fn read_possible_head(
    pass: &mut FirstPass<'_>,
    block: TreeIndex,
    at: usize,
) -> Result<(usize, Option<Item>), AllocError>
    requires { InText pass.old block at }
    ensures { IfOk result (λ answer. InText pass.new block answer.0) }
{
    let (next, found) = pass.parse_line(at, None, TableParseMode::Scan)?;
    let Some(item) = found else {
        return Ok((next, None));
    };
    if !is_break(item.body) {
        return Ok((next, Some(item)));
    }
    let reader = &mut pass.pass;
    add_break(&mut reader.state, item)?;
    Ok((next, None))
}

/// Makes a heading of an open paragraph, if an underline begins at the offset. Returns the offset after the underline,
/// or `None`.
pub fn make_heading(
    pass: &mut FirstPass<'_>,
    block: TreeIndex,
    at: usize,
) -> Result<Option<usize>, AllocError>
    requires { InText pass.old block at }
    ensures { IfOk result (λ next. MatchOption next (MayAdd pass.new at) (λ n. MayAdd pass.new n)) }
{
    let Some(next) = pass.parse_setext_heading(at, block, false)? else {
        return Ok(None);
    };
    Ok(Some(next))
}

/// Makes a heading of an open paragraph, if an underline begins at the offset. Closes the paragraph there, or the
/// heading after its underline. Returns that offset.
pub fn end_text(pass: &mut FirstPass<'_>, block: TreeIndex, at: usize) -> Result<usize, AllocError>
    requires { InText pass.old block at }
    ensures { IfOk result (λ next. MayAdd pass.new next) }
{
    match make_heading(pass, block, at)? {
        Some(next) => {
            close_text(pass, next);
            Ok(next)
        }
        None => {
            close_text(pass, at);
            Ok(at)
        }
    }
}

// Closes the innermost open node, and a list that it was in.
fn close_text(pass: &mut FirstPass<'_>, at: usize)
    requires { MayAdd pass.old at }
    ensures { MayAdd pass.new at }
{
    if pass.pass.state.tree.peek_up().is_some() {
        close_node(pass, at);
        close_lists(pass, at);
    }
}

/// A line of an open paragraph begins after container prefixes, from one offset to another: they are in no token.
pub fn skip_prefixes(pass: &FirstPass<'_>, block: TreeIndex, at: usize, start: usize) -> bool
    requires text { InText pass.now block at }
    requires later { at ≤ start }
    ensures { result ≡ true → InText pass.now block start }
{
    let text = pass.pass.source.text;
    text.is_char_boundary(start)
}
