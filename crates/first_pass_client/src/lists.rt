//! A text is begun, blocks of any kind are read, and containers and lists are opened and closed.

ghost use Rattle.first_pass.specs.Views.{state_of, tree_of};
ghost use Rattle.first_pass_client.specs.Places.{MayAdd, MayClose, MayRead};
ghost use Rattle.first_pass_grammar.specs.Order.{is_task_marker};
ghost use Rattle.first_pass_lists.specs.Closing.{begun, is_item, top_body, with_block};
ghost use Rattle.std.specs.Prelude.{◌≡◌, false, length, slice_get, true, IfOk, IsSome, MatchOption, OnOk};

use first_pass::below::{Item, ItemBody, Options, TreeIndex};
use first_pass::pass::{FirstPass, PassState};
use first_pass::{block_begins, ended_block_is_closable, reading_continues_later};
use std::alloc::{AllocError, Global};

/// Begins to read a text.
pub fn begin<'a>(
    alloc: Global,
    text: &'a str,
    options: Options,
) -> Result<FirstPass<'a>, AllocError>
    ensures add { IfOk result (λ pass. MayAdd pass 0) }
    ensures read { IfOk result (λ pass. MayRead pass 0) }
{
    let pass = FirstPass::new(alloc, text, options)?;
    Ok(pass)
}

/// Reads the block in the line at an offset. Returns the start of the next unread line; `None` at the end of the text.
pub fn read_block(pass: &mut FirstPass<'_>, at: usize) -> Result<Option<usize>, AllocError>
    requires { MayRead pass.old at }
    ensures { IfOk result (λ next. MatchOption next (MayRead pass.new at) (λ n. MayRead pass.new n)) }
{
    if at >= pass.pass.source.text.len() {
        return Ok(None);
    }
    let next = pass.parse_block(at)?;
    Ok(Some(next))
}

/// The same where nodes may be closed or blocks may be added: after any other call.
pub fn read_next_block(pass: &mut FirstPass<'_>, at: usize) -> Result<Option<usize>, AllocError>
    requires { MayClose pass.old at }
    ensures { IfOk result (λ next. MatchOption next (MayClose pass.new at) (λ n. MayRead pass.new n)) }
{
    reading_continues_later();
    if at >= pass.pass.source.text.len() {
        return Ok(None);
    }
    let next = pass.parse_block(at)?;
    Ok(Some(next))
}

/// Returns whether open nodes may be closed at an offset: whether the last block ends there or before.
pub fn is_ended(pass: &FirstPass<'_>, at: usize) -> bool
    requires { MayRead pass.now at }
    ensures { result ≡ true → MayClose pass.now at }
{
    let tree = &pass.pass.state.tree;
    tree.recall_forest();
    ended_block_is_closable();
    let Some(last) = tree.cur() else {
        return false;
    };
    if last.0 >= tree.node_count() {
        return false;
    }
    let item = tree[last];
    !is_marker(item.body) && item.end <= at
}

fn is_marker(body: ItemBody) -> bool
    ensures { result ≡ is_task_marker body }
{
    matches!(body, ItemBody::TaskListMarker(_))
}

/// Closes the lists that a block at an offset ends.
pub fn close_lists(pass: &mut FirstPass<'_>, at: usize)
    requires { MayClose pass.old at }
    ensures place { MayAdd pass.new at }
    ensures blank { (state_of pass.new).blank ≡ false }
{
    pass.finish_list(at);
}

/// Closes the innermost open node.
pub fn close_node(pass: &mut FirstPass<'_>, at: usize)
    requires place { MayClose pass.old at }
    requires open { IsSome (slice_get (tree_of pass.old).spine 0) }
    ensures place { MayClose pass.new at }
    ensures outside { is_item (top_body (tree_of pass.old)) ≡ false → MayAdd pass.new at }
{
    pass.pop(at);
}

/// Finishes an empty item.
pub fn finish_item(pass: &mut FirstPass<'_>, at: usize)
    requires { MayClose pass.old at }
    ensures { MayClose pass.new at }
{
    pass.finish_empty_list_item();
}

/// Continues a list, or opens one.
pub fn open_list(pass: &mut FirstPass<'_>, at: usize, ch: u8, index: u64) -> Result<(), AllocError>
    requires { MayClose pass.old at }
    ensures { OnOk result (MayClose pass.new at) }
{
    pass.continue_list(at, ch, index)?;
    Ok(())
}

/// Opens an item that begins at an offset, in the list that was just opened or continued.
pub fn open_item(pass: &mut FirstPass<'_>, at: usize, columns: usize) -> Result<(), AllocError>
    requires { MayClose pass.old at }
    ensures { OnOk result (MayAdd pass.new at) }
{
    block_begins();
    let reader = &mut pass.pass;
    open_block(&mut reader.state, at, ItemBody::ListItem(columns))?;
    Ok(())
}

/// Opens the footnote definition that begins at an offset. Returns the offset after its head. Returns `None` if none
/// begins there.
pub fn open_footnote(pass: &mut FirstPass<'_>, at: usize) -> Result<Option<usize>, AllocError>
    requires { MayClose pass.old at }
    ensures { IfOk result (λ next. MatchOption next (MayClose pass.new at) (λ n. MayAdd pass.new n)) }
{
    pass.pass.source.recall_length();
    let Some(size) = pass.parse_footnote(at)? else {
        return Ok(None);
    };
    Ok(Some(at + size))
}

/// Opens a block at an offset. Returns its index.
pub fn open_block(
    state: &mut PassState,
    start: usize,
    body: ItemBody,
) -> Result<TreeIndex, AllocError>
    ensures { IfOk result (λ block. (state.new ≡ begun start body (with_block state.old state.old.tree))
        × (block ≡ record { 0 = length state.old.tree.nodes })) }
{
    state.begin_list_item = None;
    let item = Item {
        start,
        end: 0,
        body,
    };
    state.tree.append(item)?;
    let block = state.tree.push()?;
    Ok(block)
}
