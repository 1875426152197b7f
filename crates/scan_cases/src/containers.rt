//! Calls of `first_pass_open` and `first_pass_kinds` with open containers, and the tree and the options for such
//! calls.

use crate::call::Call;
use bitflags::Flags;
use first_pass_cases::answer::Answer;
use first_pass_items::item::{CowIndex, Item, ItemBody};
use first_pass_items::option_set::Options;
use first_pass_kinds::interrupt::interrupts_by_standard;
use first_pass_open::prefixes::scan_containers;
use first_pass_scan::line_start::LineStart;
use first_pass_tree::forest::Tree;
use std::alloc::{AllocError, Global};

/// Makes a call for open containers. Returns `false` for any other call.
pub fn answer_containers(call: &Call<'_>, answer: &mut Answer) -> Result<bool, AllocError> {
    match call.name {
        "scan_containers" => append_containers(call, answer)?,
        "interrupts_by_standard" => {
            answer.flag(interrupts_by_standard(call.text.as_bytes(), call.given.flag(0)))?
        }
        _ => return Ok(false),
    }
    Ok(true)
}

// The number of open nodes that a line continues, and the number of bytes of their prefixes. The first argument is
// the path of the open containers (see `open_path`), the second one the options.
fn append_containers(call: &Call<'_>, answer: &mut Answer) -> Result<(), AllocError> {
    let tree = open_path(call.alloc, call.given.number(0))?;
    let mut line_start = LineStart::new(call.text.as_bytes());
    let options = options_of(call.given.number(1));
    let kept = scan_containers(&tree, &mut line_start, options, false);
    answer.number(kept)?;
    answer.number(line_start.bytes_scanned())
}

/// Returns the options with these bits; bits that belong to no option are dropped.
pub fn options_of(bits: usize) -> Options {
    Options::from_bits_truncate(u32::try_from(bits).unwrap_or(0))
}

/// Returns a tree in which these containers are open, the outermost first. A digit 1 is a block quote, 9 a footnote
/// definition, and any other a list item with this number of columns.
pub fn open_path(alloc: Global, path: usize) -> Result<Tree<Item>, AllocError> {
    let mut tree = Tree::with_capacity(alloc, 8)?;
    for place in [1000, 100, 10, 1] {
        let digit = path / place % 10;
        if digit > 0 {
            let body = match digit {
                1 => ItemBody::BlockQuote(None),
                9 => ItemBody::FootnoteDefinition(CowIndex(0)),
                columns => ItemBody::ListItem(columns),
            };
            open_node(&mut tree, body)?;
        }
    }
    Ok(tree)
}

/// Opens an empty node.
pub fn open_node(tree: &mut Tree<Item>, body: ItemBody) -> Result<(), AllocError> {
    tree.append(Item {
        start: 0,
        end: 0,
        body,
    })?;
    tree.push()?;
    Ok(())
}
