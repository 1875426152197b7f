//! A text that is nested 10,000 deep.

use bitflags::Flags;
use first_pass::below::{Item, ItemBody};
use first_pass::pass::run_first_pass;
use first_pass_items::option_set::Options;
use std::alloc::{AllocError, Global};
use std::test::Fail;

const QUOTES: usize = 10_000;

// A paragraph in nested block quotes.
fn nested_quotes(alloc: Global) -> Result<String, AllocError> {
    let mut text = String::new(alloc);
    for _ in 0..QUOTES {
        text.push('>')?;
    }
    text.push('a')?;
    Ok(text)
}

// Whether the node at an index is the block quote there: as deep as its index, and from its own mark to the end of the
// text.
fn is_quote_at(index: usize, node: &(usize, Item)) -> bool {
    let (depth, item) = *node;
    depth == index
        && item.start.checked_add(1) == Some(index)
        && item.end == QUOTES + 1
        && item.body == ItemBody::BlockQuote(None)
}

// The number of nodes, and how many of them are the block quote at their index.
fn count_quotes(alloc: Global, text: &str) -> Result<(usize, usize), AllocError> {
    let (tree, _allocs) = run_first_pass(alloc, text, Options::empty())?;
    let is_quote = |entry: &(usize, &(usize, Item))| is_quote_at(entry.0, entry.1);
    let quotes = tree.nodes().iter().enumerate().filter(is_quote).count();
    Ok((tree.node_count(), quotes))
}

#[test]
fn quotes_in_quotes(rt: HostRuntime) -> Result<(), Fail> {
    let text = nested_quotes(rt.alloc())?;
    let counts = count_quotes(rt.alloc(), &text)?;
    assert!(rt; counts == (QUOTES + 3, QUOTES), "{counts:?}");
    Ok(())
}
