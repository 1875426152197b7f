//! Prints the headings of a Markdown text on standard input, each with its level, range, id and text, and then the
//! text's link definitions. An example of a program that uses the library.
#![tactic(auto)]

use anyhow::Result;
use first_pass::items::Allocations;
use first_pass::{Item, ItemBody, Options, run_first_pass};
use std::io;
use std::ops::DerefStr;

fn main(rt: HostRuntime) -> Result<()> {
    let text = io::read_to_string(rt.alloc(), rt.stdin())?;
    print_contents(&rt, text.as_str())
}

// Prints the headings of a text, and then its link definitions.
fn print_contents(rt: &HostRuntime, text: &str) -> Result<()> {
    let options = Options::ENABLE_HEADING_ATTRIBUTES;
    let (tree, allocs) = run_first_pass(rt.alloc(), text, options)?;
    for place in 0..tree.node_count() {
        print_heading(rt, text, &tree.nodes()[place..], &allocs)?;
    }
    print_links(rt, &allocs)
}

// Prints the first of these nodes if it is a heading. The tokens of its content are the nodes below it, which follow.
fn print_heading(
    rt: &HostRuntime,
    text: &str,
    nodes: &[(usize, Item)],
    allocs: &Allocations<'_>,
) -> Result<()> {
    let [(depth, node), following @ ..] = nodes else {
        return Ok(());
    };
    let ItemBody::Heading(level, attributes) = node.body else {
        return Ok(());
    };
    let id = attributes.and_then(|ix| allocs.attributes_at(ix)?.id);
    let below = following.iter().take_while(|other| *depth < other.0);
    let end = below.last().map_or(node.start, |token| token.1.end);
    let start = following.first().map_or(end, |token| token.1.start);
    let content = text.get(start..end).unwrap_or("");
    let id = id.unwrap_or("");
    println!(rt;
        "{} {}..{} #{id} {content}",
        level as usize, node.start, node.end
    )?;
    Ok(())
}

// Prints the label and the destination of each link definition.
fn print_links(rt: &HostRuntime, allocs: &Allocations<'_>) -> Result<()> {
    for (label, definition) in allocs.refdefs().iter() {
        let (label, dest) = (label.label(), definition.dest.deref());
        println!(rt; "[{label}]: {dest}")?;
    }
    Ok(())
}
