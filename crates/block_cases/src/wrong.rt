//! Trees that are not in order: each is the tree of a text with one node changed.

use crate::sums::Sums;
use bitflags::Flags;
use first_pass_blocks::pass::run_first_pass;
use first_pass_cases::breach::{Breach, Flaw};
use first_pass_cases::ranges::find_breach;
use first_pass_items::item::{Item, ItemBody};
use first_pass_items::option_set::Options;
use first_pass_tree::forest::Tree;
use first_pass_tree::tree_index::TreeIndex;
use std::alloc::{AllocError, Global};

// The text whose tree is changed, of 13 bytes. Its nodes by index: 0 the root; 1 a list; 2 an item 0..4 with 3 a
// paragraph 2..4 that has 4 a text; 5 an item 4..13 with 6 a paragraph 10..13 that has 7 a task list item marker 6..9
// and 8 a text.
const TEXT: &str = "- b\n- [x] a\u{e9}";

// Another range for a node, and the fault that must be reported.
#[derive(Clone, Copy)]
struct Moved {
    place: usize,
    start: usize,
    end: usize,
    flaw: Flaw,
}

const fn move_to(place: usize, start: usize, end: usize, flaw: Flaw) -> Moved {
    Moved {
        place,
        start,
        end,
        flaw,
    }
}

/// Checks each wrong tree, and appends each that is not reported for its own fault to the report.
pub fn check(alloc: Global, sums: &mut Sums, report: &mut String) -> Result<(), AllocError> {
    check_ranges(alloc, sums, report)?;
    check_bodies(alloc, sums, report)
}

// Checks trees in which one node has another range.
fn check_ranges(alloc: Global, sums: &mut Sums, report: &mut String) -> Result<(), AllocError> {
    for Moved {
        place,
        start,
        end,
        flaw,
    } in [
        // The root ends before the end of the text, or starts in the text.
        move_to(0, 0, 12, Flaw::Root),
        move_to(0, 1, 13, Flaw::Root),
        // An end before the start, after the text, and inside a character; a start inside one.
        move_to(8, 10, 9, Flaw::Turned),
        move_to(8, 10, 14, Flaw::PastText),
        move_to(8, 10, 12, Flaw::InCharacter),
        move_to(8, 12, 13, Flaw::InCharacter),
        // A child past its parent's end, and one before its start.
        move_to(3, 2, 5, Flaw::Outside),
        move_to(4, 1, 3, Flaw::Outside),
        // An item that starts within the one before it.
        move_to(5, 3, 13, Flaw::Overlap),
        // A task list item marker before its item, and one that ends in its paragraph.
        move_to(7, 3, 9, Flaw::TaskMarker),
        move_to(7, 6, 11, Flaw::TaskMarker),
    ] {
        let mut tree = read(alloc)?;
        if let Some((_, Item { body, .. })) = tree.nodes().get(place).copied() {
            put(&mut tree, place, Item { start, end, body });
        }
        count_told(alloc, &tree, Breach { place, flaw }, sums, report)?;
    }
    Ok(())
}

// Checks trees in which one node has another body.
fn check_bodies(alloc: Global, sums: &mut Sums, report: &mut String) -> Result<(), AllocError> {
    for (place, body, told, flaw) in [
        // A title that is still only a possible one.
        (
            3,
            ItemBody::MaybeDefinitionListTitle,
            3,
            Flaw::PossibleTitle,
        ),
        // A task list item marker in a paragraph that is not directly in an item, and in a node that is no paragraph.
        (5, ItemBody::BlockQuote(None), 7, Flaw::TaskMarker),
        (6, ItemBody::HtmlBlock, 7, Flaw::Outside),
        // Another node than a task list item marker before a paragraph.
        (7, ItemBody::SoftBreak, 7, Flaw::Outside),
    ] {
        let mut tree = read(alloc)?;
        if let Some((_, Item { start, end, .. })) = tree.nodes().get(place).copied() {
            put(&mut tree, place, Item { start, end, body });
        }
        count_told(alloc, &tree, Breach { place: told, flaw }, sums, report)?;
    }
    Ok(())
}

// The tree of the text, under all options.
fn read(alloc: Global) -> Result<Tree<Item>, AllocError> {
    let (tree, _allocs) = run_first_pass(alloc, TEXT, Options::all())?;
    Ok(tree)
}

// Replaces the node at an index, if there is one.
fn put(tree: &mut Tree<Item>, place: usize, item: Item) {
    if place < tree.node_count() {
        tree.set_item(TreeIndex(place), item);
    }
}

// Counts a wrong tree, and appends it to the report if it is not reported as it must be.
fn count_told(
    alloc: Global,
    tree: &Tree<Item>,
    wanted: Breach,
    sums: &mut Sums,
    report: &mut String,
) -> Result<(), AllocError> {
    let is_told = find_breach(alloc, TEXT, tree.nodes())? == Some(wanted);
    sums.count_wrong(is_told);
    if !is_told {
        let (number, place, message) = (sums.wrong, wanted.place, wanted.flaw.message());
        write!(
            report,
            "wrong tree {number} is not told: node {place}: {message}\n"
        )?;
    }
    Ok(())
}
