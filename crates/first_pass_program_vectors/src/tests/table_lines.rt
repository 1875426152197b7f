//! The printed form of a table's node with the entry of its index, and of nodes that no text has.

use bitflags::Flags;
use first_pass_items::item::{Alignment, AlignmentIndex, Item, ItemBody, ListFlags};
use first_pass_names::items::Allocations;
use first_pass_reports::printed::node::append_node;
use std::alloc::{AllocError, Global};
use std::process::Abort;
use std::test::Fail;

fn table(start: usize, end: usize, ix: AlignmentIndex) -> Item {
    let body = ItemBody::Table(ix);
    Item { start, end, body }
}

// Adds the alignments of a table to others.
fn add(
    alloc: Global,
    allocs: &mut Allocations<'_>,
    columns: &[Alignment],
) -> Result<AlignmentIndex, AllocError> {
    let mut list = Vec::new(alloc);
    list.extend_from_slice(columns)?;
    allocs.allocate_alignment(list)
}

// Adds a table of one column and one with a column of each alignment. Appends the lines of both, and returns the
// numbers of their columns.
fn append_tables(
    alloc: Global,
    allocs: &mut Allocations<'_>,
    lines: &mut Vec<u8>,
) -> Result<(usize, usize), AllocError> {
    let one = add(alloc, allocs, &[Alignment::Center])?;
    let each = [
        Alignment::None,
        Alignment::Left,
        Alignment::Center,
        Alignment::Right,
    ];
    let each = add(alloc, allocs, &each)?;
    append_node(lines, 1, table(0, 9, each), allocs)?;
    append_node(lines, 1, table(9, 18, one), allocs)?;
    let of_one = allocs.alignments_at(one).len();
    Ok((of_one, allocs.alignments_at(each).len()))
}

fn print_tables(alloc: Global, lines: &mut Vec<u8>) -> Result<(usize, usize), AllocError> {
    let mut allocs = Allocations::new(alloc);
    append_tables(alloc, &mut allocs, lines)
}

#[test]
fn tables_are_printed(rt: HostRuntime) -> Result<(), Fail> {
    let mut lines = Vec::new(rt.alloc());
    let (of_one, of_each) = print_tables(rt.alloc(), &mut lines)?;
    let expected = b"  Table(-,l,c,r) 0..9\n  Table(c) 9..18\n".as_slice();
    assert!(rt; *lines.as_slice() == *expected);
    assert!(rt; of_one == 1 && of_each == 4, "{of_one} and {of_each}");
    Ok(())
}

// Whether a node of this kind, from the offset 1 to 2, has this printed form.
fn is_printed(alloc: Global, body: ItemBody, want: &[u8]) -> Result<bool, AllocError> {
    let (start, end) = (1, 2);
    let allocs = Allocations::new(alloc);
    let mut lines = Vec::new(alloc);
    append_node(&mut lines, 0, Item { start, end, body }, &allocs)?;
    Ok(*lines.as_slice() == *want)
}

fn assert_printed(
    rt: &impl Abort,
    alloc: Global,
    bodies: &[(ItemBody, &[u8])],
) -> Result<(), Fail> {
    for (body, want) in bodies {
        assert!(rt; is_printed(alloc, *body, want)?, "{want:?}");
    }
    Ok(())
}

#[test]
fn definition_lists_are_printed(rt: HostRuntime) -> Result<(), Fail> {
    let bodies: &[(ItemBody, &[u8])] = &[
        (
            ItemBody::DefinitionList(ListFlags::IS_TIGHT),
            b"DefinitionList(tight) 1..2\n",
        ),
        (
            ItemBody::DefinitionList(ListFlags::empty()),
            b"DefinitionList(loose) 1..2\n",
        ),
        (
            ItemBody::MaybeDefinitionListTitle,
            b"MaybeDefinitionListTitle 1..2\n",
        ),
        (ItemBody::DefinitionListTitle, b"DefinitionListTitle 1..2\n"),
        (
            ItemBody::DefinitionListDefinition(4),
            b"DefinitionListDefinition(4) 1..2\n",
        ),
    ];
    assert_printed(&rt, rt.alloc(), bodies)
}

#[test]
fn tokens_without_texts_are_printed(rt: HostRuntime) -> Result<(), Fail> {
    let bodies: &[(ItemBody, &[u8])] = &[
        (
            ItemBody::MaybeEmphasis(2, true, false),
            b"MaybeEmphasis(2,true,false) 1..2\n",
        ),
        (
            ItemBody::MaybeMath(true, false, 255),
            b"MaybeMath(true,false,255) 1..2\n",
        ),
        (
            ItemBody::MaybeSmartQuote(b'"', true, false),
            b"MaybeSmartQuote(\",true,false) 1..2\n",
        ),
        (
            ItemBody::SynthesizeChar('\u{2014}'),
            b"SynthesizeChar(\xe2\x80\x94) 1..2\n",
        ),
    ];
    assert_printed(&rt, rt.alloc(), bodies)
}
