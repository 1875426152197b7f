//! Nodes made without a text, most of which no text has, and whether their ranges are in order.

use first_pass_cases::breach::{Breach, Flaw};
use first_pass_cases::ranges::find_breach;
use first_pass_items::item::{AlignmentIndex, Item, ItemBody, ListFlags};
use std::test::Fail;

fn node(depth: usize, start: usize, end: usize, body: ItemBody) -> (usize, Item) {
    (depth, Item { start, end, body })
}

fn breach(place: usize, flaw: Flaw) -> Option<Breach> {
    Some(Breach { place, flaw })
}

// The nodes of a task list item that begins with the title of a definition list.
fn titled() -> [(usize, Item); 8] {
    [
        node(0, 0, 13, ItemBody::Root),
        node(1, 0, 13, ItemBody::List(ListFlags::IS_TIGHT, b'-', 0)),
        node(2, 0, 13, ItemBody::ListItem(2)),
        node(3, 6, 13, ItemBody::DefinitionList(ListFlags::IS_TIGHT)),
        node(4, 6, 8, ItemBody::DefinitionListTitle),
        node(5, 2, 5, ItemBody::TaskListMarker(false)),
        node(5, 6, 7, ItemBody::MaybeHtml),
        node(4, 10, 13, ItemBody::DefinitionListDefinition(2)),
    ]
}

#[test]
fn markers_before_titles(rt: HostRuntime) -> Result<(), Fail> {
    let text = "- [ ] <\n  : b";
    assert!(rt; find_breach(rt.alloc(), text, titled().as_slice())? == None);
    let mut nodes = titled();
    // The marker ends in its title.
    nodes[5].1.end = 7;
    assert!(rt; find_breach(rt.alloc(), text, nodes.as_slice())? == breach(5, Flaw::TaskMarker));
    nodes = titled();
    // The marker is first, but not in a title.
    nodes[4].1.body = ItemBody::BlockQuote(None);
    assert!(rt; find_breach(rt.alloc(), text, nodes.as_slice())? == breach(5, Flaw::Outside));
    nodes = titled();
    // The definition list is not directly in an item.
    nodes[2].1.body = ItemBody::BlockQuote(None);
    assert!(rt; find_breach(rt.alloc(), text, nodes.as_slice())? == breach(5, Flaw::TaskMarker));
    nodes = titled();
    // The title is not first in its list.
    nodes[4] = node(4, 6, 6, ItemBody::Paragraph);
    nodes[5] = node(4, 6, 8, ItemBody::DefinitionListTitle);
    nodes[6] = node(5, 2, 5, ItemBody::TaskListMarker(false));
    assert!(rt; find_breach(rt.alloc(), text, nodes.as_slice())? == breach(6, Flaw::TaskMarker));
    Ok(())
}

#[test]
fn nodes_without_a_parent(rt: HostRuntime) -> Result<(), Fail> {
    let root = node(0, 0, 1, ItemBody::Root);
    let rule = ItemBody::Rule;
    assert!(rt; find_breach(rt.alloc(), "a", &[])? == breach(0, Flaw::Root));
    assert!(rt; find_breach(rt.alloc(), "", &[root])? == breach(0, Flaw::Root));
    assert!(rt; find_breach(rt.alloc(), "a", &[root])? == None);
    let twice = [root, root];
    assert!(rt; find_breach(rt.alloc(), "a", &twice)? == breach(1, Flaw::Depth));
    let deep = [root, node(1, 0, 1, rule), node(3, 0, 1, rule)];
    assert!(rt; find_breach(rt.alloc(), "a", &deep)? == breach(2, Flaw::Depth));
    Ok(())
}

#[test]
fn nodes_are_few(rt: HostRuntime) -> Result<(), Fail> {
    let rule = node(1, 0, 0, ItemBody::Rule);
    let mut nodes = [rule; 6];
    nodes[0] = node(0, 0, 1, ItemBody::Root);
    assert!(rt; find_breach(rt.alloc(), "a", &nodes[..5])? == None);
    assert!(rt; find_breach(rt.alloc(), "a", &nodes)? == breach(0, Flaw::TooMany));
    // A cell that is inserted into a row doesn't count; an empty cell of the head does.
    nodes[3] = node(1, 0, 1, ItemBody::Table(AlignmentIndex(0)));
    nodes[4] = node(2, 0, 1, ItemBody::TableRow);
    nodes[5] = node(3, 1, 1, ItemBody::TableCell);
    assert!(rt; find_breach(rt.alloc(), "a", &nodes)? == None);
    nodes[4] = node(2, 0, 1, ItemBody::TableHead);
    assert!(rt; find_breach(rt.alloc(), "a", &nodes)? == breach(0, Flaw::TooMany));
    Ok(())
}
