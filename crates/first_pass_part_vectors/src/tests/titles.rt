//! The call that removes what follows the titles and definitions of a definition list.

use first_pass_items::item::{Item, ItemBody, ListFlags};
use first_pass_lists::titles::fixup_end_of_definition_list;
use first_pass_tree::forest::Tree;
use std::alloc::{AllocError, Global};
use std::test::Fail;

fn item(start: usize, end: usize, body: ItemBody) -> Item {
    Item { start, end, body }
}

// A title, its definition, a possible title, the paragraph that it becomes, and a quote.
fn blocks() -> [Item; 5] {
    [
        item(0, 1, ItemBody::DefinitionListTitle),
        item(2, 5, ItemBody::DefinitionListDefinition(2)),
        item(6, 7, ItemBody::MaybeDefinitionListTitle),
        item(6, 7, ItemBody::Paragraph),
        item(8, 9, ItemBody::BlockQuote(None)),
    ]
}

fn list_to(end: usize) -> Item {
    item(0, end, ItemBody::DefinitionList(ListFlags::IS_TIGHT))
}

fn rule_in(child: Item) -> Item {
    item(child.start, child.end, ItemBody::Rule)
}

// Appends a block with a rule in it.
fn append_with_rule(tree: &mut Tree<Item>, child: Item) -> Result<(), AllocError> {
    tree.append(child)?;
    tree.push()?;
    tree.append(rule_in(child))?;
    tree.pop();
    Ok(())
}

// Appends a definition list that ends at the offset 9 with these children, each with a rule in it.
fn append_list(tree: &mut Tree<Item>, children: &[Item]) -> Result<(), AllocError> {
    tree.append(list_to(9))?;
    tree.push()?;
    for child in children {
        append_with_rule(tree, *child)?;
    }
    tree.pop();
    Ok(())
}

// Makes the call for the list, the current node.
fn fix_up(tree: &mut Tree<Item>) {
    if let Some(list_ix) = tree.cur() {
        fixup_end_of_definition_list(tree, list_ix);
    }
}

// The nodes of a definition list that ends at the offset `end`, with these children, and of the blocks after it. Each
// child and each block has a rule in it.
fn nodes_with(
    alloc: Global,
    end: usize,
    children: &[Item],
    following: &[Item],
) -> Result<Vec<(usize, Item)>, AllocError> {
    let mut nodes = vec![in alloc; (0, item(0, 0, ItemBody::Root)), (1, list_to(end))]?;
    for child in children {
        nodes.push((2, *child))?;
        nodes.push((3, rule_in(*child)))?;
    }
    for block in following {
        nodes.push((1, *block))?;
        nodes.push((2, rule_in(*block)))?;
    }
    Ok(nodes)
}

// The nodes of a definition list with these children, after the call.
fn fixed_up(alloc: Global, children: &[Item]) -> Result<Vec<(usize, Item)>, AllocError> {
    let mut tree = Tree::with_capacity(alloc, 8)?;
    append_list(&mut tree, children)?;
    fix_up(&mut tree);
    Vec::from_slice(alloc, tree.nodes())
}

// A possible title that stays in the list becomes a paragraph.
#[test]
fn no_block_moves_out_unless_it_follows_a_definition(rt: HostRuntime) -> Result<(), Fail> {
    let alloc = rt.alloc();
    let [title, definition, possible, paragraph, quote] = blocks();
    let whole = fixed_up(alloc, &[title, definition])?;
    assert!(rt; whole == nodes_with(alloc, 9, &[title, definition], &[])?);
    let titles = fixed_up(alloc, &[possible, quote])?;
    assert!(rt; titles == nodes_with(alloc, 9, &[paragraph, quote], &[])?);
    Ok(())
}

// The list then ends with its last definition, and a possible title is a paragraph.
#[test]
fn what_follows_a_definition_moves_out(rt: HostRuntime) -> Result<(), Fail> {
    let alloc = rt.alloc();
    let [title, definition, possible, paragraph, quote] = blocks();
    let nodes = fixed_up(alloc, &[title, definition, possible, quote])?;
    let want = nodes_with(alloc, 5, &[title, definition], &[paragraph, quote])?;
    assert!(rt; nodes == want);
    Ok(())
}
