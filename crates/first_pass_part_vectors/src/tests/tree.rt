//! The calls of a tree, in sequence.

ghost use Rattle.first_pass_tree.specs.Forest.{empty_forest};
ghost use Rattle.std.specs.Prelude.{◌≡◌};

use super::steps::{Step, item, take_each, text};
use first_pass_items::item::{AlignmentIndex, Item, ItemBody, ListFlags};
use first_pass_tree::forest::Tree;
use first_pass_tree::tree_index::TreeIndex;
use std::alloc::{AllocError, Global};
use std::test::Fail;

// Whether a tree has these nodes and this current node.
fn has(tree: &Tree<Item>, nodes: &[(usize, Item)], cur: Option<TreeIndex>) -> bool {
    tree.nodes() == nodes && tree.node_count() == nodes.len() && tree.cur() == cur
}

// Whether a new tree has these nodes and this current node after these steps.
fn becomes(
    alloc: Global,
    steps: &[Step],
    nodes: &[(usize, Item)],
    cur: usize,
) -> Result<bool, AllocError> {
    let mut tree = Tree::with_capacity(alloc, 4)?;
    take_each(&mut tree, steps)?;
    Ok(has(&tree, nodes, Some(TreeIndex(cur))))
}

// Tries to close and to remove a node of a new tree, and returns whether it has no node but its root.
fn is_root_alone(tree: &mut Tree<Item>) -> bool {
    has(tree, &[(0, item(0, 0, ItemBody::Root))], None)
        && tree.root() == TreeIndex(0)
        && tree.spine_len() == 0
        && tree.peek_up() == None
        && tree.pop() == None
        && tree.remove_node() == None
}

// Appends a node and opens it, and returns whether it was current and is then open.
fn opens_what_it_appends(tree: &mut Tree<Item>) -> Result<bool, AllocError> {
    let block = tree.append(item(0, 9, ItemBody::Paragraph))?;
    tree.reserve(9)?;
    let is_current = tree.cur() == Some(block) && tree.node_count() == 2;
    Ok(is_current && tree.push()? == block && tree.cur() == None)
}

#[test]
fn begins_with_the_root(rt: HostRuntime) -> Result<(), Fail> {
    let mut tree = Tree::with_capacity(rt.alloc(), 4)?;
    assert!(rt; is_root_alone(&mut tree));
    assert!(rt; opens_what_it_appends(&mut tree)?);
    Ok(())
}

// Appends a quote with a paragraph of two texts. The paragraph is open, and the second text is current.
fn append_quote(tree: &mut Tree<Item>) -> Result<(), AllocError> {
    take_each(
        tree,
        &[
            Step::Append(item(0, 9, ItemBody::BlockQuote(None))),
            Step::Push,
            Step::Append(item(2, 9, ItemBody::Paragraph)),
            Step::Push,
            Step::AppendText(2, 3, false),
            Step::AppendText(3, 5, true),
            Step::AppendText(5, 5, true),
            Step::AppendText(6, 9, true),
        ],
    )
}

fn quote_nodes() -> [(usize, Item); 5] {
    [
        (0, item(0, 0, ItemBody::Root)),
        (1, item(0, 9, ItemBody::BlockQuote(None))),
        (2, item(2, 9, ItemBody::Paragraph)),
        (3, item(2, 5, text(false))),
        (3, item(6, 9, text(true))),
    ]
}

// Closes the paragraph of the quote, and returns whether it was open and is then current.
fn closes_the_paragraph(tree: &mut Tree<Item>) -> bool {
    tree.recall_forest();
    tree.peek_up() == Some(TreeIndex(2))
        && tree.peek_grandparent() == Some(TreeIndex(1))
        && tree.spine_len() == 2
        && tree.walk_spine() == [TreeIndex(1), TreeIndex(2)].as_slice()
        && tree.pop() == Some(TreeIndex(2))
        && tree.cur() == Some(TreeIndex(2))
}

#[test]
fn grows_at_its_end(rt: HostRuntime) -> Result<(), Fail> {
    let mut tree = Tree::with_capacity(rt.alloc(), 5)?;
    append_quote(&mut tree)?;
    assert!(rt; has(&tree, &quote_nodes(), Some(TreeIndex(4))));
    assert!(rt; closes_the_paragraph(&mut tree));
    Ok(())
}

// Whether the nodes of the quote are found from each other.
fn leads_to_each_node(tree: &Tree<Item>) -> bool {
    if tree.node_count() <= 4 {
        return false;
    }
    tree.first_child(TreeIndex(2)) == Some(TreeIndex(3))
        && tree.first_child(TreeIndex(3)) == None
        && tree.next_sibling(TreeIndex(3)) == Some(TreeIndex(4))
        && tree.next_sibling(TreeIndex(4)) == None
        && tree.next_sibling(TreeIndex(2)) == None
        && tree[TreeIndex(2)] == item(2, 9, ItemBody::Paragraph)
}

#[test]
fn is_read_at_places(rt: HostRuntime) -> Result<(), Fail> {
    let mut tree = Tree::with_capacity(rt.alloc(), 5)?;
    append_quote(&mut tree)?;
    assert!(rt; leads_to_each_node(&tree));
    Ok(())
}

// Writes an end, a body, a field and a whole node.
fn write_nodes(tree: &mut Tree<Item>) {
    if 4 < tree.node_count() {
        tree.set_end(TreeIndex(2), 8);
    }
    if 4 < tree.node_count() {
        tree.set_body(TreeIndex(2), ItemBody::TightParagraph);
    }
    if 4 < tree.node_count() {
        tree[TreeIndex(4)].end = 8;
    }
    if 4 < tree.node_count() {
        tree.set_item(TreeIndex(3), item(2, 5, ItemBody::MaybeHtml));
    }
}

#[test]
fn is_written_at_places(rt: HostRuntime) -> Result<(), Fail> {
    let mut tree = Tree::with_capacity(rt.alloc(), 5)?;
    append_quote(&mut tree)?;
    write_nodes(&mut tree);
    let mut nodes = quote_nodes();
    nodes[2].1 = item(2, 8, ItemBody::TightParagraph);
    nodes[3].1 = item(2, 5, ItemBody::MaybeHtml);
    nodes[4].1.end = 8;
    assert!(rt; has(&tree, &nodes, Some(TreeIndex(4))));
    Ok(())
}

// Opens nodes with these bodies, each in the one before, and returns whether each is in a table as is expected.
fn knows_tables(tree: &mut Tree<Item>, bodies: &[(ItemBody, bool)]) -> Result<bool, AllocError> {
    let mut knows = !tree.is_in_table();
    for (body, want) in bodies {
        tree.append(item(0, 1, *body))?;
        tree.push()?;
        knows = knows && tree.is_in_table() == *want;
    }
    Ok(knows)
}

#[test]
fn tables_are_known(rt: HostRuntime) -> Result<(), Fail> {
    let bodies = [
        (ItemBody::BlockQuote(None), false),
        (ItemBody::Table(AlignmentIndex(0)), true),
        (ItemBody::TableHead, true),
        (ItemBody::TableCell, true),
        (ItemBody::Paragraph, false),
        (ItemBody::TableCell, false),
    ];
    let mut tree = Tree::with_capacity(rt.alloc(), 4)?;
    assert!(rt; knows_tables(&mut tree, &bodies)?);
    Ok(())
}

// Steps to an open paragraph of three tokens, cut at the offset 6. Only a backslash remains of the last one.
fn cut_paragraph() -> [Step; 6] {
    [
        Step::Append(item(0, 9, ItemBody::Paragraph)),
        Step::Push,
        Step::Append(item(0, 4, text(false))),
        Step::Append(item(4, 5, ItemBody::MaybeHtml)),
        Step::Append(item(6, 9, text(true))),
        Step::Truncate(6),
    ]
}

#[test]
fn cuts_tokens(rt: HostRuntime) -> Result<(), Fail> {
    let nodes = [
        (0, item(0, 0, ItemBody::Root)),
        (1, item(0, 9, ItemBody::Paragraph)),
        (2, item(0, 4, text(false))),
        (2, item(4, 5, ItemBody::MaybeHtml)),
        (2, item(5, 6, text(false))),
    ];
    assert!(rt; becomes(rt.alloc(), &cut_paragraph(), &nodes, 4)?);
    Ok(())
}

#[test]
fn cuts_nodes_with_children(rt: HostRuntime) -> Result<(), Fail> {
    let steps = [
        Step::Append(item(0, 5, ItemBody::BlockQuote(None))),
        Step::Push,
        Step::Append(item(1, 5, ItemBody::Rule)),
        Step::Pop,
        Step::Append(item(6, 11, ItemBody::BlockQuote(None))),
        Step::Push,
        Step::Append(item(7, 11, ItemBody::Rule)),
        Step::Pop,
        Step::Truncate(4),
    ];
    let nodes = [
        (0, item(0, 0, ItemBody::Root)),
        (1, item(0, 4, ItemBody::BlockQuote(None))),
        (2, item(1, 5, ItemBody::Rule)),
    ];
    assert!(rt; becomes(rt.alloc(), &steps, &nodes, 1)?);
    Ok(())
}

// Puts a node between the current node and its children, and returns whether the tree has these nodes then.
fn wraps(tree: &mut Tree<Item>, title: Item, nodes: &[(usize, Item)]) -> Result<bool, AllocError> {
    if tree.cur() != Some(TreeIndex(1)) {
        return Ok(false);
    }
    Ok(tree.create_node(title)? == TreeIndex(2) && has(tree, nodes, Some(TreeIndex(1))))
}

#[test]
fn wraps_children(rt: HostRuntime) -> Result<(), Fail> {
    let title = item(0, 9, ItemBody::DefinitionListTitle);
    let nodes = [
        (0, item(0, 0, ItemBody::Root)),
        (1, item(0, 9, ItemBody::Paragraph)),
        (2, title),
        (3, item(0, 4, text(false))),
        (3, item(4, 5, ItemBody::MaybeHtml)),
        (3, item(5, 6, text(false))),
    ];
    let mut tree = Tree::with_capacity(rt.alloc(), 5)?;
    take_each(&mut tree, &cut_paragraph())?;
    tree.pop();
    assert!(rt; wraps(&mut tree, title, &nodes)?);
    Ok(())
}

// Appends an open paragraph with two tokens, and drops them. Returns the paragraph.
fn drop_tokens(tree: &mut Tree<Item>) -> Result<TreeIndex, AllocError> {
    tree.append(item(0, 9, ItemBody::Paragraph))?;
    let opened = tree.push()?;
    tree.append(item(0, 4, text(false)))?;
    tree.append(item(4, 9, ItemBody::MaybeHtml))?;
    tree.drop_children(opened);
    Ok(opened)
}

// Appends a text to an open node without children, and removes it. Returns whether the node is then closed.
fn loses_its_child(tree: &mut Tree<Item>, open: TreeIndex) -> Result<bool, AllocError> {
    tree.append(item(0, 4, text(false)))?;
    Ok(tree.remove_node() == Some(open) && tree.cur() == Some(open))
}

#[test]
fn drops_children(rt: HostRuntime) -> Result<(), Fail> {
    let nodes = [
        (0, item(0, 0, ItemBody::Root)),
        (1, item(0, 9, ItemBody::Paragraph)),
    ];
    let mut tree = Tree::with_capacity(rt.alloc(), 4)?;
    let opened = drop_tokens(&mut tree)?;
    assert!(rt; has(&tree, &nodes, None));
    assert!(rt; loses_its_child(&mut tree, opened)? && has(&tree, &nodes, Some(opened)));
    Ok(())
}

// Appends a quote and two rules, and drops the rules.
fn drop_rules(tree: &mut Tree<Item>) -> Result<(), AllocError>
    requires { tree.old ≡ empty_forest }
{
    let first = tree.append(item(0, 1, ItemBody::BlockQuote(None)))?;
    let rule = item(1, 2, ItemBody::Rule);
    tree.append(rule)?;
    tree.append(rule)?;
    tree.drop_after(first);
    Ok(())
}

#[test]
fn drops_siblings(rt: HostRuntime) -> Result<(), Fail> {
    let nodes = [
        (0, item(0, 0, ItemBody::Root)),
        (1, item(0, 1, ItemBody::BlockQuote(None))),
    ];
    let mut tree = Tree::with_capacity(rt.alloc(), 4)?;
    drop_rules(&mut tree)?;
    assert!(rt; has(&tree, &nodes, Some(TreeIndex(1))));
    Ok(())
}

// Appends a definition list of a title and a paragraph, and moves the paragraph out of the list.
fn move_paragraph_out(tree: &mut Tree<Item>) -> Result<(), AllocError>
    requires { tree.old ≡ empty_forest }
{
    tree.append(item(0, 9, ItemBody::DefinitionList(ListFlags::IS_TIGHT)))?;
    tree.push()?;
    let kept = tree.append(item(0, 1, ItemBody::DefinitionListTitle))?;
    tree.append(item(2, 3, ItemBody::Paragraph))?;
    tree.push()?;
    tree.append(item(2, 3, text(false)))?;
    tree.pop();
    tree.pop();
    tree.truncate_to_parent(kept);
    Ok(())
}

#[test]
fn moves_siblings_out(rt: HostRuntime) -> Result<(), Fail> {
    let nodes = [
        (0, item(0, 0, ItemBody::Root)),
        (1, item(0, 9, ItemBody::DefinitionList(ListFlags::IS_TIGHT))),
        (2, item(0, 1, ItemBody::DefinitionListTitle)),
        (1, item(2, 3, ItemBody::Paragraph)),
        (2, item(2, 3, text(false))),
    ];
    let mut tree = Tree::with_capacity(rt.alloc(), 4)?;
    move_paragraph_out(&mut tree)?;
    assert!(rt; has(&tree, &nodes, Some(TreeIndex(3))));
    Ok(())
}
