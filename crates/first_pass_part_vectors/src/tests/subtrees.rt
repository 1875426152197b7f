//! The recorded subtrees of a tree, over several calls.

ghost use Rattle.first_pass_tree.specs.Forest.{empty_forest};
ghost use Rattle.std.specs.Prelude.{◌≡◌};

use super::steps::{Step, item, take_each};
use first_pass_items::item::{Item, ItemBody, ListFlags};
use first_pass_tree::forest::Tree;
use first_pass_tree::subtrees::Subtree;
use first_pass_tree::tree_index::TreeIndex;
use std::alloc::AllocError;
use std::test::Fail;

// Appends `- - a` without its paragraph: a list in the open item of a list. Both are recorded, and the inner list is
// closed.
fn append_lists(tree: &mut Tree<Item>) -> Result<(), AllocError> {
    let list = item(0, 4, ItemBody::List(ListFlags::IS_TIGHT, b'-', 0));
    take_each(
        tree,
        &[
            Step::Append(list),
            Step::Push,
            Step::Remember,
            Step::Append(item(0, 4, ItemBody::ListItem(2))),
            Step::Push,
            Step::Append(list),
            Step::Push,
            Step::Remember,
            Step::Append(item(2, 4, ItemBody::ListItem(2))),
            Step::Push,
            Step::Pop,
            Step::Pop,
            Step::NoteEnd,
        ],
    )
}

// Takes the inner list, and returns whether it is recorded once, and whether both lists end with the last node.
fn takes_the_inner_list(tree: &mut Tree<Item>) -> bool {
    let ends = 4 < tree.node_count()
        && tree.end_of(TreeIndex(3)) == 5
        && tree.end_of(TreeIndex(1)) == 5;
    let none = tree.take_subtree(4, 5) == None && tree.take_subtree(2, 4) == None;
    let inner = tree.take_subtree(2, 5) == Some(Subtree { place: 3, past: 5 });
    ends && none && inner && tree.take_subtree(2, 5) == None
}

#[test]
fn closed_subtrees_are_remembered(rt: HostRuntime) -> Result<(), Fail> {
    let mut tree = Tree::with_capacity(rt.alloc(), 5)?;
    append_lists(&mut tree)?;
    assert!(rt; takes_the_inner_list(&mut tree));
    // The outer list is closed too.
    take_each(&mut tree, &[Step::Pop, Step::Pop, Step::NoteEnd])?;
    assert!(rt; tree.take_subtree(0, 5) == None);
    Ok(())
}

// Removes everything below the item of the outer list, and takes that list. Returns whether it is recorded once.
fn takes_the_outer_list(tree: &mut Tree<Item>) -> Result<bool, AllocError> {
    if tree.remove_node() != Some(TreeIndex(2)) {
        return Ok(false);
    }
    let rule = Step::Append(item(0, 4, ItemBody::Rule));
    take_each(tree, &[rule, rule])?;
    let outer = tree.take_subtree(0, 5) == Some(Subtree { place: 1, past: 2 });
    Ok(outer && tree.take_subtree(0, 5) == None)
}

#[test]
fn cut_subtrees_are_forgotten(rt: HostRuntime) -> Result<(), Fail> {
    let mut tree = Tree::with_capacity(rt.alloc(), 5)?;
    append_lists(&mut tree)?;
    assert!(rt; takes_the_outer_list(&mut tree)?);
    Ok(())
}

// Appends a definition list in a quote, and moves its only child out of it. Before that it records the end of the
// list, after the child or before it. Returns whether the child is then current, and the next sibling of the list.
fn move_child_out(tree: &mut Tree<Item>, ends_before: bool) -> Result<bool, AllocError>
    requires { tree.old ≡ empty_forest }
{
    tree.append(item(0, 4, ItemBody::BlockQuote(None)))?;
    tree.push()?;
    tree.remember()?;
    let list = tree.append(item(2, 4, ItemBody::DefinitionList(ListFlags::IS_TIGHT)))?;
    tree.push()?;
    tree.remember()?;
    let left = tree.append(item(2, 4, ItemBody::Paragraph))?;
    tree.pop();
    if ends_before {
        tree.note_end_before(left);
    } else {
        tree.note_end();
    }
    tree.move_out(left);
    Ok(tree.cur() == Some(left) && tree.next_sibling(list) == Some(left))
}

#[test]
fn keeps_a_subtree_that_ends_before_a_child_that_leaves(rt: HostRuntime) -> Result<(), Fail> {
    let outer = Subtree { place: 1, past: 2 };
    let inner = Subtree { place: 2, past: 3 };
    for (ends_before, kept) in [(false, outer), (true, inner)] {
        let mut tree = Tree::with_capacity(rt.alloc(), 4)?;
        assert!(rt; move_child_out(&mut tree, ends_before)?);
        assert!(rt; tree.take_subtree(0, 4) == Some(kept));
    }
    Ok(())
}
