//! A call of the original that the pass does not make. A definition list keeps its leading titles and definitions, and
//! all later children move out of it (this project).

ghost use Rattle.first_pass_lists.specs.Titles.{first_other, fixed_up, is_title_or_definition, left_untitled};
ghost use Rattle.first_pass_tree.specs.Forest.{depths, last_before};
ghost use Rattle.std.specs.Prelude.{◌≡◌, ◌<◌, ◌≤◌, length, Some};

use first_pass_items::item::{Item, ItemBody};
use first_pass_tree::forest::Tree;
use first_pass_tree::tree_index::TreeIndex;

/// Moves the later children out of the definition list `list_ix`, the current node. The call looks for the first child
/// that is neither a title nor a definition. If there is none, nothing changes. If that child is a possible title, it
/// becomes a paragraph. If it is also the first child of all, nothing is moved. Otherwise it and all nodes after it
/// move out of the list, which then ends where its last remaining child ends.
#[tactic(auto, unfolding(crate::specs::Titles::fixed_up))]
pub fn fixup_end_of_definition_list(tree: &mut Tree<Item>, list_ix: TreeIndex)
    requires { tree.old.current ≡ Some list_ix }
    ensures { tree.new ≡ fixed_up tree.old list_ix }
{
    tree.recall_forest();
    let depth = tree.walk_spine().len() + 2;
    let other = first_other(tree.nodes(), depth, list_ix.0 + 1);
    if other >= tree.node_count() {
        return;
    }
    let kept = last_of_depth(tree.nodes(), depth, other);
    leave_untitled(tree, other);
    if kept <= list_ix.0 {
        return;
    }
    let end = tree[TreeIndex(kept)].end;
    tree.set_end(list_ix, end);
    tree.move_out(TreeIndex(other));
}

// The index of the first node of this depth that is neither a title nor a definition. The search starts at the
// index `from`. If there is no such node, the number of nodes.
fn first_other(nodes: &[(usize, Item)], depth: usize, from: usize) -> usize
    requires { from ≤ length nodes.now }
    ensures { result ≡ first_other depth from nodes.now }
{
    let mut index = from;
    while index < nodes.len() {
        if nodes[index].0 == depth && !is_title_or_definition(&nodes[index].1.body) {
            return index;
        }
        index += 1;
    }
    index
}

// The index of the last node of this depth before the index `before`; 0 if there is none.
fn last_of_depth(nodes: &[(usize, Item)], depth: usize, before: usize) -> usize
    requires { before ≤ length nodes.now }
    ensures { result ≡ last_before (depths nodes.now) depth before }
{
    let mut index = before;
    while 0 < index {
        index -= 1;
        if nodes[index].0 == depth {
            return index;
        }
    }
    0
}

// Whether this is the body of a title or of a definition.
fn is_title_or_definition(body: &ItemBody) -> bool
    ensures { result ≡ is_title_or_definition body.now }
{
    matches!(
        body,
        ItemBody::DefinitionListTitle | ItemBody::DefinitionListDefinition(_)
    )
}

// If the node at `index` is a possible title, makes it a paragraph.
fn leave_untitled(tree: &mut Tree<Item>, index: usize)
    requires { index < length tree.old.nodes }
    ensures { tree.new ≡ left_untitled tree.old index }
{
    tree.recall_forest();
    if matches!(
        tree[TreeIndex(index)].body,
        ItemBody::MaybeDefinitionListTitle
    ) {
        tree.set_body(TreeIndex(index), ItemBody::Paragraph);
    }
}
