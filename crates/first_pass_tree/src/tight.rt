//! Making the paragraphs of a list tight (CommonMark 5.3).

ghost use Rattle.first_pass_tree.specs.Forest.{Forest, depths};
ghost use Rattle.first_pass_tree.specs.Tight.{with_tight_node, tight_from, tight_items};
ghost use Rattle.std.specs.Prelude.{◌≡◌, ◌+◌, ◌<◌, ◌≤◌, ℕ, length, slice_index};

use crate::forest::Tree;
use crate::subtrees::Subtree;
use crate::tree_index::TreeIndex;
use first_pass_items::item::{Item, ItemBody};

/// Makes the paragraphs directly in the items of the list `list_ix` tight (CommonMark 5.3). Skips the contents of
/// recorded inner lists.
pub fn surgerize_tight_list(tree: &mut Tree<Item>, list_ix: TreeIndex)
    requires { list_ix.0 < length tree.old.nodes }
    ensures { tree.new ≡ tight_items tree.old list_ix }
{
    let list_depth = depth_at(tree, list_ix.0);
    let mut at = tree.end_of(list_ix);
    let first = list_ix.0 + 1;
    while first < at {
        let inner = inner_list(tree, list_depth, first, at);
        tighten_between(tree, list_depth, inner.past, at);
        tighten(tree, list_depth, TreeIndex(inner.place));
        at = inner.place;
    }
}

// Returns the last recorded list between the indices `from` and `to`, with its descendants, if it is inside an item of
// a list of depth `list_depth`. None of its nodes is then a paragraph directly in an item of the outer list. If no
// such list is recorded, returns only the node at `from`.
fn inner_list(tree: &mut Tree<Item>, list_depth: usize, from: usize, to: usize) -> Subtree
    requires { (from < to) × (to ≤ length tree.old.nodes) }
    ensures tree { tree.new ≡ tree.old }
    ensures within { (from ≤ result.place) × (result.place < result.past) × (result.past ≤ to) }
    ensures deeper { (k : ℕ) → result.place < k → k < result.past
        → list_depth + 2 < slice_index (depths tree.old.nodes) k }
{
    match tree.take_subtree(from, to) {
        Some(inner) if 2 <= depth_at(tree, inner.place).saturating_sub(list_depth) => inner,
        _ => Subtree {
            place: from,
            past: from + 1,
        },
    }
}

// Makes the paragraphs directly in items of a list of depth `list_depth` tight. Only changes nodes between the indices
// `from` and `to`, which are all below the list. If the paragraphs from `to` on were tight before, all from `from` on
// are tight afterwards.
fn tighten_between(tree: &mut Tree<Item>, list_depth: usize, from: usize, to: usize)
    requires within { (from ≤ to) × (to ≤ length tree.old.nodes) }
    requires deeper { (k : ℕ) → from ≤ k → k < to → list_depth < slice_index (depths tree.old.nodes) k }
    ensures { (f : Forest Item) → tree.old ≡ tight_from f list_depth to → tree.new ≡ tight_from f list_depth from }
{
    let mut at = to;
    while from < at {
        at -= 1;
        tighten(tree, list_depth, TreeIndex(at));
    }
}

// Makes the node `ix` tight if it is a paragraph directly in an item of a list of depth `list_depth`. Otherwise
// changes nothing (CommonMark 5.3).
fn tighten(tree: &mut Tree<Item>, list_depth: usize, ix: TreeIndex)
    requires within { ix.0 < length tree.old.nodes }
    requires deeper { list_depth < slice_index (depths tree.old.nodes) ix.0 }
    ensures { tree.new ≡ with_tight_node tree.old list_depth ix }
{
    if depth_at(tree, ix.0) - list_depth != 2 {
        return;
    }
    if let ItemBody::Paragraph = tree[ix].body {
        tree.set_body(ix, ItemBody::TightParagraph);
    }
}

// Returns the depth of the node at the index `at`.
fn depth_at(tree: &Tree<Item>, at: usize) -> usize
    requires { at < length tree.now.nodes }
    ensures { result ≡ slice_index (depths tree.now.nodes) at }
{
    tree.nodes()[at].0
}
