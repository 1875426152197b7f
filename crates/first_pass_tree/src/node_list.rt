//! Operations on the list of nodes in reading order; each node is a pair of its depth and its item.

ghost use Rattle.first_pass_tree.specs.Forest.{depths, sibling_of, run_end, in_table, shallower, last_before, deeper, map_from, IsShallow, open_place, cut_tokens, is_single_before, IsOpenPath};
ghost use Rattle.std.specs.Prelude.{◌≡◌, ℕ, ◌+◌, ◌<◌, ◌≤◌, ◌∷◌, slice_index, ◌++◌, ◌^◌, ◌-◌, length, take, drop, reverse, map, Some, None, EachIndex, if◌then◌else◌, nat_lt, IfSome, OnOk, OnErr, slice_get};

use crate::tree_index::TreeIndex;
use first_pass_items::item::{Item, ItemBody};
use std::alloc::AllocError;

/// Returns the first index from `from` on at which the depth is at most `depth`, or the length if there is none.
pub(crate) fn deeper_end(nodes: &[(usize, Item)], depth: usize, from: usize) -> usize
    requires { from ≤ length nodes.now }
    ensures { result ≡ run_end (depths nodes.now) depth from }
{
    let mut end = from;
    while end < nodes.len() && depth < nodes[end].0 {
        end += 1;
    }
    end
}

/// Inserts a node at `index`, and moves each node after it one level deeper. If the allocation fails, the list is
/// unchanged.
pub(crate) fn wrap(
    nodes: &mut Vec<(usize, Item)>,
    index: usize,
    depth: usize,
    item: Item,
) -> Result<(), AllocError>
    requires within { index ≤ length nodes.old.items }
    requires small { IsShallow (depths nodes.old.items) }
    ensures ok { OnOk result
        (nodes.new.items ≡ take index nodes.old.items
        ++ (depth, item) ∷ map deeper (drop index nodes.old.items)) }
    ensures err { OnErr result (nodes.new.items ≡ nodes.old.items) }
{
    nodes.insert(index, (depth, item))?;
    raise(nodes, index + 1);
    Ok(())
}

/// Moves each node from the index `from` on one level deeper.
pub(crate) fn raise(nodes: &mut Vec<(usize, Item)>, from: usize)
    requires { (k : ℕ) → from ≤ k → k < length nodes.old.items → slice_index (depths nodes.old.items) k < 2 ^ 63 }
    ensures { nodes.new.items ≡ map_from deeper from nodes.old.items }
{
    let mut next = from;
    while next < nodes.len() {
        let node = &mut nodes[next];
        node.0 += 1;
        next += 1;
    }
}

/// Moves each node from the index `from` on one level up.
pub(crate) fn lower(nodes: &mut Vec<(usize, Item)>, from: usize)
    requires { (k : ℕ) → from ≤ k → k < length nodes.old.items → 0 < slice_index (depths nodes.old.items) k }
    ensures { nodes.new.items ≡ map_from shallower from nodes.old.items }
{
    let mut next = from;
    while next < nodes.len() {
        let node = &mut nodes[next];
        node.0 -= 1;
        next += 1;
    }
}

/// Returns the last index at which the depth is this one, or 0 if there is none.
pub(crate) fn last_of_depth(nodes: &[(usize, Item)], depth: usize) -> usize
    ensures { result ≡ last_before (depths nodes.now) depth (length nodes.now) }
{
    let mut index = nodes.len();
    while 0 < index {
        index -= 1;
        if nodes[index].0 == depth {
            return index;
        }
    }
    0
}

/// Returns the index after the innermost open node, which may be the root; `spine` is outermost first.
pub(crate) fn first_place(spine: &[TreeIndex]) -> usize
    requires { EachIndex spine.now (λ k. IfSome (slice_get spine.now k) (λ ix. ix.0 < 2 ^ 63)) }
    ensures { result ≡ open_place (reverse spine.now) + 1 }
{
    match spine.last() {
        Some(ix) => ix.0 + 1,
        None => 1,
    }
}

/// Returns the index of the last node of this depth, or `None` if there is no node from the index `first` on.
pub(crate) fn last_child(nodes: &[(usize, Item)], first: usize, depth: usize) -> Option<TreeIndex>
    ensures { result ≡ (if nat_lt first (length nodes.now)
        then Some (record { 0 = last_before (depths nodes.now) depth (length nodes.now) }) else None) }
{
    if first < nodes.len() {
        Some(TreeIndex(last_of_depth(nodes, depth)))
    } else {
        None
    }
}

/// Cuts the tokens from the index `first` on, which have this depth, at the offset `end`: see
/// `Tree::truncate_siblings`.
pub(crate) fn cut_nodes(nodes: &mut Vec<(usize, Item)>, first: usize, depth: usize, end: usize)
    requires first_in { first ≤ length nodes.old.items }
    ensures { nodes.new.items ≡ take first nodes.old.items ++ cut_tokens end depth (drop first nodes.old.items) }
{
    let mut kept = first;
    while kept < nodes.len() {
        let node = &mut nodes[kept];
        if node.0 <= depth {
            if end <= node.1.start {
                if node.1.start == end
                    && matches!(
                        &node.1.body,
                        ItemBody::Text {
                            backslash_escaped: true
                        }
                    )
                {
                    node.1 = Item {
                        start: end.saturating_sub(1),
                        end,
                        body: ItemBody::Text {
                            backslash_escaped: false,
                        },
                    };
                    kept += 1;
                }
                break;
            }
            if end < node.1.end {
                node.1.end = end;
            }
        }
        kept += 1;
    }
    nodes.truncate(kept);
}

/// Returns whether exactly one node has the index `first` or a later one, and whether that node starts before the
/// offset `end` and ends there at the latest.
#[inline(always)]
pub(crate) fn is_single_before(nodes: &[(usize, Item)], first: usize, end: usize) -> bool
    requires { first ≤ length nodes.now }
    ensures { result ≡ is_single_before end (drop first nodes.now) }
{
    first + 1 == nodes.len() && nodes[first].1.start < end && nodes[first].1.end <= end
}

/// Returns the index of the next sibling of the node at `index`, or `None` if it has none.
pub(crate) fn sibling_in(nodes: &[(usize, Item)], index: usize) -> Option<TreeIndex>
    requires { index < length nodes.now }
    ensures { result ≡ sibling_of (depths nodes.now) index }
{
    let end = deeper_end(nodes, nodes[index].0, index + 1);
    if end < nodes.len() && nodes[end].0 == nodes[index].0 {
        Some(TreeIndex(end))
    } else {
        None
    }
}

/// Returns whether the innermost open node is a table or a part of one: the open nodes from it outwards are table
/// heads, rows and cells, up to a table. `spine` is outermost first.
pub(crate) fn in_table_of(nodes: &[(usize, Item)], spine: &[TreeIndex]) -> bool
    requires { IsOpenPath (depths nodes.now) (reverse spine.now) }
    ensures { result ≡ in_table nodes.now (reverse spine.now) }
{
    let mut left = spine.len();
    while 0 < left {
        left -= 1;
        let ix = spine[left];
        match nodes[ix.0].1.body {
            ItemBody::Table(_) => return true,
            ItemBody::TableHead | ItemBody::TableRow | ItemBody::TableCell => {}
            _ => return false,
        }
    }
    false
}
