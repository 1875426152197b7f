//! The tree as a list of nodes in reading order, with the path of its open nodes.

ghost use Rattle.first_pass_tree.specs.Forest.{empty_forest, appended, pushed, popped, cut_to, with_text, with_item, with_end_at, with_body_at, item_at, depths, child_of, sibling_of, kept_after, childless, in_table, wrapped, IsChildOfCurrent, CanMoveFrom, moved_from, moved_out, IsChild, cut_siblings, IsForest, end_of, open_place, added, block_of, text_between};
ghost use Rattle.first_pass_tree.specs.Subtrees.{IsSubtree};
ghost use Rattle.std.specs.Borrow.{sem};
ghost use Rattle.std.specs.Prelude.{◌≡◌, ◌+◌, ◌<◌, ◌≤◌, ◌∷◌, [], ◌-◌, length, reverse, Some, None, IfOk, IfSome, OnOk, OnErr, IsSome, MatchOption, slice_get};

use crate::node_list::{
    cut_nodes, deeper_end, first_place, in_table_of, is_single_before, last_child, last_of_depth,
    lower, sibling_in, wrap,
};
use crate::subtrees::{Subtree, Subtrees};
use crate::tree_index::TreeIndex;
use first_pass_items::item::{Item, ItemBody};
use std::alloc::{AllocError, Global};
use std::marker::Model;
use std::ops::{Index, IndexMut};

/// A tree of items under construction. The nodes are a list in reading order, each with its depth (the root's is 0).
/// The children of a node are the nodes one level deeper that follow it, up to the next node of its depth or less. New
/// nodes become children of the innermost open node. The root is always open. Each open node is the last node of its
/// depth. The current node, if any, is the last child of the innermost open node.
#[derive(Drop)]
pub struct Tree<T> {
    nodes: Vec<(usize, T)>,
    spine: Vec<TreeIndex>,
    cur: Option<TreeIndex>,
    // The subtrees that `surgerize_tight_list` can skip, with their ends as far as they are known.
    subtrees: Subtrees,
}

impl<T> Model for Tree<T> {
    ghost use Rattle.first_pass_tree.specs.Forest.{Forest};
    ghost use Rattle.first_pass_tree.specs.Subtrees.{IsTree};
    ghost use Rattle.std.specs.Prelude.{reverse};

    ghost Value = { Forest T };

    ghost view = { λ t. record { nodes = t.nodes.items; spine = reverse t.spine.items; current = t.cur } };

    ghost invariant = { λ t. IsTree (record {
      nodes = t.nodes.items;
      spine = reverse t.spine.items;
      current = t.cur;
    }) t.subtrees };
}

impl Tree<Item> {
    /// Returns a tree that has only the root: a `Root` at 0..0. No other node is open, and there is no current node.
    /// `capacity` is a hint for the number of nodes. Fails only if an allocation fails.
    pub fn with_capacity(alloc: Global, capacity: usize) -> Result<Tree<Item>, AllocError>
        ensures { IfOk result (λ tree. tree ≡ empty_forest) }
    {
        let mut nodes = Vec::with_capacity(alloc, capacity)?;
        let root = Item {
            start: 0,
            end: 0,
            body: ItemBody::Root,
        };
        nodes.push((0, root))?;
        Ok(Tree {
            nodes,
            spine: Vec::new(alloc),
            cur: None,
            subtrees: Subtrees::new(alloc),
        })
    }

    /// Makes room for this many more nodes. The tree stays the same. Fails only if an allocation fails.
    pub fn reserve(&mut self, additional: usize) -> Result<(), AllocError>
        ensures { self.new ≡ self.old }
    {
        self.nodes.reserve(additional)
    }

    /// Does nothing; its contract states the invariant of a tree. The depths are those of a tree in reading order, the
    /// open nodes are a path, and the current node is the last child of the innermost open node.
    pub fn recall_forest(&self)
        ensures { IsForest self.now }
    {
        let _ = &self.nodes;
    }

    /// Returns the index of the root.
    pub fn root(&self) -> TreeIndex
        ensures value { result.0 ≡ 0 }
        ensures within { 0 < length self.now.nodes }
    {
        let _ = &self.nodes;
        TreeIndex(0)
    }

    /// Returns all nodes in reading order, the root first, each with its depth. `TreeIndex(i)` is the index of node
    /// `i`.
    pub fn nodes(&self) -> &[(usize, Item)]
        ensures { result.now ≡ self.now.nodes }
    {
        self.nodes.as_slice()
    }

    /// Returns the number of nodes, including the root.
    pub fn node_count(&self) -> usize
        ensures { result ≡ length self.now.nodes }
    {
        self.nodes.len()
    }

    /// Adds a last child to the innermost open node, makes it current, and returns its index. Fails only if an
    /// allocation fails; the tree is then unchanged.
    pub fn append(&mut self, item: Item) -> Result<TreeIndex, AllocError>
        ensures index { IfOk result (λ ix. ix.0 ≡ length self.old.nodes) }
        ensures ok { OnOk result (self.new ≡ appended self.old item) }
        ensures err { OnErr result (self.new ≡ self.old) }
    {
        let ix = TreeIndex(self.nodes.len());
        self.nodes.push((self.spine.len() + 1, item))?;
        self.cur = Some(ix);
        Ok(ix)
    }

    /// Adds the text of the bytes `start..end`. An empty range changes nothing. If the current node is a text that ends
    /// at `start`, it is extended to `end`. Otherwise a `Text` with this `backslash_escaped` is appended. Fails only if
    /// an allocation fails; the tree is then unchanged.
    #[inline(always)]
    pub fn append_text(
        &mut self,
        start: usize,
        end: usize,
        backslash_escaped: bool,
    ) -> Result<(), AllocError>
        ensures ok { OnOk result (self.new ≡ with_text self.old start end backslash_escaped) }
        ensures err { OnErr result (self.new ≡ self.old) }
    {
        if start == end {
            return Ok(());
        }
        if let Some(ix) = self.cur {
            let item = self[ix];
            if matches!(&item.body, ItemBody::Text { .. }) && item.end == start {
                self.set_end(ix, end);
                return Ok(());
            }
        }
        self.append(Item {
            start,
            end,
            body: ItemBody::Text { backslash_escaped },
        })?;
        Ok(())
    }

    /// Adds a last child to the innermost open node, and makes it current. Its only child is the text of the bytes
    /// `start..end`; it has none if that range is empty. Fails only if an allocation fails; the tree is then unchanged.
    #[inline(always)]
    pub fn append_with_text(
        &mut self,
        item: Item,
        start: usize,
        end: usize,
    ) -> Result<(), AllocError>
        ensures ok { OnOk result (self.new ≡ added self.old (block_of item (text_between start end))) }
        ensures err { OnErr result (self.new ≡ self.old) }
    {
        let index = TreeIndex(self.nodes.len());
        let depth = self.spine.len() + 1;
        self.nodes.push((depth, item))?;
        if end <= start {
            self.cur = Some(index);
            return Ok(());
        }
        let body = ItemBody::Text {
            backslash_escaped: false,
        };
        if let Err(error) = self.nodes.push((depth + 1, Item { start, end, body })) {
            self.nodes.pop();
            return Err(error.into());
        }
        self.cur = Some(index);
        Ok(())
    }

    /// Replaces the item of the node `ix`.
    pub fn set_item(&mut self, ix: TreeIndex, item: Item)
        requires { ix.0 < length self.old.nodes }
        ensures { self.new ≡ with_item self.old ix item }
    {
        let node = &mut self.nodes[ix.0];
        node.1 = item;
    }

    /// Sets the end of the node `ix` to the offset `end`.
    pub fn set_end(&mut self, ix: TreeIndex, end: usize)
        requires { ix.0 < length self.old.nodes }
        ensures { self.new ≡ with_end_at self.old ix end }
    {
        let node = &mut self.nodes[ix.0];
        node.1.end = end;
    }

    /// Sets the body of the node `ix`; its range is unchanged.
    pub fn set_body(&mut self, ix: TreeIndex, body: ItemBody)
        requires { ix.0 < length self.old.nodes }
        ensures { self.new ≡ with_body_at self.old ix body }
    {
        let node = &mut self.nodes[ix.0];
        node.1.body = body;
    }

    /// Opens the current node, and returns its index. There must be a current node; afterwards there is none. Fails
    /// only if an allocation fails; the tree is then unchanged.
    pub fn push(&mut self) -> Result<TreeIndex, AllocError>
        requires { IsSome self.old.current }
        ensures index { IfOk result (λ ix. self.old.current ≡ Some ix) }
        ensures ok { IfOk result (λ ix. self.new ≡ pushed self.old ix) }
        ensures err { OnErr result (self.new ≡ self.old) }
    {
        let ix = self.cur.unwrap();
        self.spine.push(ix)?;
        self.cur = None;
        Ok(ix)
    }

    /// Closes the innermost open node, makes it current, and returns its index. If only the root is open, returns
    /// `None` and changes nothing.
    pub fn pop(&mut self) -> Option<TreeIndex>
        ensures { MatchOption result
            ((self.old.spine ≡ []) × (self.new ≡ self.old))
            (λ ix. (self.old.spine ≡ ix ∷ self.new.spine) × (self.new ≡ popped self.old ix self.new.spine)) }
    {
        let closed = self.spine.pop()?;
        self.cur = Some(closed);
        Some(closed)
    }

    /// Closes the innermost open node like `pop`, and removes all its descendants.
    pub fn remove_node(&mut self) -> Option<TreeIndex>
        ensures { MatchOption result
            ((self.old.spine ≡ []) × (self.new ≡ self.old))
            (λ ix. (self.old.spine ≡ ix ∷ self.new.spine)
            × (self.new ≡ cut_to (popped self.old ix self.new.spine) (ix.0 + 1))) }
    {
        let emptied = self.spine.pop()?;
        self.subtrees.cut_to(emptied.0 + 1);
        self.nodes.truncate(emptied.0 + 1);
        self.cur = Some(emptied);
        Some(emptied)
    }

    /// Removes the later siblings of `ix`, a child of the innermost open node, with their descendants. The child
    /// becomes current.
    pub fn drop_after(&mut self, ix: TreeIndex)
        requires { IsChild self.old ix }
        ensures { self.new ≡ kept_after self.old ix }
    {
        let end = deeper_end(&self.nodes, self.spine.len() + 1, ix.0 + 1);
        self.subtrees.cut_to(end);
        self.nodes.truncate(end);
        self.cur = Some(ix);
    }

    /// Removes all descendants of `ix`, which is the innermost open node. Afterwards there is no current node.
    pub fn drop_children(&mut self, ix: TreeIndex)
        requires { slice_get self.old.spine 0 ≡ Some ix }
        ensures { self.new ≡ childless self.old ix }
    {
        let _count = self.nodes.len();
        self.subtrees.cut_to(ix.0 + 1);
        self.nodes.truncate(ix.0 + 1);
        self.cur = None;
    }

    /// Inserts a node between the current node and its children, and returns its index. The new node is the only child,
    /// and the former children are below it. There must be a current node; it stays current. Fails only if an
    /// allocation fails; the tree is then unchanged.
    pub fn create_node(&mut self, item: Item) -> Result<TreeIndex, AllocError>
        requires { IsSome self.old.current }
        ensures ok { IfOk result (λ ix. IfSome self.old.current (λ c. (ix.0 ≡ c.0 + 1)
            × (self.new ≡ wrapped self.old c item))) }
        ensures err { OnErr result (self.new ≡ self.old) }
    {
        let index = self.cur.unwrap().0 + 1;
        wrap(&mut self.nodes, index, self.spine.len() + 2, item)?;
        self.subtrees.cut_to(index);
        Ok(TreeIndex(index))
    }

    /// Moves the later siblings of `ix`, a child of the current node, out of the current node, with their descendants.
    /// They follow the current node in the same order, and the last of them becomes current. Without later siblings,
    /// nothing changes.
    pub fn truncate_to_parent(&mut self, ix: TreeIndex)
        requires { IsChildOfCurrent self.old ix }
        ensures { self.new ≡ moved_out self.old ix }
    {
        let end = deeper_end(&self.nodes, self.spine.len() + 2, ix.0 + 1);
        self.move_from(end);
    }

    /// Moves `ix`, a child of the current node, and its later siblings out of the current node, with their descendants.
    /// They follow the current node in the same order, and the last of them becomes current.
    pub fn move_out(&mut self, ix: TreeIndex)
        requires { IsChildOfCurrent self.old ix }
        ensures { self.new ≡ moved_from self.old ix.0 }
    {
        self.move_from(ix.0);
    }

    // Moves the nodes from `index` on, which are all below the current node, one level up. The last node of the current
    // node's depth becomes current.
    fn move_from(&mut self, index: usize)
        requires { CanMoveFrom self.old index }
        ensures { self.new ≡ moved_from self.old index }
    {
        let depth = self.spine.len() + 1;
        self.subtrees.cut_to(index);
        lower(&mut self.nodes, index);
        self.cur = Some(TreeIndex(last_of_depth(&self.nodes, depth)));
    }

    /// Cuts the tokens, which are the children of the innermost open node, at the offset `end`. Those that start before
    /// it stay with their descendants; one that crosses it ends there. The first other token is removed, with all nodes
    /// that follow. If it is a text that starts at `end` after a backslash, the backslash takes its place as a text.
    /// The last remaining token becomes current.
    #[inline(always)]
    pub fn truncate_siblings(&mut self, end: usize)
        ensures { self.new ≡ cut_siblings self.old end }
    {
        let first = first_place(&self.spine);
        // Most chains that are cut have a single token, which ends before the cut.
        if is_single_before(&self.nodes, first, end) {
            self.cur = Some(TreeIndex(first));
        } else {
            self.cut_from(first, end);
        }
    }

    // Cuts the tokens from the index `first` on at the offset `end`; the last remaining token becomes current.
    #[inline(never)]
    fn cut_from(&mut self, first: usize, end: usize)
        requires { first ≡ open_place self.old.spine + 1 }
        ensures { self.new ≡ cut_siblings self.old end }
    {
        let depth = self.spine.len() + 1;
        self.subtrees.cut_to(first);
        cut_nodes(&mut self.nodes, first, depth, end);
        self.cur = last_child(&self.nodes, first, depth);
    }

    /// Returns the index of the current node, or `None` if there is none, as directly after `push`.
    pub fn cur(&self) -> Option<TreeIndex>
        ensures { result ≡ self.now.current }
    {
        self.cur
    }

    /// Returns the index of the innermost open node, or `None` if that is the root.
    pub fn peek_up(&self) -> Option<TreeIndex>
        ensures { result ≡ slice_get self.now.spine 0 }
    {
        self.spine.last().copied()
    }

    /// Returns the index of the open node around the innermost open node, or `None` if that is the root or does not
    /// exist.
    pub fn peek_grandparent(&self) -> Option<TreeIndex>
        ensures { result ≡ slice_get self.now.spine 1 }
    {
        if self.spine.len() < 2 {
            return None;
        }
        Some(self.spine[self.spine.len() - 2])
    }

    /// Returns the number of open nodes, without the root.
    pub fn spine_len(&self) -> usize
        ensures { result ≡ length self.now.spine }
    {
        self.spine.len()
    }

    /// Returns the indices of the open nodes without the root, the outermost first.
    pub fn walk_spine(&self) -> &[TreeIndex]
        ensures { result.now ≡ reverse self.now.spine }
    {
        self.spine.as_slice()
    }

    /// Returns the index of the first child of the node `ix`, or `None` if it has no child.
    pub fn first_child(&self, ix: TreeIndex) -> Option<TreeIndex>
        requires { ix.0 < length self.now.nodes }
        ensures { result ≡ child_of (depths self.now.nodes) ix.0 }
    {
        let nodes = self.nodes();
        if ix.0 + 1 < nodes.len() && nodes[ix.0].0 < nodes[ix.0 + 1].0 {
            Some(TreeIndex(ix.0 + 1))
        } else {
            None
        }
    }

    /// Returns the index of the next sibling of the node `ix`, or `None` if it has none.
    pub fn next_sibling(&self, ix: TreeIndex) -> Option<TreeIndex>
        requires { ix.0 < length self.now.nodes }
        ensures { result ≡ sibling_of (depths self.now.nodes) ix.0 }
    {
        sibling_in(&self.nodes, ix.0)
    }

    /// Returns the index after the node `ix` and all its descendants.
    pub fn end_of(&self, ix: TreeIndex) -> usize
        requires { ix.0 < length self.now.nodes }
        ensures { result ≡ end_of (depths self.now.nodes) ix.0 }
    {
        match self.cur {
            Some(current) if current.0 == ix.0 => self.nodes.len(),
            _ => deeper_end(&self.nodes, self.nodes[ix.0].0, ix.0 + 1),
        }
    }

    /// Records where the subtree of the innermost open node begins; `note_end` records where it ends. These records
    /// save time in `surgerize_tight_list`, and no contract speaks of them. Fails only if an allocation fails.
    pub fn remember(&mut self) -> Result<(), AllocError>
        ensures { self.new ≡ self.old }
    {
        if let Some(ix) = self.peek_up() {
            self.subtrees.add(Subtree {
                place: ix.0,
                past: ix.0 + 1,
            })?;
        }
        Ok(())
    }

    /// Removes the records of subtrees inside that of the current node. If the subtree of the current node is recorded,
    /// records that it ends with the last node, or removes its record if no other remains.
    pub fn note_end(&mut self)
        ensures { self.new ≡ self.old }
    {
        if let Some(ix) = self.cur {
            self.subtrees.note_end(ix.0, self.nodes.len());
        }
    }

    /// Does the same as `note_end`, for a subtree that ends before the node `ix`. The caller then moves that node out
    /// of the current node.
    pub fn note_end_before(&mut self, ix: TreeIndex)
        ensures { self.new ≡ self.old }
    {
        if let Some(current) = self.cur {
            if current.0 < ix.0 && ix.0 <= self.nodes.len() {
                self.subtrees.note_end(current.0, ix.0);
            }
        }
    }

    /// Removes the last recorded subtree and returns it, if it is between the indices `from` and `to`. Returns `None`
    /// otherwise, and removes nothing. For `surgerize_tight_list`, which skips what is recorded.
    pub fn take_subtree(&mut self, from: usize, to: usize) -> Option<Subtree>
        ensures tree { self.new ≡ self.old }
        ensures within { IfSome result (λ s. (from ≤ s.place) × (s.past ≤ to)) }
        ensures below { IfSome result (λ s. IsSubtree (depths self.old.nodes) s.place s.past) }
    {
        self.subtrees.take_between(from, to)
    }

    /// Returns whether the innermost open node is a table or a part of one: the open nodes from it outwards are table
    /// heads, rows and cells, up to a table.
    pub fn is_in_table(&self) -> bool
        ensures { result ≡ in_table self.now.nodes self.now.spine }
    {
        in_table_of(&self.nodes, &self.spine)
    }
}

impl Index<TreeIndex> for Tree<Item> {
    type Output = Item;

    ghost can_index = { λ tree ix. ix.0 < length tree.nodes };

    ghost index_gives = { λ tree ix item. item_at tree ix ≡ Some item };

    fn index(&self, ix: TreeIndex) -> &Item {
        &self.nodes[ix.0].1
    }
}

impl IndexMut<TreeIndex> for Tree<Item> {
    ghost use Rattle.first_pass_tree.specs.Lending.{LendsItem};

    fn index_mut(&mut self, ix: TreeIndex) -> &mut Item
        requires { ix.0 < length self.old.nodes }
        ensures* writes_back { sem 𝓛 (LendsItem self.entry ix result) }
        ensures value { item_at self.old ix ≡ Some result.now }
    {
        let node = &mut self.nodes[ix.0];
        &mut node.1
    }
}
