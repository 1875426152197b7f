//! The calls of a tree that request memory, each made many times.

use crate::outcome::Outcome;
use first_pass_items::item::{Item, ItemBody};
use first_pass_tree::forest::Tree;
use first_pass_tree::tree_index::TreeIndex;
use std::alloc::{AllocError, Global};

// The number of calls made on one tree.
const TIMES: usize = 12;

// The observed state of a tree: its nodes, its open nodes, and its current node.
#[derive(Drop)]
struct Seen {
    nodes: Vec<(usize, Item)>,
    open: Vec<TreeIndex>,
    current: Option<TreeIndex>,
}

impl Seen {
    // Returns an empty state, with room for every state observed here.
    fn new(alloc: Global) -> Result<Seen, AllocError> {
        Ok(Seen {
            nodes: Vec::with_capacity(alloc, 2 * TIMES + 2)?,
            open: Vec::with_capacity(alloc, TIMES + 1)?,
            current: None,
        })
    }

    fn look(&mut self, tree: &Tree<Item>) -> Result<(), AllocError> {
        self.nodes.clear();
        self.nodes.extend_from_slice(tree.nodes())?;
        self.open.clear();
        self.open.extend_from_slice(tree.walk_spine())?;
        self.current = tree.cur();
        Ok(())
    }

    // Whether a tree is unchanged.
    fn is_kept(&self, tree: &Tree<Item>) -> bool {
        self.nodes.as_slice() == tree.nodes()
            && self.open.as_slice() == tree.walk_spine()
            && self.current == tree.cur()
    }

    // Whether a tree is unchanged except for a new last child of the root, which is current.
    fn has_appended(&self, tree: &Tree<Item>, item: Item) -> bool {
        let count = self.nodes.len();
        tree.node_count() == count.saturating_add(1)
            && tree.nodes().starts_with(self.nodes.as_slice())
            && tree.nodes().last() == Some(&(1, item))
            && tree.walk_spine() == self.open.as_slice()
            && tree.cur() == Some(TreeIndex(count))
    }

    // Whether a tree is unchanged except that its current node is now open.
    fn has_pushed(&self, tree: &Tree<Item>) -> bool {
        tree.nodes() == self.nodes.as_slice()
            && tree.spine_len() == self.open.len().saturating_add(1)
            && tree.walk_spine().starts_with(self.open.as_slice())
            && tree.peek_up() == self.current
            && tree.cur().is_none()
    }

    // Whether a tree is unchanged except for a new child of its first node, which contains the others.
    fn has_created(&self, tree: &Tree<Item>, item: Item) -> bool {
        if tree.node_count() != self.nodes.len().saturating_add(1)
            || tree.nodes().get(2) != Some(&(2, item))
            || tree.walk_spine() != self.open.as_slice()
            || tree.cur() != self.current
        {
            return false;
        }
        for (at, (depth, kept)) in self.nodes.as_slice().iter().enumerate() {
            let deeper = usize::from(2 <= at);
            let place = at.saturating_add(deeper);
            let wanted = (depth.saturating_add(deeper), *kept);
            if tree.nodes().get(place) != Some(&wanted) {
                return false;
            }
        }
        true
    }
}

/// Makes a call of this name; returns `None` if no call has it. Fails if a request of the test was refused.
pub fn call_tree(alloc: Global, call: &str) -> Option<Result<Outcome, AllocError>> {
    match call {
        "append" => Some(make_each(alloc, Call::Append)),
        "append_text" => Some(make_each(alloc, Call::AppendText)),
        "push" => Some(make_each(alloc, Call::Push)),
        "create_node" => Some(make_each(alloc, Call::CreateNode)),
        _ => None,
    }
}

fn block(start: usize) -> Item {
    Item {
        start,
        end: start,
        body: ItemBody::BlockQuote(None),
    }
}

// Three bytes of text for each number. No text adjoins the one before it.
fn text(count: usize) -> Item {
    let start = count.saturating_mul(3);
    Item {
        start,
        end: start.saturating_add(2),
        body: ItemBody::Text {
            backslash_escaped: false,
        },
    }
}

// A call that is made many times on one tree.
#[derive(Clone, Copy, PartialEq, Eq)]
enum Call {
    Append,
    AppendText,
    // Opens a new node.
    Push,
    // Puts a new node around the earlier ones, below the first.
    CreateNode,
}

impl Call {
    // The tree on which the first call is made.
    fn first_tree(self, alloc: Global) -> Result<Tree<Item>, AllocError> {
        let room = if self == Call::Push { TIMES + 1 } else { 1 };
        let mut tree = Tree::with_capacity(alloc, room)?;
        if self == Call::CreateNode {
            tree.append(block(0))?;
        }
        Ok(tree)
    }

    // Makes the call with this number. `Push` and `CreateNode` need a current node, which is there.
    fn make(self, tree: &mut Tree<Item>, count: usize) -> Result<(), AllocError> {
        let is_current = tree.cur().is_some();
        match self {
            Call::Append => {
                tree.append(block(count))?;
            }
            Call::AppendText => {
                let Item { start, end, .. } = text(count);
                tree.append_text(start, end, false)?;
            }
            Call::Push if is_current => {
                tree.push()?;
            }
            Call::CreateNode if is_current => {
                tree.create_node(block(count))?;
            }
            _ => return Err(AllocError),
        }
        Ok(())
    }

    // Whether the tree is as it has to be after that call.
    fn has_made(self, seen: &Seen, tree: &Tree<Item>, count: usize) -> bool {
        match self {
            Call::Append => seen.has_appended(tree, block(count)),
            Call::AppendText => seen.has_appended(tree, text(count)),
            Call::Push => seen.has_pushed(tree),
            Call::CreateNode => seen.has_created(tree, block(count)),
        }
    }
}

// Makes a call many times on one tree.
fn make_each(alloc: Global, call: Call) -> Result<Outcome, AllocError> {
    let mut tree = call.first_tree(alloc)?;
    let mut seen = Seen::new(alloc)?;
    let mut outcome = Outcome::Usual;
    let first = usize::from(call == Call::CreateNode);
    for count in first..TIMES {
        if call == Call::Push {
            tree.append(block(count))?;
        }
        seen.look(&tree)?;
        outcome = make_one(call, &mut tree, &seen, count, outcome);
        if !outcome.is_good() {
            return Ok(outcome);
        }
    }
    Ok(outcome)
}

// Makes the call with this number on a tree that was seen. One that is refused is made again. Returns the outcome of
// all calls, from that of the earlier ones.
fn make_one(
    call: Call,
    tree: &mut Tree<Item>,
    seen: &Seen,
    count: usize,
    earlier: Outcome,
) -> Outcome {
    let mut outcome = earlier;
    if call.make(tree, count).is_err() {
        outcome = outcome.refused(seen.is_kept(tree));
        if outcome == Outcome::Refused && call.make(tree, count).is_err() {
            return Outcome::Differs;
        }
    }
    if outcome.is_good() && !call.has_made(seen, tree, count) {
        return Outcome::Differs;
    }
    outcome
}
