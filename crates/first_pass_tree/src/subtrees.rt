//! The recorded subtrees of a tree: where each begins, and how far it is known to reach.

ghost use Rattle.first_pass_tree.specs.Subtrees.{subtree, within_first, ended, last_between, left_between};
ghost use Rattle.std.specs.Prelude.{◌≡◌, ◌-◌, ◌<◌, ◌∷◌, [], OnOk, OnErr};

use std::alloc::{AllocError, Global};
use std::marker::Model;

/// The node at the index `place`, with its descendants before the index `past`.
#[derive(Clone, Copy, PartialEq, Eq)]
pub struct Subtree {
    pub place: usize,
    pub past: usize,
}

/// Records of subtrees, in the order in which the subtrees begin. Each ends at or before the end of the next one. In
/// contracts the last record comes first.
#[derive(Drop)]
pub(crate) struct Subtrees {
    list: Vec<Subtree>,
}

impl Model for Subtrees {
    ghost use Rattle.first_pass_tree.specs.declared.subtrees.Subtree.{Subtree};
    ghost use Rattle.std.specs.Prelude.{List, reverse};

    ghost Value = { List Subtree };

    ghost view = { λ e. reverse e.list.items };
}

impl Subtrees {
    /// Returns an empty list of records.
    pub(crate) fn new(alloc: Global) -> Subtrees
        ensures { result ≡ [] }
    {
        Subtrees {
            list: Vec::new(alloc),
        }
    }

    /// Adds a record. First removes the last records, as long as their subtrees reach the first node of the new one.
    /// Fails only if an allocation fails.
    pub(crate) fn add(&mut self, subtree: Subtree) -> Result<(), AllocError>
        ensures ok { OnOk result (self.new ≡ subtree ∷ within_first subtree.place self.old) }
        ensures err { OnErr result (self.new ≡ within_first subtree.place self.old) }
    {
        self.cut_to(subtree.place);
        self.list.push(subtree)?;
        Ok(())
    }

    /// Removes the last records, as long as they end after the first `count` nodes.
    pub(crate) fn cut_to(&mut self, count: usize)
        ensures { self.new ≡ within_first count self.old }
    {
        let mut kept = self.list.len();
        while 0 < kept && count < self.list[kept - 1].past {
            kept -= 1;
        }
        self.list.truncate(kept);
    }

    /// Removes the records of subtrees inside that of the node at the index `place`. If the last remaining record is
    /// that of this node, records that its subtree ends before the index `past`. If no other record remains, removes it
    /// instead, since it is then not needed.
    pub(crate) fn note_end(&mut self, place: usize, past: usize)
        requires { place < past }
        ensures { self.new ≡ ended place past self.old }
    {
        self.cut_to(place + 1);
        let count = self.list.len();
        if count == 0 || self.list[count - 1].place != place {
            return;
        }
        if count == 1 {
            self.list.truncate(0);
            return;
        }
        self.list[count - 1] = Subtree { place, past };
    }

    /// Removes the last record and returns it, if its subtree is between the indices `from` and `to`.
    pub(crate) fn take_between(&mut self, from: usize, to: usize) -> Option<Subtree>
        ensures value { result ≡ last_between from to self.old }
        ensures rest { self.new ≡ left_between from to self.old }
    {
        let last = *self.list.last()?;
        if last.place < from || to < last.past {
            return None;
        }
        self.list.pop();
        Some(last)
    }
}
