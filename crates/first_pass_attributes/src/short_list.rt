//! A list that takes no memory of its own for at most one item.

ghost use Rattle.std.specs.Prelude.{◌≡◌, ◌==◌, ◌<◌, ◌∷◌, ◌++◌, [], length, IfOk, OnOk, OnErr};

use std::alloc::{AllocError, Global};
use std::marker::Model;
use std::ops::DerefSlice;

/// A list of items, which is read as a slice. It allocates nothing for at most one item (this project).
#[derive(Drop)]
pub struct ShortList<T> {
    items: Items<T>,
}

// The items of a list: none, one, or more on the heap.
#[derive(Drop)]
pub enum Items<T> {
    None,
    One([T; 1]),
    Many(Vec<T>),
}

impl<T> Model for ShortList<T> {
    ghost use Rattle.first_pass_attributes.specs.ShortLists.{listed, is_on_heap};
    ghost use Rattle.std.specs.Prelude.{◌≡◌, ◌<◌, List, length, true};

    ghost Value = { List T };

    ghost view = { λ l. listed l.items };

    ghost invariant = { λ l. is_on_heap l.items ≡ true → 1 < length (listed l.items) };
}

impl<T> ShortList<T> {
    /// Returns a list without items. Allocates nothing.
    #[inline(always)]
    pub fn new() -> ShortList<T>
        ensures { result ≡ [] }
    {
        ShortList { items: Items::None }
    }

    /// Returns the number of items.
    pub fn len(&self) -> usize
        ensures { result ≡ length self.now }
    {
        let items: &[T] = self;
        items.len()
    }

    /// Returns whether there is no item.
    pub fn is_empty(&self) -> bool
        ensures { result ≡ (length self.now == 0) }
    {
        self.len() == 0
    }
}

impl<T> DerefSlice for ShortList<T> {
    type Elem = T;

    ghost deref_gives = { λ list items. items ≡ list };

    /// Returns the items in order.
    #[inline(always)]
    fn deref(&self) -> &[T]
        ensures value { result.now ≡ self.now }
    {
        match &self.items {
            Items::None => &[],
            Items::One(item) => item,
            Items::Many(list) => list,
        }
    }
}

impl<T: Copy> ShortList<T> {
    /// Appends an item. The first item needs no allocation. Fails only if an allocation fails; then nothing changes.
    #[inline(always)]
    pub fn push(&mut self, alloc: Global, item: T) -> Result<(), AllocError>
        ensures value { OnOk result (self.new ≡ self.old ++ item ∷ []) }
        ensures refused { OnErr result (self.new ≡ self.old) }
        ensures err { OnErr result (0 < length self.old) }
    {
        match &mut self.items {
            Items::None => {
                self.items = Items::One([item]);
                Ok(())
            }
            Items::One(first) => {
                let first = *first;
                let list = with_one_more(alloc, &first, item)?;
                self.items = Items::Many(list);
                Ok(())
            }
            Items::Many(list) => {
                list.push(item)?;
                Ok(())
            }
        }
    }
}

// A list of these items and one more on the heap.
#[inline(never)]
fn with_one_more<T: Copy>(alloc: Global, items: &[T], item: T) -> Result<Vec<T>, AllocError>
    ensures { IfOk result (λ list. list.items ≡ items.now ++ item ∷ []) }
{
    let mut longer = Vec::with_capacity(alloc, 2)?;
    longer.extend_from_slice(items)?;
    longer.push(item)?;
    Ok(longer)
}
