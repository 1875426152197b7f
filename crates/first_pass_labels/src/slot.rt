//! What a table of labels is sorted by.

ghost use Rattle.first_pass_labels.specs.Slots.{slot_folding, is_same_slot, slot_cmp};
ghost use Rattle.std.specs.Cmp.{on_equiv, on_total, on_po, on_per, partial_equiv_from_equiv};
ghost use Rattle.std.specs.Cmp.Lexicographic.{nat_list_eq_equiv, nat_list_cmp_total, texts_ties, texts_po};
ghost use Rattle.std.specs.Prelude.{◌≡◌, Some, refl};

use crate::folding::leading_number;
use crate::label_key::LabelKey;
use std::cmp::Ordering;
use std::marker::Model;

// One more than the greatest number of eight bytes.
const EIGHT_BYTES: u128 = 1 << 64;

/// An entry of a table with its index there. Slots are compared by label. The first sixteen bytes of the label's
/// folding are stored here too, as two numbers: they decide most comparisons, and the entry is rarely in the cache.
#[derive(Drop)]
pub(crate) struct Slot<'t, 'a, T> {
    // The first eight bytes of the folding, and the next eight.
    first: u64,
    second: u64,
    entry: &'t (LabelKey<'a>, T),
    index: usize,
}

impl<'t, 'a, T> Model for Slot<'t, 'a, T> {
    ghost use Rattle.first_pass_items.specs.declared.cow_str.CowStr.{CowStr};
    ghost use Rattle.first_pass_labels.specs.Foldings.{folding_of, leading_number};
    ghost use Rattle.std.specs.Prelude.{◌≡◌, ◌<◌, ◌+◌, ◌*◌, ◌^◌, ℕ, slice_index};

    ghost Value = { (CowStr × T) × ℕ };

    ghost view = { λ s. (s.entry.now, s.index) };

    ghost invariant = { λ s. (s.first * 2 ^ 64 + s.second ≡ leading_number 16 (folding_of s.entry.now.0))
        × (s.second < 2 ^ 64)
        × ((at : ℕ) → slice_index (folding_of s.entry.now.0) at < 256) };
}

impl<'t, 'a, T> Slot<'t, 'a, T> {
    /// The slot of an entry.
    pub(crate) fn new(entry: &'t (LabelKey<'a>, T), index: usize) -> Slot<'t, 'a, T>
        ensures { result ≡ (entry.now, index) }
    {
        let number = leading_number(entry.0.folding().as_bytes());
        Slot {
            first: (number / EIGHT_BYTES) as u64,
            second: (number % EIGHT_BYTES) as u64,
            entry,
            index,
        }
    }

    /// Returns the index of the entry.
    pub(crate) fn index(&self) -> usize
        ensures { result ≡ self.now.1 }
    {
        self.index
    }
}

impl<'t, 'a, T> PartialEq for Slot<'t, 'a, T> {
    ghost eq = { is_same_slot };

    ghost laws = { on_per slot_folding (partial_equiv_from_equiv nat_list_eq_equiv) };

    /// Returns whether the foldings of the labels are equal.
    fn eq(&self, other: &Slot<'t, 'a, T>) -> bool {
        self.cmp(other).is_eq()
    }
}

impl<'t, 'a, T> Eq for Slot<'t, 'a, T> {
    ghost laws = { on_equiv slot_folding nat_list_eq_equiv };
}

impl<'t, 'a, T> PartialOrd for Slot<'t, 'a, T> {
    ghost partial_cmp = { λ x y. Some (slot_cmp x y) };

    ghost laws = { on_po slot_folding texts_po };

    /// Returns the byte order of the foldings of the labels.
    fn partial_cmp(&self, other: &Slot<'t, 'a, T>) -> Option<Ordering> {
        Some(self.cmp(other))
    }
}

impl<'t, 'a, T> Ord for Slot<'t, 'a, T> {
    ghost cmp = { slot_cmp };

    ghost total = { on_total slot_folding nat_list_cmp_total };

    ghost matches_partial_cmp = { λ x y. refl };

    ghost matches_eq = { λ x y. texts_ties (slot_folding x) (slot_folding y) };

    /// Returns the byte order of the foldings of the labels.
    #[inline(always)]
    fn cmp(&self, other: &Slot<'t, 'a, T>) -> Ordering {
        if self.first > other.first {
            return Ordering::Greater;
        }
        if self.first < other.first {
            return Ordering::Less;
        }
        if self.second > other.second {
            return Ordering::Greater;
        }
        if self.second < other.second {
            return Ordering::Less;
        }
        self.entry.0.cmp(&other.entry.0)
    }
}
