//! The order of a table of labels, and the iterator over a table.

ghost use Rattle.first_pass_items.specs.declared.cow_str.CowStr.{CowStr};
ghost use Rattle.first_pass_labels.specs.LabelTables.{table_of, after_label, comes_after, lesser_of, IsOrderOf, IsOrderIfAny};
ghost use Rattle.std.specs.Iterator.{at_most};
ghost use Rattle.std.specs.List.{slice_get};
ghost use Rattle.std.specs.Map.Iter.{TakesFirst, deref_pair};
ghost use Rattle.std.specs.Option.{option_copied};
ghost use Rattle.std.specs.Prelude.{◌≡◌, ◌<◌, ◌≤◌, [], All, Some, IfOk, length, map};

use crate::label_key::LabelKey;
use crate::slot::Slot;
use std::alloc::{AllocError, Global};
use std::marker::Model;

/// Returns the indices of the entries of a table in the order of their labels. Of entries whose labels have the same
/// folding, only the first counts. Fails only if an allocation fails.
pub(crate) fn order_of<'a, T>(
    alloc: Global,
    entries: &[(LabelKey<'a>, T)],
) -> Result<Vec<usize>, AllocError>
    ensures { IfOk result (λ order. IsOrderOf order.items entries.now (table_of entries.now)) }
{
    let mut slots = slots_of(alloc, entries)?;
    slots.sort()?;
    slots.dedup();
    let mut order = Vec::with_capacity(alloc, slots.len())?;
    for at in 0..slots.len() {
        order.push(slots[at].index())?;
    }
    Ok(order)
}

// The slots of all entries.
fn slots_of<'t, 'a, T>(
    alloc: Global,
    entries: &'t [(LabelKey<'a>, T)],
) -> Result<Vec<Slot<'t, 'a, T>>, AllocError>
    ensures all { IfOk result (λ slots. map (λ s. s.0) slots.items ≡ entries.now) }
    ensures placed { IfOk result (λ slots. All (λ s. slice_get entries.now s.1 ≡ Some s.0) slots.items) }
{
    let mut slots = Vec::with_capacity(alloc, entries.len())?;
    for at in 0..entries.len() {
        slots.push(Slot::new(&entries[at], at))?;
    }
    Ok(slots)
}

/// An iterator over the labels of a table with their definitions, in the byte order of the labels' foldings. In a table
/// that is not sorted each step goes through all definitions.
#[derive(Drop)]
pub struct InOrder<'t, 'a, T> {
    entries: &'t [(LabelKey<'a>, T)],
    // What is left of the table's order. Empty if the table is not sorted.
    order: &'t [usize],
    // The label of the last item.
    last: Option<&'t LabelKey<'a>>,
}

impl<'t, 'a, T> Model for InOrder<'t, 'a, T> {
    ghost use Rattle.first_pass_items.specs.declared.cow_str.CowStr.{CowStr};
    ghost use Rattle.first_pass_labels.specs.LabelTables.{table_of, after_label, IsOrderIfAny};
    ghost use Rattle.std.specs.Option.{option_copied};
    ghost use Rattle.std.specs.Prelude.{List};

    ghost Value = { List (CowStr × T) };

    ghost view = { λ i. table_of (after_label (option_copied i.last) i.entries.now) };

    ghost invariant = { λ i. IsOrderIfAny i.order.now i.entries.now
        (table_of (after_label (option_copied i.last) i.entries.now)) };
}

impl<'t, 'a, T> InOrder<'t, 'a, T> {
    /// Returns an iterator over the table of these entries. `order` is the table's order, or empty if it is not sorted.
    pub(crate) fn new(entries: &'t [(LabelKey<'a>, T)], order: &'t [usize]) -> InOrder<'t, 'a, T>
        requires { IsOrderIfAny order.now entries.now (table_of entries.now) }
        ensures { result ≡ table_of entries.now }
    {
        InOrder {
            entries,
            order,
            last: None,
        }
    }
}

impl<'t, 'a, T> Iterator for InOrder<'t, 'a, T> {
    type Item = (&'t LabelKey<'a>, &'t T);

    ghost next_gives = { TakesFirst (deref_pair {K = CowStr} {X = T}) };

    ghost remaining = { λ s. at_most (length s) };

    fn next(&mut self) -> Option<(&'t LabelKey<'a>, &'t T)> {
        let (entries, order) = (self.entries, self.order);
        if 0 < order.len() {
            let entry = &entries[order[0]];
            self.entries = entries_left(entries, order);
            self.order = &order[1..];
            self.last = Some(&entry.0);
            return Some((&entry.0, &entry.1));
        }
        let entry = least_after(entries, self.last)?;
        self.last = Some(&entry.0);
        Some((&entry.0, &entry.1))
    }
}

// The entries of a sorted table after one more step: none if the order ends with it, since an empty order means a table
// that is not sorted.
fn entries_left<'t, 'a, T>(
    entries: &'t [(LabelKey<'a>, T)],
    order: &[usize],
) -> &'t [(LabelKey<'a>, T)]
    ensures more { 1 < length order.now → result.now ≡ entries.now }
    ensures none { length order.now ≤ 1 → result.now ≡ [] }
{
    if 1 < order.len() {
        entries
    } else {
        &entries[entries.len()..]
    }
}

// Returns the first entry with the least label among those whose labels come after the last one.
fn least_after<'t, 'a, T>(
    entries: &'t [(LabelKey<'a>, T)],
    last: Option<&'t LabelKey<'a>>,
) -> Option<&'t (LabelKey<'a>, T)>
    ensures { option_copied result ≡ slice_get (table_of (after_label (option_copied last.entry) entries.now)) 0 }
{
    let mut least = None;
    for at in 0..entries.len() {
        if comes_after(&entries[at].0, last) {
            least = lesser(least, &entries[at]);
        }
    }
    least
}

// Whether a label comes after the last one. Without a last one, each label does.
fn comes_after<'a>(label: &LabelKey<'a>, last: Option<&LabelKey<'a>>) -> bool
    ensures { result ≡ comes_after (option_copied last.entry) label.now }
{
    match last {
        Some(last) => last.cmp(label).is_lt(),
        None => true,
    }
}

// The entry with the lesser label, or the first one if they are tied.
fn lesser<'t, 'a, T>(
    least: Option<&'t (LabelKey<'a>, T)>,
    entry: &'t (LabelKey<'a>, T),
) -> Option<&'t (LabelKey<'a>, T)>
    ensures { option_copied result ≡ lesser_of (option_copied least.entry) entry.now }
{
    match least {
        Some(first) => {
            if entry.0.cmp(&first.0).is_lt() {
                Some(entry)
            } else {
                Some(first)
            }
        }
        None => Some(entry),
    }
}
