//! The search for a label.

ghost use Rattle.first_pass_labels.specs.Foldings.{label_cmp};
ghost use Rattle.first_pass_labels.specs.LabelTables.{table_of, IsOrderOf};
ghost use Rattle.std.specs.BTreeMap.{is_at};
ghost use Rattle.std.specs.Map.{lookup};
ghost use Rattle.std.specs.Option.{option_copied};
ghost use Rattle.std.specs.Prelude.{◌≡◌};

use crate::label_key::LabelKey;
use std::cmp::Ordering;

/// Returns the definition of the first entry whose label has the same folding as that of the key.
pub(crate) fn find_first<'t, 'a, T>(
    entries: &'t [(LabelKey<'a>, T)],
    key: &LabelKey<'a>,
) -> Option<&'t T>
    ensures { option_copied result ≡ lookup (is_at (label_cmp key.now)) entries.now }
{
    for at in 0..entries.len() {
        if key.cmp(&entries[at].0).is_eq() {
            return Some(&entries[at].1);
        }
    }
    None
}

/// Returns the same for entries with this order, in few steps.
pub(crate) fn find_sorted<'t, 'a, T>(
    entries: &'t [(LabelKey<'a>, T)],
    order: &[usize],
    key: &LabelKey<'a>,
) -> Option<&'t T>
    requires { IsOrderOf order.now entries.now (table_of entries.now) }
    ensures { option_copied result ≡ lookup (is_at (label_cmp key.now)) (table_of entries.now) }
{
    let (mut low, mut high) = (0, order.len());
    while low < high {
        let middle = low + (high - low) / 2;
        let entry = &entries[order[middle]];
        match key.cmp(&entry.0) {
            Ordering::Less => high = middle,
            Ordering::Equal => return Some(&entry.1),
            Ordering::Greater => low = middle + 1,
        }
    }
    None
}
