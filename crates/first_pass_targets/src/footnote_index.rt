//! The labels of the footnotes of a text by their keys (this project).

ghost use Rattle.first_pass_targets.specs.Keys.{has_label};
ghost use Rattle.std.specs.Prelude.{◌≡◌, IfOk};

use crate::key::key_of;
use first_pass_labels::label_key::LabelKey;
use first_pass_labels::label_table::FootDefs;
use std::alloc::{AllocError, Global};
use std::collections::BTreeSet;
use std::marker::Model;

/// An index of a table of footnotes: the keys of their labels. In contracts an index is its table.
#[derive(Drop)]
pub struct FootnoteIndex<'t, 'a> {
    table: &'t FootDefs<'a>,
    keys: BTreeSet<LabelKey<'t>>,
}

impl<'t, 'a> Model for FootnoteIndex<'t, 'a> {
    ghost use Rattle.first_pass_items.specs.declared.cow_str.CowStr.{CowStr};
    ghost use Rattle.first_pass_labels.specs.declared.label_table.FootnoteDef.{FootnoteDef};
    ghost use Rattle.first_pass_targets.specs.Indices.{AreKeysOf};
    ghost use Rattle.std.specs.Prelude.{List};

    ghost Value = { List (CowStr × FootnoteDef) };

    ghost view = { λ i. i.table.now };

    ghost invariant = { λ i. AreKeysOf i.keys i.table.now };
}

impl<'t, 'a> FootnoteIndex<'t, 'a> {
    /// Returns the index of a table. Fails only if an allocation fails. The table should be sorted.
    pub fn of(alloc: Global, table: &'t FootDefs<'a>) -> Result<FootnoteIndex<'t, 'a>, AllocError>
        ensures { IfOk result (λ index. index ≡ table.now) }
    {
        let mut keys = BTreeSet::new(alloc);
        for (label, _) in table.iter() {
            keys.insert(key_of(alloc, label.label())?)?;
        }
        Ok(FootnoteIndex { table, keys })
    }

    /// Returns whether a footnote has a label: its own label has the same key. `label` is without the `^`. Fails only if
    /// an allocation fails.
    pub fn contains(&self, alloc: Global, label: &str) -> Result<bool, AllocError>
        ensures { IfOk result (λ found. found ≡ has_label self.now label.now) }
    {
        let key = key_of(alloc, label)?;
        Ok(self.keys.contains(&key))
    }
}
