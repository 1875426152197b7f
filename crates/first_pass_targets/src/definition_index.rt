//! The definitions of a text by the keys of their labels (CommonMark 4.7).

ghost use Rattle.first_pass_items.specs.declared.cow_str.CowStr.{CowStr};
ghost use Rattle.first_pass_labels.specs.Foldings.{folding_of};
ghost use Rattle.first_pass_targets.specs.Indices.{first_at, pair_of};
ghost use Rattle.first_pass_targets.specs.Keys.{definition_index, definition_of, earlier, first_with_key, label_key};
ghost use Rattle.std.specs.Cmp.Lexicographic.{pointwise};
ghost use Rattle.std.specs.Option.{option_copied, option_map};
ghost use Rattle.std.specs.Prelude.{◌≡◌, IfOk, OnOk, Some, nat_eq, if◌then◌else◌};

use crate::key::key_of;
use first_pass_labels::label_key::LabelKey;
use first_pass_labels::label_table::{LinkDef, RefDefs};
use std::alloc::{AllocError, Global};
use std::collections::BTreeMap;
use std::marker::Model;

/// An index of a table of link definitions: for each key of their labels the definition that begins first in the text.
/// In contracts an index is its table.
#[derive(Drop)]
pub struct DefinitionIndex<'t, 'a> {
    table: &'t RefDefs<'a>,
    firsts: BTreeMap<LabelKey<'t>, First<'t, 'a>>,
}

// A definition, and its index in the table.
#[derive(Clone, Copy)]
struct First<'t, 'a> {
    index: usize,
    definition: &'t LinkDef<'a>,
}

impl<'t, 'a> Model for DefinitionIndex<'t, 'a> {
    ghost use Rattle.first_pass_items.specs.declared.cow_str.CowStr.{CowStr};
    ghost use Rattle.first_pass_labels.specs.declared.label_table.LinkDef.{LinkDef};
    ghost use Rattle.first_pass_targets.specs.Indices.{IsIndexOf};
    ghost use Rattle.std.specs.Prelude.{List};

    ghost Value = { List (CowStr × LinkDef) };

    ghost view = { λ i. i.table.now };

    ghost invariant = { λ i. IsIndexOf i.firsts i.table.now };
}

impl<'t, 'a> DefinitionIndex<'t, 'a> {
    /// Returns the index of a table. Fails only if an allocation fails. The table should be sorted.
    pub fn of(alloc: Global, table: &'t RefDefs<'a>) -> Result<DefinitionIndex<'t, 'a>, AllocError>
        ensures { IfOk result (λ index. index ≡ table.now) }
    {
        let mut firsts = BTreeMap::new(alloc);
        let mut index = 0;
        for (label, definition) in table.iter() {
            add_first(
                alloc,
                &mut firsts,
                label.label(),
                First { index, definition },
            )?;
            index += 1;
        }
        Ok(DefinitionIndex { table, firsts })
    }

    /// Returns the definition that a label names: of those whose label has the same key, the one that begins first in
    /// the text. Returns `None` exactly if no label has this key. Fails only if an allocation fails (CommonMark 4.7).
    pub fn find(&self, alloc: Global, label: &str) -> Result<Option<&'t LinkDef<'a>>, AllocError>
        ensures { IfOk result (λ found. option_copied found ≡ definition_of self.now label.now) }
    {
        let first = self.first(alloc, label)?;
        Ok(first.map(|first| first.definition))
    }

    /// Returns the index of the definition that a label names: the number of definitions before it in the table. Returns
    /// `None` exactly if there is no such definition. Fails only if an allocation fails.
    pub fn index_of(&self, alloc: Global, label: &str) -> Result<Option<usize>, AllocError>
        ensures { IfOk result (λ found. found ≡ definition_index self.now label.now) }
    {
        let first = self.first(alloc, label)?;
        Ok(first.map(|first| first.index))
    }

    // The definition that a label names, and its index.
    fn first(&self, alloc: Global, label: &str) -> Result<Option<First<'t, 'a>>, AllocError>
        ensures { IfOk result (λ first. option_map pair_of first ≡ first_with_key (label_key label.now) 0 self.now) }
    {
        let key = key_of(alloc, label)?;
        Ok(self.firsts.get(&key).copied())
    }
}

// Adds a definition to the first ones by key, unless one with the same key begins before it.
fn add_first<'t, 'a>(
    alloc: Global,
    firsts: &mut BTreeMap<LabelKey<'t>, First<'t, 'a>>,
    label: &str,
    first: First<'t, 'a>,
) -> Result<(), AllocError>
    ensures { OnOk result ((key : CowStr) → first_at firsts.new key
        ≡ (if pointwise nat_eq (label_key label.now) (folding_of key)
        then earlier (first_at firsts.old key) (Some (pair_of first.entry)) else first_at firsts.old key)) }
{
    let key = key_of(alloc, label)?;
    if is_first(first, firsts.get(&key).copied()) {
        firsts.insert(key, first)?;
    }
    Ok(())
}

// Whether a definition begins before another one with the same key, if there is one.
fn is_first(first: First<'_, '_>, other: Option<First<'_, '_>>) -> bool
    ensures { earlier (option_map pair_of other.entry) (Some (pair_of first.entry))
        ≡ (if result then Some (pair_of first.entry) else option_map pair_of other.entry) }
{
    match other {
        Some(other) => first.definition.span.start < other.definition.span.start,
        None => true,
    }
}
