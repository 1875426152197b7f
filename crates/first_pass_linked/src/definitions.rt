//! The link definitions of a text by their index.

ghost use Rattle.first_pass_names.specs.TableEntries.{link_entry};
ghost use Rattle.std.specs.Option.{option_and_then, option_map, option_map_or};
ghost use Rattle.std.specs.Prelude.{◌≡◌, [], map, slice_get, IfOk};

use first_pass_labels::label_key::LabelKey;
use first_pass_labels::label_table::{LinkDef, RefDefs};
use std::alloc::{AllocError, Global};
use std::marker::Model;
use std::ops::DerefStr;

/// The link definitions of a text, in the order of their table.
#[derive(Drop)]
pub struct Definitions<'t, 'a> {
    entries: Vec<(&'t LabelKey<'a>, &'t LinkDef<'a>)>,
}

impl<'t, 'a> Model for Definitions<'t, 'a> {
    ghost use Rattle.first_pass_grammar.specs.LinkTables.{LinkEntry};
    ghost use Rattle.first_pass_names.specs.TableEntries.{link_entry};
    ghost use Rattle.std.specs.Map.Iter.{deref_pair};
    ghost use Rattle.std.specs.Prelude.{List, map};

    ghost Value = { List LinkEntry };

    ghost view = { λ d. map (λ e. link_entry (deref_pair e)) d.entries.items };
}

impl<'t, 'a> Definitions<'t, 'a> {
    /// Returns the definitions of a table. Fails only if an allocation fails.
    pub fn of(alloc: Global, table: &'t RefDefs<'a>) -> Result<Definitions<'t, 'a>, AllocError>
        ensures { IfOk result (λ definitions. definitions ≡ map link_entry table.now) }
    {
        let mut entries = Vec::new(alloc);
        for entry in table.iter() {
            entries.push(entry)?;
        }
        Ok(Definitions { entries })
    }

    /// Returns the destination of the definition with an index, or nothing if there is no such index.
    pub fn dest_at(&self, index: usize) -> &str
        ensures { result.now ≡ option_map_or (λ l. l.dest) (slice_get self.now index) [] }
    {
        match self.entries.get(index) {
            Some((_, definition)) => definition.dest.deref(),
            None => "",
        }
    }

    /// Returns the title of the definition with an index, if it has one.
    pub fn title_at(&self, index: usize) -> Option<&str>
        ensures { option_map (λ t. t.now) result ≡ option_and_then (λ l. l.title) (slice_get self.now index) }
    {
        let (_, definition) = self.entries.get(index)?;
        match &definition.title {
            Some(title) => Some(title.deref()),
            None => None,
        }
    }
}
