//! What labels name in a text.

ghost use Rattle.first_pass_inline.specs.Labels.{text_labels};
ghost use Rattle.first_pass_targets.specs.Keys.{definition_index, has_label};
ghost use Rattle.std.specs.Prelude.{◌≡◌, IfOk};

use first_pass_items::option_set::Options;
use first_pass_labels::label_table::{FootDefs, RefDefs};
use first_pass_targets::definition_index::DefinitionIndex;
use first_pass_targets::footnote_index::FootnoteIndex;
use std::alloc::{AllocError, Global};
use std::marker::Model;

/// What labels name in a text: its definitions and its footnotes, each by the key of its label. With the options of the
/// text.
#[derive(Drop)]
pub struct Labels<'t, 'a> {
    definitions: DefinitionIndex<'t, 'a>,
    footnotes: FootnoteIndex<'t, 'a>,
    options: Options,
}

impl<'t, 'a> Model for Labels<'t, 'a> {
    ghost use Rattle.first_pass_inline.specs.Labels.{TextLabels, text_labels};

    ghost Value = { TextLabels };

    ghost view = { λ l. text_labels l.options l.definitions l.footnotes };
}

impl<'t, 'a> Labels<'t, 'a> {
    /// Returns what labels name, by the tables of a text. Fails only if an allocation fails. The tables should be sorted.
    pub fn of(
        alloc: Global,
        definitions: &'t RefDefs<'a>,
        footnotes: &'t FootDefs<'a>,
        options: Options,
    ) -> Result<Labels<'t, 'a>, AllocError>
        ensures { IfOk result (λ labels. labels ≡ text_labels options definitions.now footnotes.now) }
    {
        Ok(Labels {
            definitions: DefinitionIndex::of(alloc, definitions)?,
            footnotes: FootnoteIndex::of(alloc, footnotes)?,
            options,
        })
    }

    // The options.
    pub(crate) fn options(&self) -> Options
        ensures { result ≡ self.now.options }
    {
        self.options
    }

    // The index in the table of the definition that a label names.
    pub(crate) fn definition_index(
        &self,
        alloc: Global,
        label: &str,
    ) -> Result<Option<usize>, AllocError>
        ensures { IfOk result (λ found. found ≡ definition_index self.now.definitions label.now) }
    {
        self.definitions.index_of(alloc, label)
    }

    // Whether a footnote has a label.
    pub(crate) fn has_footnote(&self, alloc: Global, label: &str) -> Result<bool, AllocError>
        ensures { IfOk result (λ found. found ≡ has_label self.now.footnotes label.now) }
    {
        self.footnotes.contains(alloc, label)
    }
}
