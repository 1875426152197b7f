//! Link definitions and the labels of footnotes.

ghost use Rattle.first_pass_c.specs.Appended.{AppendsDefinitions};
ghost use Rattle.first_pass_c.specs.FlatDefinitions.{label_entry};
ghost use Rattle.first_pass_c.specs.Kinds.{flag};
ghost use Rattle.first_pass_items.specs.CowText.{text_of};
ghost use Rattle.first_pass_names.specs.TableEntries.{footnote_label, link_entry};
ghost use Rattle.std.specs.Option.{option_map};
ghost use Rattle.std.specs.Prelude.{◌≡◌, ◌∷◌, [], map, OnOk, is_some, unwrap_or};

use crate::flat::names::append_text;
use crate::flat::numbers::append_record;
use crate::flat::records::FlatDefinition;
use first_pass_items::cow_str::CowStr;
use first_pass_names::items::{FootDefs, LabelKey, LinkDef, RefDefs};
use std::alloc::AllocError;
use std::ops::DerefStr;

/// Records of definitions, and the names to which their bytes are appended.
#[derive(Drop)]
pub struct NamedDefinitions {
    pub definitions: Vec<FlatDefinition>,
    pub names: Vec<u8>,
}

impl NamedDefinitions {
    /// Appends the link definitions, in the order of their table, and their bytes. Fails only if an allocation fails.
    pub(crate) fn append_links(&mut self, links: &RefDefs<'_>) -> Result<(), AllocError>
        ensures { OnOk result (AppendsDefinitions self.old self.new (map link_entry links.now)) }
    {
        for (label, definition) in links.iter() {
            self.append_link(label, definition)?;
        }
        Ok(())
    }

    /// Appends the labels of the footnotes, in the order of their table, and their bytes. Fails only if an allocation
    /// fails.
    pub(crate) fn append_footnotes(&mut self, footnotes: &FootDefs<'_>) -> Result<(), AllocError>
        ensures { OnOk result (AppendsDefinitions self.old self.new
            (map label_entry (map footnote_label footnotes.now))) }
    {
        for (label, _footnote) in footnotes.iter() {
            self.append_footnote(label)?;
        }
        Ok(())
    }

    // Appends a link definition and its bytes.
    fn append_link(
        &mut self,
        label: &LabelKey<'_>,
        definition: &LinkDef<'_>,
    ) -> Result<(), AllocError>
        ensures { OnOk result (AppendsDefinitions self.old self.new
            (link_entry (label.now, definition.now) ∷ [])) }
    {
        let label = append_text(&mut self.names, label.label())?;
        let destination = append_text(&mut self.names, definition.dest.deref())?;
        let title = append_text(&mut self.names, title_text(&definition.title))?;
        append_record(
            &mut self.definitions,
            FlatDefinition {
                start: definition.span.start,
                end: definition.span.end,
                label: label.start,
                label_length: label.length,
                destination: destination.start,
                destination_length: destination.length,
                title: title.start,
                title_length: title.length,
                has_title: presence(&definition.title),
                label_end: definition.places.label_end,
                destination_start: definition.places.dest_start,
                destination_end: definition.places.dest_end,
                title_start: definition.places.title_start,
            },
        )?;
        Ok(())
    }

    // Appends a record for the label of a footnote, and the bytes of the label.
    fn append_footnote(&mut self, label: &LabelKey<'_>) -> Result<(), AllocError>
        ensures { OnOk result (AppendsDefinitions self.old self.new (label_entry (text_of label.now) ∷ [])) }
    {
        let label = append_text(&mut self.names, label.label())?;
        let following = self.names.len();
        append_record(
            &mut self.definitions,
            FlatDefinition {
                label: label.start,
                label_length: label.length,
                destination: following,
                title: following,
                ..FlatDefinition::ZERO
            },
        )?;
        Ok(())
    }
}

// 1 if there is a title, otherwise 0.
fn presence(title: &Option<CowStr<'_>>) -> usize
    ensures { result ≡ flag (is_some (option_map text_of title.now)) }
{
    match title {
        None => 0,
        Some(_) => 1,
    }
}

// The text of a title, or the empty text if there is none.
fn title_text<'t>(title: &'t Option<CowStr<'_>>) -> &'t str
    ensures { result.now ≡ unwrap_or (option_map text_of title.now) [] }
{
    match title {
        None => "",
        Some(text) => text.deref(),
    }
}
