//! The attributes of headings.

ghost use Rattle.first_pass_attributes.specs.Attributes.{attributes_in, no_attributes, pair_in};
ghost use Rattle.first_pass_c.specs.Appended.{AppendsAttributes};
ghost use Rattle.first_pass_c.specs.FlatAttributes.{attributes_by, attributes_of_body, class_attribute, heading_index, id_attributes, key_attribute, attribute_kind, listed};
ghost use Rattle.first_pass_c.specs.Kinds.{flag};
ghost use Rattle.first_pass_names.specs.TableEntries.{names_of};
ghost use Rattle.std.specs.List.{flat_map};
ghost use Rattle.std.specs.Option.{option_map};
ghost use Rattle.std.specs.Prelude.{◌≡◌, ◌<◌, ◌^◌, ◌∷◌, [], length, map, OnOk, is_some, unwrap_or};

use crate::flat::names::append_text;
use crate::flat::numbers::append_record;
use crate::flat::records::FlatAttribute;
use first_pass_items::item::{HeadingIndex, Item, ItemBody};
use first_pass_names::items::{Allocations, HeadingAttributes};
use std::alloc::AllocError;

/// Attributes, and the names to which their bytes are appended.
#[derive(Drop)]
pub struct NamedAttributes {
    pub attributes: Vec<FlatAttribute>,
    pub names: Vec<u8>,
}

/// The kind of an attribute.
#[derive(Clone, Copy)]
pub enum AttributeKind {
    Id,
    Class,
    Key,
}

// The number of an attribute's kind.
fn number_of(kind: AttributeKind) -> u32
    ensures { result ≡ attribute_kind kind }
{
    match kind {
        AttributeKind::Id => 0,
        AttributeKind::Class => 1,
        AttributeKind::Key => 2,
    }
}

impl NamedAttributes {
    /// Appends the attributes of all headings, in reading order, and their bytes. Fails only if an allocation fails.
    pub(crate) fn append_headings(
        &mut self,
        nodes: &[(usize, Item)],
        allocs: &Allocations<'_>,
    ) -> Result<(), AllocError>
        ensures { OnOk result (AppendsAttributes self.old self.new
            (flat_map (attributes_by (names_of allocs.now)) nodes.now)) }
    {
        // Without a first entry, no heading has attributes.
        if allocs.attributes_at(HeadingIndex(0)).is_none() {
            return Ok(());
        }
        for node in nodes {
            self.append_heading(node.1.body, allocs)?;
        }
        Ok(())
    }

    // Appends the attributes that a node names: those of a heading that has an attribute block.
    fn append_heading(&mut self, body: ItemBody, allocs: &Allocations<'_>) -> Result<(), AllocError>
        ensures { OnOk result (AppendsAttributes self.old self.new (attributes_of_body (names_of allocs.now) body)) }
    {
        match heading_index(body) {
            None => Ok(()),
            Some(ix) => self.append_given(allocs.attributes_at(ix)),
        }
    }

    // Appends the attributes of a heading, if they are given.
    fn append_given(&mut self, attributes: Option<&HeadingAttributes<'_>>) -> Result<(), AllocError>
        ensures { OnOk result (AppendsAttributes self.old self.new
            (listed (unwrap_or (option_map (λ h. attributes_in h.now) attributes.entry) no_attributes))) }
    {
        match attributes {
            None => Ok(()),
            Some(given) => self.append_attributes(given),
        }
    }

    // Appends the attributes of a heading: the id, the classes, the keys.
    fn append_attributes(&mut self, given: &HeadingAttributes<'_>) -> Result<(), AllocError>
        ensures { OnOk result (AppendsAttributes self.old self.new (listed (attributes_in given.now))) }
    {
        self.append_id(given.id)?;
        self.append_classes(&given.classes)?;
        self.append_keys(&given.attrs)
    }

    // Appends an id, if there is one.
    fn append_id(&mut self, id: Option<&str>) -> Result<(), AllocError>
        ensures { OnOk result (AppendsAttributes self.old self.new
            (id_attributes (option_map (λ text. text.now) id.entry))) }
    {
        match id {
            None => Ok(()),
            Some(id) => self.append(AttributeKind::Id, id, None),
        }
    }

    // Appends classes.
    fn append_classes(&mut self, classes: &[&str]) -> Result<(), AllocError>
        ensures { OnOk result (AppendsAttributes self.old self.new
            (map class_attribute (map (λ class. class.now) classes.now))) }
    {
        for class in classes {
            self.append(AttributeKind::Class, *class, None)?;
        }
        Ok(())
    }

    // Appends keys with their values.
    fn append_keys(&mut self, keys: &[(&str, Option<&str>)]) -> Result<(), AllocError>
        ensures { OnOk result (AppendsAttributes self.old self.new (map key_attribute (map pair_in keys.now))) }
    {
        for key in keys {
            self.append(AttributeKind::Key, key.0, key.1)?;
        }
        Ok(())
    }

    // Appends an attribute and its bytes.
    fn append(
        &mut self,
        kind: AttributeKind,
        name: &str,
        value: Option<&str>,
    ) -> Result<(), AllocError>
        ensures { OnOk result (AppendsAttributes self.old self.new
            (record { kind = attribute_kind kind; name = name.now; value = option_map (λ text. text.now) value.entry }
            ∷ [])) }
    {
        let spelled = append_text(&mut self.names, name)?;
        let value_range = append_text(&mut self.names, text_or_empty(value))?;
        append_record(
            &mut self.attributes,
            FlatAttribute {
                name: spelled.start,
                name_length: spelled.length,
                value: value_range.start,
                value_length: value_range.length,
                has_value: presence(value),
                kind: number_of(kind),
            },
        )?;
        Ok(())
    }
}

// 1 if there is a text, otherwise 0.
fn presence(text: Option<&str>) -> u32
    ensures { result ≡ flag (is_some (option_map (λ text. text.now) text.entry)) }
{
    match text {
        None => 0,
        Some(_) => 1,
    }
}

// The text, or an empty one if there is none.
fn text_or_empty(text: Option<&str>) -> &str
    ensures { result.now ≡ unwrap_or (option_map (λ text. text.now) text.entry) [] }
{
    match text {
        None => "",
        Some(text) => text,
    }
}

// The index of the attributes of a heading that has an attribute block.
fn heading_index(body: ItemBody) -> Option<HeadingIndex>
    ensures { result ≡ heading_index body }
{
    match body {
        ItemBody::Heading(_, ix) => ix,
        _ => None,
    }
}

/// Returns the number of attributes that a heading names; 0 for any other node.
#[inline(never)]
pub(crate) fn attribute_count(body: &ItemBody, allocs: &Allocations<'_>) -> usize
    requires { length (attributes_of_body (names_of allocs.now) body.now) < 2 ^ 64 }
    ensures { result ≡ length (attributes_of_body (names_of allocs.now) body.now) }
{
    match heading_index(*body) {
        None => 0,
        Some(ix) => count_of(allocs.attributes_at(ix)),
    }
}

// The number of a heading's attributes; 0 if none are given.
fn count_of(attributes: Option<&HeadingAttributes<'_>>) -> usize
    requires { length (listed (unwrap_or (option_map (λ h. attributes_in h.now) attributes) no_attributes)) < 2 ^ 64 }
    ensures { result
        ≡ length (listed (unwrap_or (option_map (λ h. attributes_in h.now) attributes.entry) no_attributes)) }
{
    match attributes {
        None => 0,
        Some(given) => { usize::from(given.id.is_some()) + given.classes.len() + given.attrs.len() }
    }
}
