//! The members of a heading.

ghost use Rattle.first_pass_attributes.specs.Attributes.{attributes_in, no_attributes, pair_in};
ghost use Rattle.first_pass_json.specs.JsonValues.{array, json_string};
ghost use Rattle.first_pass_json.specs.Members.{attribute_members, heading_members, pair};
ghost use Rattle.std.specs.Option.{option_map};
ghost use Rattle.std.specs.Prelude.{◌≡◌, ◌++◌, OnOk, map, unwrap_or};

use crate::array::{ArrayValue, append_array};
use crate::values::{append_number_after, append_string, append_string_or_null};
use first_pass_attributes::attrs::HeadingAttributes;
use first_pass_items::item::HeadingLevel;
use first_pass_lines::lines::level_number;
use std::alloc::AllocError;

/// Appends the members of a heading: its level, its id, its classes and its keys. Without attributes it has no id, no
/// class and no key.
pub fn append_heading(
    line: &mut Vec<u8>,
    level: HeadingLevel,
    attributes: Option<&HeadingAttributes<'_>>,
) -> Result<(), AllocError>
    ensures { OnOk result (line.new.items ≡ line.old.items
        ++ heading_members level (unwrap_or (option_map (λ h. attributes_in h.now) attributes.entry) no_attributes)) }
{
    append_number_after(line, b",\"level\":", level_number(level))?;
    match attributes {
        None => append_no_attributes(line),
        Some(given) => append_attributes(line, given),
    }
}

// Appends the members of empty attributes.
#[tactic(auto, unfolding(crate::specs::Members::attribute_members))]
fn append_no_attributes(line: &mut Vec<u8>) -> Result<(), AllocError>
    ensures { OnOk result (line.new.items ≡ line.old.items ++ attribute_members no_attributes) }
{
    line.extend_from_slice(b",\"id\":null,\"classes\":[],\"attributes\":[]")
}

// Appends the members of attributes.
#[tactic(auto, unfolding(crate::specs::Members::attribute_members))]
fn append_attributes(line: &mut Vec<u8>, given: &HeadingAttributes<'_>) -> Result<(), AllocError>
    ensures { OnOk result (line.new.items ≡ line.old.items ++ attribute_members (attributes_in given.now)) }
{
    line.extend_from_slice(b",\"id\":")?;
    append_string_or_null(line, given.id)?;
    line.extend_from_slice(b",\"classes\":")?;
    append_classes(line, &given.classes)?;
    line.extend_from_slice(b",\"attributes\":")?;
    append_pairs(line, &given.attrs)
}

// Appends classes as an array.
fn append_classes(line: &mut Vec<u8>, classes: &[&str]) -> Result<(), AllocError>
    ensures { OnOk result (line.new.items
        ≡ line.old.items ++ array json_string (map (λ class. class.now) classes.now)) }
{
    append_array(line, classes)
}

// Appends keys with their values as an array.
fn append_pairs(line: &mut Vec<u8>, pairs: &[(&str, Option<&str>)]) -> Result<(), AllocError>
    ensures { OnOk result (line.new.items ≡ line.old.items ++ array pair (map pair_in pairs.now)) }
{
    append_array(line, pairs)
}

impl ArrayValue for &str {
    ghost form = { λ text. json_string text.now };

    fn append_to(&self, line: &mut Vec<u8>) -> Result<(), AllocError> {
        append_string(line, *self)
    }
}

// A key and its value: an array of two, whose second element is `null` if there is no value.
impl ArrayValue for (&str, Option<&str>) {
    ghost form = { λ attribute. pair (pair_in attribute) };

    fn append_to(&self, line: &mut Vec<u8>) -> Result<(), AllocError> {
        line.push(b'[')?;
        append_string(line, self.0)?;
        line.push(b',')?;
        append_string_or_null(line, self.1)?;
        line.push(b']')?;
        Ok(())
    }
}
