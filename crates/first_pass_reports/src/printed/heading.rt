//! The printed form of the level and the attributes of a heading.

ghost use Rattle.first_pass_attributes.specs.Attributes.{attributes_in, pair_in};
ghost use Rattle.first_pass_reports.specs.HeadingValues.{attribute_values, class_values, heading_values, id_value, key_value, key_values, value_after_key};
ghost use Rattle.first_pass_reports.specs.Printed.{visible};
ghost use Rattle.std.specs.Option.{option_map};
ghost use Rattle.std.specs.Prelude.{◌≡◌, ◌++◌, OnOk, map};

use crate::printed::node::{append_number, append_visible};
use first_pass_attributes::attrs::HeadingAttributes;
use first_pass_items::item::HeadingLevel;
use first_pass_lines::lines::level_number;
use std::alloc::AllocError;

/// Appends the values of a heading in parentheses: its level, then its attributes, if it has any.
pub fn append_heading(
    line: &mut Vec<u8>,
    level: HeadingLevel,
    attributes: Option<&HeadingAttributes<'_>>,
) -> Result<(), AllocError>
    ensures { OnOk result (line.new.items
        ≡ line.old.items ++ heading_values level (option_map (λ h. attributes_in h.now) attributes.entry)) }
{
    line.push(b'(')?;
    append_number(line, level_number(level))?;
    append_attributes(line, attributes)?;
    line.push(b')')?;
    Ok(())
}

// Appends the attributes of a heading, if it has any: its id, then its classes, then its keys.
fn append_attributes(
    line: &mut Vec<u8>,
    attributes: Option<&HeadingAttributes<'_>>,
) -> Result<(), AllocError>
    ensures { OnOk result (line.new.items
        ≡ line.old.items ++ attribute_values (option_map (λ h. attributes_in h.now) attributes.entry)) }
{
    match attributes {
        None => Ok(()),
        Some(given) => {
            append_id(line, given.id)?;
            append_classes(line, &given.classes)?;
            append_keys(line, &given.attrs)
        }
    }
}

// Appends a comma and an id after `#`, if there is one.
fn append_id(line: &mut Vec<u8>, id: Option<&str>) -> Result<(), AllocError>
    ensures { OnOk result (line.new.items ≡ line.old.items ++ id_value (option_map (λ text. text.now) id.entry)) }
{
    match id {
        None => Ok(()),
        Some(text) => append_after(line, b",#", text),
    }
}

// Appends classes, each after a comma and `.`.
#[tactic(auto, unfolding(crate::specs::HeadingValues::class_values))]
fn append_classes(line: &mut Vec<u8>, classes: &[&str]) -> Result<(), AllocError>
    ensures { OnOk result (line.new.items
        ≡ line.old.items ++ class_values (map (λ class. class.now) classes.now)) }
{
    for class in classes {
        append_after(line, b",.", *class)?;
    }
    Ok(())
}

// Appends keys, each after a comma, with its value if it has one.
#[tactic(auto, unfolding(crate::specs::HeadingValues::key_values))]
fn append_keys(line: &mut Vec<u8>, pairs: &[(&str, Option<&str>)]) -> Result<(), AllocError>
    ensures { OnOk result (line.new.items ≡ line.old.items ++ key_values (map pair_in pairs.now)) }
{
    for pair in pairs {
        append_key(line, *pair)?;
    }
    Ok(())
}

// Appends a comma, a key, and its value if it has one.
fn append_key(line: &mut Vec<u8>, pair: (&str, Option<&str>)) -> Result<(), AllocError>
    ensures { OnOk result (line.new.items ≡ line.old.items ++ key_value (pair_in pair.entry)) }
{
    append_after(line, b",", pair.0)?;
    append_value(line, pair.1)
}

// Appends the value of a key after `=`, if it has one.
fn append_value(line: &mut Vec<u8>, value: Option<&str>) -> Result<(), AllocError>
    ensures { OnOk result (line.new.items
        ≡ line.old.items ++ value_after_key (option_map (λ text. text.now) value.entry)) }
{
    match value {
        None => Ok(()),
        Some(text) => append_after(line, b"=", text),
    }
}

// Appends the bytes of a sign, then a text.
fn append_after(line: &mut Vec<u8>, sign: &[u8], text: &str) -> Result<(), AllocError>
    ensures { OnOk result (line.new.items ≡ line.old.items ++ sign.now ++ visible text.now) }
{
    line.extend_from_slice(sign)?;
    append_visible(line, text.as_bytes())
}
