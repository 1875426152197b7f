//! The printed form of a link definition.

ghost use Rattle.first_pass_items.specs.CowText.{text_of};
ghost use Rattle.first_pass_names.specs.TableEntries.{link_entry};
ghost use Rattle.first_pass_reports.specs.Printed.{link_line, quoted_title, visible};
ghost use Rattle.std.specs.Option.{option_map};
ghost use Rattle.std.specs.Prelude.{◌≡◌, ◌++◌, OnOk, codes};

use crate::printed::node::{append_range, append_visible};
use first_pass_items::cow_str::CowStr;
use first_pass_names::items::{LabelKey, LinkDef};
use std::alloc::AllocError;
use std::ops::DerefStr;

/// Appends the line of a link definition: its label, its destination, its title if it has one, and its range
/// (CommonMark 4.7). Fails only if an allocation fails.
pub fn append_link(
    line: &mut Vec<u8>,
    label: &LabelKey<'_>,
    definition: &LinkDef<'_>,
) -> Result<(), AllocError>
    ensures { OnOk result (line.new.items ≡ line.old.items ++ link_line (link_entry (label.now, definition.now))) }
{
    line.push(b'[')?;
    line.extend_from_slice(label.label().as_bytes())?;
    line.extend_from_slice(b"]: ")?;
    append_visible(line, definition.dest.deref().as_bytes())?;
    append_title(line, &definition.title)?;
    append_range(line, definition.span.start, definition.span.end)
}

// Appends a space and a title in quotation marks, if there is one.
fn append_title(line: &mut Vec<u8>, title: &Option<CowStr<'_>>) -> Result<(), AllocError>
    ensures { OnOk result (line.new.items ≡ line.old.items ++ quoted_title (option_map text_of title.now)) }
{
    match title {
        Some(text) => append_quoted(line, text.deref()),
        None => Ok(()),
    }
}

// Appends a space and a text in quotation marks.
fn append_quoted(line: &mut Vec<u8>, text: &str) -> Result<(), AllocError>
    ensures { OnOk result (line.new.items ≡ line.old.items ++ codes " \"" ++ visible text.now ++ codes "\"") }
{
    line.extend_from_slice(b" \"")?;
    append_visible(line, text.as_bytes())?;
    line.push(b'"')?;
    Ok(())
}
