//! The lines of link definitions and of footnotes' labels.

ghost use Rattle.first_pass_items.specs.CowText.{text_of};
ghost use Rattle.first_pass_json.specs.JsonLines.{definition_line, footnote_line, link_members, target_members};
ghost use Rattle.first_pass_json.specs.JsonValues.{text_or_null};
ghost use Rattle.first_pass_names.specs.TableEntries.{link_entry};
ghost use Rattle.std.specs.Option.{option_map};
ghost use Rattle.std.specs.Prelude.{◌≡◌, ◌++◌, OnOk, codes};

use crate::range::RangeForm;
use crate::values::{append_string, append_string_after};
use first_pass_items::cow_str::CowStr;
use first_pass_names::items::{LabelKey, LinkDef};
use std::alloc::AllocError;
use std::ops::DerefStr;

/// Appends the line of a link definition: its label as it is spelled, its destination, its title or `null`, and its
/// range in a form of ranges (CommonMark 4.7). Fails only if an allocation fails.
pub fn append_definition<R: RangeForm>(
    line: &mut Vec<u8>,
    form: &R,
    label: &LabelKey<'_>,
    definition: &LinkDef<'_>,
) -> Result<(), AllocError>
    ensures { OnOk result (line.new.items
        ≡ line.old.items ++ definition_line (R.members form.now) (link_entry (label.now, definition.now))) }
{
    line.push(b'{')?;
    append_link(line, label, definition)?;
    form.append_range(line, definition.span.start, definition.span.end)?;
    line.extend_from_slice(b"}\n")
}

// Appends the label, the destination and the title of a link definition.
#[tactic(auto, unfolding(crate::specs::JsonLines::link_members))]
fn append_link(
    line: &mut Vec<u8>,
    label: &LabelKey<'_>,
    definition: &LinkDef<'_>,
) -> Result<(), AllocError>
    ensures { OnOk result (line.new.items ≡ line.old.items ++ link_members (link_entry (label.now, definition.now))) }
{
    append_string_after(line, b"\"definition\":", label.label())?;
    append_target(line, definition)
}

// Appends the destination and the title of a link definition.
#[tactic(auto, unfolding(crate::specs::JsonLines::target_members))]
fn append_target(line: &mut Vec<u8>, definition: &LinkDef<'_>) -> Result<(), AllocError>
    ensures { OnOk result (line.new.items ≡ line.old.items
        ++ target_members (text_of definition.now.dest) (option_map text_of definition.now.title)) }
{
    append_string_after(line, b",\"destination\":", definition.dest.deref())?;
    append_title(line, &definition.title)
}

// Appends a title, or `null` if there is none.
fn append_title(line: &mut Vec<u8>, title: &Option<CowStr<'_>>) -> Result<(), AllocError>
    ensures { OnOk result (line.new.items
        ≡ line.old.items ++ codes ",\"title\":" ++ text_or_null (option_map text_of title.now)) }
{
    line.extend_from_slice(b",\"title\":")?;
    match title {
        None => line.extend_from_slice(b"null"),
        Some(text) => append_string(line, text.deref()),
    }
}

/// Appends the line of a footnote's label. Fails only if an allocation fails.
pub fn append_footnote(line: &mut Vec<u8>, label: &LabelKey<'_>) -> Result<(), AllocError>
    ensures { OnOk result (line.new.items ≡ line.old.items ++ footnote_line (text_of label.now)) }
{
    append_string_after(line, b"{\"footnote\":", label.label())?;
    line.extend_from_slice(b"}\n")
}
