//! The lines of link definitions.

ghost use Rattle.first_pass_names.specs.TableEntries.{link_entry};
ghost use Rattle.first_pass_reports.specs.ReferenceLines.{definition_line};
ghost use Rattle.std.specs.Prelude.{◌≡◌, ◌++◌, OnOk};

use crate::printed::links::append_link;
use first_pass_names::items::{LabelKey, LinkDef};
use std::alloc::AllocError;

/// Appends the line of a link definition: its label, its destination, its title if it has one, and its range.
pub fn append_definition(
    line: &mut Vec<u8>,
    label: &LabelKey<'_>,
    definition: &LinkDef<'_>,
) -> Result<(), AllocError>
    ensures { OnOk result (line.new.items
        ≡ line.old.items ++ definition_line (link_entry (label.now, definition.now))) }
{
    line.extend_from_slice(b"definition ")?;
    append_link(line, label, definition)
}
