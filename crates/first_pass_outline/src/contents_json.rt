//! The headings of a tree in JSON: a line for each, and the table of contents as nested objects.

ghost use Rattle.first_pass_json.specs.JsonValues.{json_string};
ghost use Rattle.first_pass_outline.specs.ContentsLines.{between_objects, closed, object_opened, title_line, title_members};
ghost use Rattle.first_pass_outline.specs.ContentsViews.{placed_in};
ghost use Rattle.json.specs.Print.{escape};
ghost use Rattle.std.specs.Prelude.{◌≡◌, ◌++◌, OnOk};

use crate::contents::ContentsEntry;
use first_pass_json::range::{Offsets, RangeForm};
use first_pass_json::values::{append_escape, append_number_after, append_string_or_null};
use first_pass_lines::lines::level_number;
use std::alloc::AllocError;

/// Appends the line of a heading: an object with its level, its text, its id or `null`, and its range. Fails only if an
/// allocation fails.
pub fn append_title(line: &mut Vec<u8>, entry: &ContentsEntry<'_>) -> Result<(), AllocError>
    ensures { OnOk result (line.new.items ≡ line.old.items ++ title_line (placed_in entry.now).title) }
{
    line.push(b'{')?;
    append_members(line, entry)?;
    line.extend_from_slice(b"}\n")
}

/// Appends an entry as an object that is open for its children, after what comes between the last object and it. Fails
/// only if an allocation fails.
pub fn append_object(line: &mut Vec<u8>, entry: &ContentsEntry<'_>) -> Result<(), AllocError>
    ensures { OnOk result (line.new.items ≡ line.old.items ++ object_opened (placed_in entry.now)) }
{
    append_between(line, entry.open_before, entry.depth)?;
    line.push(b'{')?;
    append_members(line, entry)?;
    line.extend_from_slice(b",\"children\":[")
}

// Appends what comes between the last object and one at this depth, if so many objects are open.
fn append_between(line: &mut Vec<u8>, open_before: usize, depth: usize) -> Result<(), AllocError>
    ensures { OnOk result (line.new.items ≡ line.old.items ++ between_objects open_before depth) }
{
    if depth == open_before {
        return Ok(());
    }
    append_closed(line, open_before.saturating_sub(depth))?;
    line.push(b',')?;
    Ok(())
}

/// Appends the ends of this many open objects, each with the array of its children. Fails only if an allocation fails.
#[tactic(auto, unfolding(crate::specs::ContentsLines::closed))]
pub fn append_closed(line: &mut Vec<u8>, count: usize) -> Result<(), AllocError>
    ensures { OnOk result (line.new.items ≡ line.old.items ++ closed count) }
{
    for _object in 0..count {
        line.extend_from_slice(b"]}")?;
    }
    Ok(())
}

// Appends the members of an entry's heading.
#[tactic(auto, unfolding(crate::specs::ContentsLines::title_members))]
fn append_members(line: &mut Vec<u8>, entry: &ContentsEntry<'_>) -> Result<(), AllocError>
    ensures { OnOk result (line.new.items ≡ line.old.items ++ title_members (placed_in entry.now).title) }
{
    let heading = &entry.heading;
    append_number_after(line, b"\"level\":", level_number(heading.level))?;
    line.extend_from_slice(b",\"text\":")?;
    append_quoted(line, entry.text.as_slice())?;
    line.extend_from_slice(b",\"id\":")?;
    append_string_or_null(line, heading.id)?;
    Offsets.append_range(line, heading.range.start, heading.range.end)
}

// Appends bytes in quotation marks, with the escapes of JSON.
#[tactic(auto, unfolding(first_pass_json::specs::JsonValues::json_string))]
fn append_quoted(line: &mut Vec<u8>, bytes: &[u8]) -> Result<(), AllocError>
    ensures { OnOk result (line.new.items ≡ line.old.items ++ json_string bytes.now) }
{
    line.push(b'"')?;
    append_escaped(line, bytes)?;
    line.push(b'"')?;
    Ok(())
}

// Appends bytes with the escapes of JSON.
fn append_escaped(line: &mut Vec<u8>, bytes: &[u8]) -> Result<(), AllocError>
    ensures { OnOk result (line.new.items ≡ line.old.items ++ escape bytes.now) }
{
    for byte in bytes {
        append_escape(line, *byte)?;
    }
    Ok(())
}
