//! Writes the lines of an outline.

ghost use Rattle.first_pass_host.specs.Streams.{WritesText, stream_between};
ghost use Rattle.first_pass_outline.specs.Entries.{entry_in};
ghost use Rattle.first_pass_outline.specs.Lines.{entry_line, id_text};
ghost use Rattle.std.specs.List.{flat_map};
ghost use Rattle.std.specs.Option.{option_map};
ghost use Rattle.std.specs.Prelude.{◌≡◌, ◌++◌, map, OnOk};

use crate::outline::OutlineEntry;
use first_pass_host::fault::RunFault;
use first_pass_host::output::write_each;
use first_pass_lines::lines::level_number;
use first_pass_reports::printed::node::append_number;
use std::alloc::{AllocError, Global};
use std::io::Write;

/// Appends the line of an entry: its level as a digit, its range after a space, and its id, if it has one, after a
/// space and `#`. Fails only if an allocation fails.
///
/// The id has the same bytes as in the text, and can be read back. It is one word of an attribute block, without
/// space, tab, form feed or line ending. So everything between the `#` and the end of the line is the id.
pub fn append_entry(line: &mut Vec<u8>, entry: &OutlineEntry<'_>) -> Result<(), AllocError>
    ensures { OnOk result (line.new.items ≡ line.old.items ++ entry_line (entry_in entry.now)) }
{
    append_number(line, level_number(entry.level))?;
    line.push(b' ')?;
    append_number(line, entry.range.start)?;
    line.extend_from_slice(b"..")?;
    append_number(line, entry.range.end)?;
    append_id(line, entry.id)?;
    line.push(b'\n')?;
    Ok(())
}

// Appends a space, `#` and an id, if there is one.
fn append_id(line: &mut Vec<u8>, id: Option<&str>) -> Result<(), AllocError>
    ensures { OnOk result (line.new.items ≡ line.old.items ++ id_text (option_map (λ id. id.now) id.entry)) }
{
    match id {
        None => Ok(()),
        Some(id) => {
            line.extend_from_slice(b" #")?;
            line.extend_from_slice(id.as_bytes())?;
            Ok(())
        }
    }
}

/// Writes the lines of entries, in their order. Fails with `WriteFailed`, or with `OutOfMemory` if an allocation
/// fails; then a beginning of the lines may be written.
pub fn write_entries<W: Write>(
    alloc: Global,
    entries: &[OutlineEntry<'_>],
    output: &mut W,
) -> Result<(), RunFault>
    ensures { WritesText (flat_map entry_line (map entry_in entries.now))
        (stream_between (W.contents output.old) (W.contents output.new)) result }
{
    write_each(
        alloc,
        entries.iter(),
        |line, entry| append_entry(line, entry),
        output,
    )
}
