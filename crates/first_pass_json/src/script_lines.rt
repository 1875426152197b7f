//! The lines of the program `tree` in a script element.

ghost use Rattle.first_pass_host.specs.Streams.{WritesText, stream_between};
ghost use Rattle.first_pass_items.specs.CowText.{text_of};
ghost use Rattle.first_pass_json.specs.JsonLines.{definition_line, footnote_line, json_lines, node_line, range_members, tables_lines};
ghost use Rattle.first_pass_json.specs.Scripts.{in_script};
ghost use Rattle.first_pass_names.specs.TableEntries.{link_entry, names_of, tables_of};
ghost use Rattle.std.specs.Prelude.{◌≡◌, ◌++◌, OnOk};

use crate::definition::{append_definition, append_footnote};
use crate::node::append_node;
use crate::range::Offsets;
use crate::script::append_in_script;
use first_pass_host::fault::RunFault;
use first_pass_host::output::write_each;
use first_pass_host::tree_report::Parsed;
use first_pass_items::item::Item;
use first_pass_names::items::{Allocations, LabelKey, LinkDef};
use std::alloc::{AllocError, Global};
use std::io::Write;

/// Writes the lines of a tree and its tables in a script element. Fails with `WriteFailed`, or with `OutOfMemory` if
/// an allocation fails; then a beginning of the lines may be written.
pub fn write_script_lines<W: Write>(parsed: &Parsed<'_>, output: &mut W) -> Result<(), RunFault>
    ensures { WritesText
        (in_script (json_lines (names_of parsed.now.allocs) parsed.now.tree.nodes (tables_of parsed.now.allocs)))
        (stream_between (W.contents output.old) (W.contents output.new)) result }
{
    let allocs = &parsed.allocs;
    write_each(
        parsed.alloc,
        parsed.tree.nodes().iter(),
        |held, (depth, item)| append_node_in_script(held, *depth, *item, allocs),
        output,
    )?;
    write_script_tables(parsed.alloc, allocs, output)
}

// Writes the lines of the link definitions and of the footnotes' labels.
fn write_script_tables<W: Write>(
    alloc: Global,
    allocs: &Allocations<'_>,
    output: &mut W,
) -> Result<(), RunFault>
    ensures { WritesText (in_script (tables_lines range_members (tables_of allocs.now)))
        (stream_between (W.contents output.old) (W.contents output.new)) result }
{
    write_each(
        alloc,
        allocs.refdefs().iter(),
        |held, (label, link)| append_definition_in_script(held, label, link),
        output,
    )?;
    write_each(
        alloc,
        allocs.footdefs().iter(),
        |held, (label, _)| append_footnote_in_script(held, label),
        output,
    )
}

// Appends the line of a node.
fn append_node_in_script(
    held: &mut Vec<u8>,
    depth: usize,
    item: Item,
    allocs: &Allocations<'_>,
) -> Result<(), AllocError>
    ensures { OnOk result (held.new.items
        ≡ held.old.items ++ in_script (node_line range_members (names_of allocs.now) (depth, item))) }
{
    let mut line = Vec::new(*held.allocator());
    append_node(&mut line, &Offsets, depth, item, allocs)?;
    append_in_script(held, line.as_slice())
}

// Appends the line of a link definition.
fn append_definition_in_script(
    held: &mut Vec<u8>,
    label: &LabelKey<'_>,
    definition: &LinkDef<'_>,
) -> Result<(), AllocError>
    ensures { OnOk result (held.new.items
        ≡ held.old.items ++ in_script (definition_line range_members (link_entry (label.now, definition.now)))) }
{
    let mut line = Vec::new(*held.allocator());
    append_definition(&mut line, &Offsets, label, definition)?;
    append_in_script(held, line.as_slice())
}

// Appends the line of a footnote's label.
fn append_footnote_in_script(held: &mut Vec<u8>, label: &LabelKey<'_>) -> Result<(), AllocError>
    ensures { OnOk result (held.new.items ≡ held.old.items ++ in_script (footnote_line (text_of label.now))) }
{
    let mut line = Vec::new(*held.allocator());
    append_footnote(&mut line, label)?;
    append_in_script(held, line.as_slice())
}
