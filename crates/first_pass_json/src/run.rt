//! The lines of the program `tree`.

ghost use Rattle.first_pass_host.specs.Streams.{WritesText, stream_between};
ghost use Rattle.first_pass_json.specs.JsonLines.{json_lines, lines_in, tables_lines};
ghost use Rattle.first_pass_json.specs.PlacedRanges.{if_wanted, placed_members};
ghost use Rattle.first_pass_names.specs.TableEntries.{names_of, tables_of};

use crate::definition::{append_definition, append_footnote};
use crate::node::append_node;
use crate::placed::PlacedRange;
use crate::range::{Offsets, RangeForm};
use first_pass_host::fault::RunFault;
use first_pass_host::output::write_each;
use first_pass_host::tree_report::{Parsed, TreeLines};
use first_pass_names::items::Allocations;
use std::alloc::Global;
use std::io::Write;

/// The lines of the program `tree`, in JSON: one for each node of the tree of a text's blocks, in reading order, then
/// one for each link definition, and one for each footnote's label, both in the byte order of their folded labels.
pub struct JsonTree;

impl TreeLines for JsonTree {
    ghost lines = { λ _ _ names nodes tables. json_lines names nodes tables };

    fn write_lines<W: Write>(&self, parsed: &Parsed<'_>, output: &mut W) -> Result<(), RunFault> {
        write_tree(parsed, &Offsets, output)
    }
}

/// The same lines, with more on the range of each node and of each link definition.
#[derive(Clone, Copy)]
pub struct JsonTreeWith {
    /// Whether the line and the column of the start and of the end are added, as editors count.
    pub lines: bool,
    /// Whether the text of the range is added.
    pub text: bool,
}

impl TreeLines for JsonTreeWith {
    ghost lines = { λ report text. lines_in
        (placed_members (if_wanted report.lines text) (if_wanted report.text text)) };

    fn write_lines<W: Write>(&self, parsed: &Parsed<'_>, output: &mut W) -> Result<(), RunFault> {
        let form = PlacedRange::new(parsed.alloc, parsed.text, self.lines, self.text)?;
        write_tree(parsed, &form, output)
    }
}

// Writes the lines of a tree and of its tables, in a form of ranges.
fn write_tree<R: RangeForm, W: Write>(
    parsed: &Parsed<'_>,
    form: &R,
    output: &mut W,
) -> Result<(), RunFault>
    ensures { WritesText
        (lines_in (R.members form.now) (names_of parsed.now.allocs) parsed.now.tree.nodes
        (tables_of parsed.now.allocs))
        (stream_between (W.contents output.old) (W.contents output.new)) result }
{
    let allocs = &parsed.allocs;
    write_each(
        parsed.alloc,
        parsed.tree.nodes().iter(),
        |line, (depth, item)| append_node(line, form, *depth, *item, allocs),
        output,
    )?;
    write_tables(parsed.alloc, form, allocs, output)
}

// Writes the lines of the link definitions and of the footnotes' labels, in a form of ranges.
fn write_tables<R: RangeForm, W: Write>(
    alloc: Global,
    form: &R,
    allocs: &Allocations<'_>,
    output: &mut W,
) -> Result<(), RunFault>
    ensures { WritesText (tables_lines (R.members form.now) (tables_of allocs.now))
        (stream_between (W.contents output.old) (W.contents output.new)) result }
{
    write_each(
        alloc,
        allocs.refdefs().iter(),
        |line, (label, link)| append_definition(line, form, label, link),
        output,
    )?;
    write_each(
        alloc,
        allocs.footdefs().iter(),
        |line, (label, _)| append_footnote(line, label),
        output,
    )
}
