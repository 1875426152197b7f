//! The lines of the program `blocks`.

ghost use Rattle.first_pass_reports.specs.Printed.{printed_lines};

use crate::printed::links::append_link;
use crate::printed::node::append_node;
use first_pass_host::fault::RunFault;
use first_pass_host::output::write_each;
use first_pass_host::tree_report::{Parsed, TreeLines};
use std::io::Write;

/// The lines of the program `blocks`: one for each node of a text's tree of blocks, in reading order, then one for each
/// link definition, in the byte order of their folded labels.
pub struct PrintedBlocks;

impl TreeLines for PrintedBlocks {
    ghost lines = { λ _ _ names nodes tables. printed_lines names nodes tables };

    fn write_lines<W: Write>(&self, parsed: &Parsed<'_>, output: &mut W) -> Result<(), RunFault> {
        let allocs = &parsed.allocs;
        write_each(
            parsed.alloc,
            parsed.tree.nodes().iter(),
            |line, (depth, item)| append_node(line, *depth, *item, allocs),
            output,
        )?;
        write_each(
            parsed.alloc,
            allocs.refdefs().iter(),
            |line, (label, link)| append_link(line, label, link),
            output,
        )
    }
}
