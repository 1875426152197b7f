//! A report that has the lines of a text's tree.

ghost use Rattle.first_pass_host.specs.Streams.{WritesText, stream_between};
ghost use Rattle.first_pass_host.specs.TreeReports.{AreTreeLines, Lines};
ghost use Rattle.first_pass_names.specs.TableEntries.{names_of, tables_of};

use crate::fault::RunFault;
use crate::report::{Report, Subject};
use first_pass_items::item::Item;
use first_pass_names::items::Allocations;
use first_pass_names::parse::Parse;
use first_pass_tree::forest::Tree;
use std::alloc::Global;
use std::io::Write;

/// A text with its tree and its tables, and the allocator for its lines.
#[derive(Drop)]
pub struct Parsed<'a> {
    pub alloc: Global,
    pub text: &'a str,
    pub tree: Tree<Item>,
    pub allocs: Allocations<'a>,
}

/// The lines that a program writes for a text's tree.
pub trait TreeLines {
    // The lines for a text with its names, nodes and tables.
    ghost lines: { Self → Lines };

    /// Writes the lines for a text, its tree and its tables. Fails with `WriteFailed`, or with `OutOfMemory` if an
    /// allocation fails; then a beginning of the lines may be written.
    fn write_lines<W: Write>(&self, parsed: &Parsed<'_>, output: &mut W) -> Result<(), RunFault>
        ensures { WritesText
            (lines self.now parsed.now.text.now (names_of parsed.now.allocs) parsed.now.tree.nodes
            (tables_of parsed.now.allocs))
            (stream_between (W.contents output.old) (W.contents output.new)) result };
}

/// The report with these lines of the tree that a parser returns. It is proved for every parser.
#[derive(Drop)]
pub struct TreeReport<P, L>(pub P, pub L);

impl<P: Parse, L: TreeLines> Report for TreeReport<P, L> {
    ghost says = { λ report options text output. AreTreeLines (L.lines report.1) options text output };

    fn write_report<W: Write>(&self, subject: Subject<'_>, output: &mut W) -> Result<(), RunFault> {
        let (tree, allocs) = self.0.parse(subject.alloc, subject.text, subject.options)?;
        let parsed = Parsed {
            alloc: subject.alloc,
            text: subject.text,
            tree,
            allocs,
        };
        self.1.write_lines(&parsed, output)
    }
}
