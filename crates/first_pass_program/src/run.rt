//! The runs of the programs `blocks`, `links` and `tree`. Each reads the input to its end and writes the report of the
//! program on its text. `words` are those after the program's name (see `parse_options`).
//!
//! Faults are found in this order: the options, before the first read and without an allocation; the reads; UTF-8 of
//! the whole input; the pass; for `links` the links; the writes. `OutOfMemory` is found at the allocation that fails.
//! After a fault, nothing or a beginning of the whole output was written. Reader and writer are borrowed, so that the
//! contract can describe their final state.

ghost use Rattle.first_pass_host.specs.Runs.{Runs};
ghost use Rattle.first_pass_host.specs.Streams.{stream_between};
ghost use Rattle.first_pass_host.specs.TreeReports.{AreTreeLines};
ghost use Rattle.first_pass_json.specs.JsonLines.{json_lines};
ghost use Rattle.first_pass_linked.specs.Lines.{plain_forms};
ghost use Rattle.first_pass_linked.specs.LinkLines.{AreLinkLines};
ghost use Rattle.first_pass_reports.specs.Printed.{printed_lines};

use first_pass_blocks::parser::BlockParser;
use first_pass_host::fault::RunFault;
use first_pass_host::report::run_report;
use first_pass_host::tree_report::TreeReport;
use first_pass_json::run::JsonTree;
use first_pass_linked::links::LinkReport;
use first_pass_linked::plain::PlainLinks;
use first_pass_reports::printed::run::PrintedBlocks;
use std::alloc::Global;
use std::io::{Read, Write};

/// Runs the program `blocks`, which writes the lines of `PrintedBlocks`.
pub fn blocks_run<R: Read, W: Write>(
    alloc: Global,
    words: &[String],
    input: &mut R,
    output: &mut W,
) -> Result<(), RunFault>
    ensures { Runs (AreTreeLines (λ _. printed_lines)) words.now
        (stream_between (R.remaining input.old) (R.remaining input.new))
        (stream_between (W.contents output.old) (W.contents output.new)) result }
{
    run_report(
        &TreeReport(BlockParser, PrintedBlocks),
        alloc,
        words,
        input,
        output,
    )
}

/// Runs the program `links`, which writes the lines of `LinkReport`.
pub fn links_run<R: Read, W: Write>(
    alloc: Global,
    words: &[String],
    input: &mut R,
    output: &mut W,
) -> Result<(), RunFault>
    ensures { Runs (AreLinkLines plain_forms) words.now
        (stream_between (R.remaining input.old) (R.remaining input.new))
        (stream_between (W.contents output.old) (W.contents output.new)) result }
{
    run_report(
        &LinkReport(BlockParser, PlainLinks),
        alloc,
        words,
        input,
        output,
    )
}

/// Runs the program `tree`, which writes the lines of `JsonTree`.
pub fn tree_run<R: Read, W: Write>(
    alloc: Global,
    words: &[String],
    input: &mut R,
    output: &mut W,
) -> Result<(), RunFault>
    ensures { Runs (AreTreeLines (λ _. json_lines)) words.now
        (stream_between (R.remaining input.old) (R.remaining input.new))
        (stream_between (W.contents output.old) (W.contents output.new)) result }
{
    run_report(
        &TreeReport(BlockParser, JsonTree),
        alloc,
        words,
        input,
        output,
    )
}
