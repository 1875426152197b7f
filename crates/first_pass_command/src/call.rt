//! A call of the command: a report on each of its files.

ghost use Rattle.first_pass_command.specs.Calls.{RunsCall, RunsListed, RunsOver, call_setting, file_names, texts_of};
ghost use Rattle.first_pass_command.specs.Files.{RunsEach, setting, start};
ghost use Rattle.first_pass_command.specs.Reports.{headings_if, named_if, tree_lines};
ghost use Rattle.first_pass_command.specs.Timed.{IsTimedLine};
ghost use Rattle.first_pass_host.specs.Streams.{stream_between};
ghost use Rattle.first_pass_host.specs.TreeReports.{AreTreeLines};
ghost use Rattle.std.specs.Prelude.{◌≡◌, ◌++◌, false, OnOk, length, map, nat_lt, option_map};

use crate::fault::{FileFault, tell_no_memory};
use crate::page::ShownTree;
use crate::reports::{FileReport, Headings, Named, Plain};
use crate::run::{Job, Progress, run_all, unread};
use crate::source::Source;
use crate::timed::TimedRuns;
use crate::writers::{Closes, Writers};
use first_pass_blocks::parser::BlockParser;
use first_pass_host::clock::TimeSource;
use first_pass_host::report::Report;
use first_pass_host::tree_report::TreeReport;
use first_pass_items::option_set::Options;
use first_pass_json::page::Part;
use first_pass_json::run::JsonTreeWith;
use first_pass_linked::links::LinkReport;
use first_pass_linked::plain::PlainLinks;
use first_pass_linked_json::links::JsonLinks;
use first_pass_outline::run::{ContentsJson, ContentsList, ListedOutline, OutlineJson};
use first_pass_program::words::call::{Call, Form, ReportName};
use first_pass_program::words::file_list::append_names;
use first_pass_reports::printed::run::PrintedBlocks;
use std::alloc::{AllocError, Global};
use std::io::Write;

// The reports on the tree that take nothing from the call.
const BLOCKS: TreeReport<BlockParser, PrintedBlocks> = TreeReport(BlockParser, PrintedBlocks);

const OUTLINE_JSON: TreeReport<BlockParser, OutlineJson> = TreeReport(BlockParser, OutlineJson);

const LINKS: LinkReport<BlockParser, PlainLinks> = LinkReport(BlockParser, PlainLinks);

const LINKS_JSON: LinkReport<BlockParser, JsonLinks> = LinkReport(BlockParser, JsonLinks);

const CONTENTS: TreeReport<BlockParser, ContentsList> = TreeReport(BlockParser, ContentsList);

const CONTENTS_JSON: TreeReport<BlockParser, ContentsJson> = TreeReport(BlockParser, ContentsJson);

/// Where memory, texts and times come from, and the template of a page.
#[derive(Drop)]
pub struct Shell<'t, S, C> {
    pub alloc: Global,
    pub source: S,
    pub clock: C,
    pub template: &'t [Part<'t>],
}

// The names of the files of a call, and how they are read.
#[derive(Drop)]
struct Files<'a> {
    options: Options,
    strips: bool,
    names: &'a [&'a [u8]],
}

/// Writes the report that a call asks for on each of its files: those that its words name, and then those of its list.
/// Without a name and without a list it is a report on standard input. With several files each report has a heading,
/// or the name of the file in each line of JSON. If the list can't be read, only its fault is written.
pub(crate) fn run_call<S, C, W, E>(
    shell: &Shell<'_, S, C>,
    call: &Call<'_>,
    writers: &mut Writers<W, E>,
) -> Progress
where
    S: Source,
    C: TimeSource + Copy,
    W: Write + Closes,
    E: Write,
    ensures { RunsCall (call_setting (S.holds shell.now.source) shell.now.template.now
        (C.readings shell.now.clock) call.now) call.now
        (stream_between (W.contents writers.old.output) (W.contents writers.new.output))
        (stream_between (E.contents writers.old.errors) (E.contents writers.new.errors)) result }
{
    let Some(name) = call.list else {
        return run_listed(shell, call, &[], writers);
    };
    let mut list = Vec::new(shell.alloc);
    match shell.source.read_bytes(name, &mut list) {
        Ok(()) => run_listed(shell, call, list.as_slice(), writers),
        Err(error) => {
            let fault = unread(error);
            let told = fault.tell(shell.alloc, name, &mut writers.errors);
            Progress::failed(&fault, told)
        }
    }
}

// Writes the report that a call asks for on each file of its words and of its list, if it has one.
fn run_listed<'n, S, C, W, E>(
    shell: &Shell<'_, S, C>,
    call: &'n Call<'n>,
    list: &'n [u8],
    writers: &mut Writers<W, E>,
) -> Progress
where
    S: Source,
    C: TimeSource + Copy,
    W: Write + Closes,
    E: Write,
    ensures { RunsListed (call_setting (S.holds shell.now.source) shell.now.template.now
        (C.readings shell.now.clock) call.now) call.now
        list.now
        (stream_between (W.contents writers.old.output) (W.contents writers.new.output))
        (stream_between (E.contents writers.old.errors) (E.contents writers.new.errors)) result }
{
    let mut names = Vec::new(shell.alloc);
    match append_texts(call, list, &mut names) {
        Ok(()) => run_names(shell, call, names.as_slice(), writers),
        Err(_) => {
            let told = tell_no_memory(&mut writers.errors);
            Progress::failed(&FileFault::OutOfMemory, told)
        }
    }
}

// Appends the names that a call is run over: those of its words, and those of its list if it has one.
fn append_texts<'n>(
    call: &'n Call<'n>,
    list: &'n [u8],
    names: &mut Vec<&'n [u8]>,
) -> Result<(), AllocError>
    ensures { OnOk result (map (λ name. name.now) names.new.items
        ≡ map (λ name. name.now) names.old.items
        ++ texts_of (file_names call.now) (option_map (λ _. list.now) call.now.list)) }
{
    if call.list.is_none() && call.files.is_empty() {
        names.push(b"-".as_slice())?;
        return Ok(());
    }
    append_files(call.files.as_slice(), names)?;
    if call.list.is_some() {
        return append_names(list, names);
    }
    Ok(())
}

// Appends the names of files.
fn append_files<'n>(files: &[&'n str], names: &mut Vec<&'n [u8]>) -> Result<(), AllocError>
    ensures { OnOk result (map (λ name. name.now) names.new.items
        ≡ map (λ name. name.now) names.old.items ++ map (λ file. file.now) files.now) }
{
    for file in files {
        names.push(file.as_bytes())?;
    }
    Ok(())
}

// Writes the report that a call asks for on each file of these names.
fn run_names<S, C, W, E>(
    shell: &Shell<'_, S, C>,
    call: &Call<'_>,
    names: &[&[u8]],
    writers: &mut Writers<W, E>,
) -> Progress
where
    S: Source,
    C: TimeSource + Copy,
    W: Write + Closes,
    E: Write,
    ensures { RunsOver (call_setting (S.holds shell.now.source) shell.now.template.now
        (C.readings shell.now.clock) call.now)
        (map (λ name. name.now) names.now)
        (stream_between (W.contents writers.old.output) (W.contents writers.new.output))
        (stream_between (E.contents writers.old.errors) (E.contents writers.new.errors)) result }
{
    let files = Files {
        options: call.options,
        strips: call.strips,
        names,
    };
    match call.report {
        ReportName::Blocks => run_text(&BLOCKS, shell, &files, writers),
        ReportName::Outline(Form::Text) => run_text(&ListedOutline, shell, &files, writers),
        ReportName::Outline(Form::Json) => run_json(&OUTLINE_JSON, shell, &files, writers),
        ReportName::Links(Form::Text) => run_text(&LINKS, shell, &files, writers),
        ReportName::Links(Form::Json) => run_json(&LINKS_JSON, shell, &files, writers),
        ReportName::Tree(lines, text) => run_tree(lines, text, shell, &files, writers),
        ReportName::Toc(Form::Text) => run_text(&CONTENTS, shell, &files, writers),
        ReportName::Toc(Form::Json) => run_array(&CONTENTS_JSON, shell, &files, writers),
        ReportName::View => run_files(&ShownTree(shell.template), false, shell, &files, writers),
        ReportName::Bench(runs) => run_bench(runs, shell, &files, writers),
    }
}

// Writes the lines of the tree of each file, with lines and columns if `lines` is true, and with the texts of ranges if
// `text` is.
fn run_tree<S: Source, C, W: Write + Closes, E: Write>(
    lines: bool,
    text: bool,
    shell: &Shell<'_, S, C>,
    files: &Files<'_>,
    writers: &mut Writers<W, E>,
) -> Progress
    ensures { RunsEach
        (setting (named_if (nat_lt 1 (length files.now.names.now)) (AreTreeLines (tree_lines lines text)))
        (S.holds shell.now.source) files.now.options false files.now.strips)
        (map (λ name. name.now) files.now.names.now) start
        (stream_between (W.contents writers.old.output) (W.contents writers.new.output))
        (stream_between (E.contents writers.old.errors) (E.contents writers.new.errors)) result }
{
    let report = TreeReport(BlockParser, JsonTreeWith { lines, text });
    run_json(&report, shell, files, writers)
}

// Writes the line of timed runs on each file, below its heading if there are several.
fn run_bench<S: Source, C: TimeSource + Copy, W: Write + Closes, E: Write>(
    runs: Option<u32>,
    shell: &Shell<'_, S, C>,
    files: &Files<'_>,
    writers: &mut Writers<W, E>,
) -> Progress
    ensures { RunsEach
        (setting (λ name. IsTimedLine runs (C.readings shell.now.clock)) (S.holds shell.now.source) files.now.options
        (nat_lt 1 (length files.now.names.now)) files.now.strips)
        (map (λ name. name.now) files.now.names.now) start
        (stream_between (W.contents writers.old.output) (W.contents writers.new.output))
        (stream_between (E.contents writers.old.errors) (E.contents writers.new.errors)) result }
{
    let clock = shell.clock;
    let report = TimedRuns { clock, runs };
    run_files(&report, 1 < files.names.len(), shell, files, writers)
}

// Writes a report on each file, below its heading if there are several.
fn run_text<P: Report, S: Source, C, W: Write + Closes, E: Write>(
    report: &P,
    shell: &Shell<'_, S, C>,
    files: &Files<'_>,
    writers: &mut Writers<W, E>,
) -> Progress
    ensures { RunsEach
        (setting (λ name. P.says report.now) (S.holds shell.now.source) files.now.options
        (nat_lt 1 (length files.now.names.now)) files.now.strips)
        (map (λ name. name.now) files.now.names.now) start
        (stream_between (W.contents writers.old.output) (W.contents writers.new.output))
        (stream_between (E.contents writers.old.errors) (E.contents writers.new.errors)) result }
{
    run_files(&Plain(report), 1 < files.names.len(), shell, files, writers)
}

// Writes a report in lines of JSON on each file, with the name in each line if there are several.
fn run_json<P: Report, S: Source, C, W: Write + Closes, E: Write>(
    report: &P,
    shell: &Shell<'_, S, C>,
    files: &Files<'_>,
    writers: &mut Writers<W, E>,
) -> Progress
    ensures { RunsEach
        (setting (named_if (nat_lt 1 (length files.now.names.now)) (P.says report.now)) (S.holds shell.now.source)
        files.now.options false files.now.strips)
        (map (λ name. name.now) files.now.names.now) start
        (stream_between (W.contents writers.old.output) (W.contents writers.new.output))
        (stream_between (E.contents writers.old.errors) (E.contents writers.new.errors)) result }
{
    match 1 < files.names.len() {
        true => run_files(&Named(report), false, shell, files, writers),
        false => run_files(&Plain(report), false, shell, files, writers),
    }
}

// Writes a report that is an array of JSON on each file, as a member of an object with the name if there are several.
fn run_array<P: Report, S: Source, C, W: Write + Closes, E: Write>(
    report: &P,
    shell: &Shell<'_, S, C>,
    files: &Files<'_>,
    writers: &mut Writers<W, E>,
) -> Progress
    ensures { RunsEach
        (setting (headings_if (nat_lt 1 (length files.now.names.now)) (P.says report.now)) (S.holds shell.now.source)
        files.now.options false files.now.strips)
        (map (λ name. name.now) files.now.names.now) start
        (stream_between (W.contents writers.old.output) (W.contents writers.new.output))
        (stream_between (E.contents writers.old.errors) (E.contents writers.new.errors)) result }
{
    match 1 < files.names.len() {
        true => run_files(&Headings(report), false, shell, files, writers),
        false => run_files(&Plain(report), false, shell, files, writers),
    }
}

// Writes a report on each file.
fn run_files<P: FileReport, S: Source, C, W: Write + Closes, E: Write>(
    report: &P,
    headed: bool,
    shell: &Shell<'_, S, C>,
    files: &Files<'_>,
    writers: &mut Writers<W, E>,
) -> Progress
    ensures { RunsEach
        (setting (P.says report.now) (S.holds shell.now.source) files.now.options headed files.now.strips)
        (map (λ name. name.now) files.now.names.now) start
        (stream_between (W.contents writers.old.output) (W.contents writers.new.output))
        (stream_between (E.contents writers.old.errors) (E.contents writers.new.errors)) result }
{
    let job = Job {
        alloc: shell.alloc,
        source: &shell.source,
        report,
        options: files.options,
        headed,
        strips: files.strips,
    };
    run_all(&job, files.names, writers)
}
