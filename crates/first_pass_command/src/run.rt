//! A report on each of several files.

ghost use Rattle.first_pass_command.specs.Faults.{Tells, Warns, file_status};
ghost use Rattle.first_pass_command.specs.Files.{IsReadFault, LeavesBoth, RunsEach, RunsFile, Steps, StepsName, WritesBoth, has_mark, heading, setting, start, text_in};
ghost use Rattle.first_pass_host.specs.Streams.{WritesText, stream_between};
ghost use Rattle.std.specs.Prelude.{◌≡◌, ◌++◌, false, true, map, OnErr, OnOk};

use crate::fault::{FileFault, append_shown, tell_name, warn_of_mark};
use crate::reports::FileReport;
use crate::source::Source;
use crate::writers::{Closes, Writers};
use first_pass_host::fault::RunFault;
use first_pass_host::output::write_whole;
use first_pass_host::report::Subject;
use first_pass_items::option_set::Options;
use first_pass_places::line_column::line_column_at;
use std::alloc::{AllocError, Global};
use std::io::{ErrorKind, Write};
use std::{io, str};

/// What is done with each file: where its text is read from, the report, the options, and whether it has a heading.
#[derive(Drop)]
pub struct Job<'a, S, P> {
    pub alloc: Global,
    pub source: &'a S,
    pub report: &'a P,
    pub options: Options,
    pub headed: bool,
    /// Whether a byte order mark at the start of a text is left out.
    pub strips: bool,
}

/// How far a run over files has come.
#[derive(Clone, Copy)]
pub struct Progress {
    /// Whether a report was written.
    pub begun: bool,
    /// The highest status of a file.
    pub worst: u8,
    /// Whether no line of a fault was cut off.
    pub told: bool,
    /// Whether the run ends before the last file.
    pub ended: bool,
}

impl Progress {
    /// A run that ends by a fault before the first file.
    pub(crate) fn failed(fault: &FileFault, told: bool) -> Progress
        ensures { result ≡ record { begun = false; worst = file_status fault.now; told = told; ended = true } }
    {
        Progress {
            begun: false,
            worst: fault.status(),
            told,
            ended: true,
        }
    }
}

/// Writes the report on each file, or the line of its fault. After a failed write of the output no file is read.
pub(crate) fn run_all<S: Source, P: FileReport, W: Write + Closes, E: Write>(
    job: &Job<'_, S, P>,
    names: &[&[u8]],
    writers: &mut Writers<W, E>,
) -> Progress
    ensures { RunsEach
        (setting (P.says job.now.report.now) (S.holds job.now.source.now) job.now.options job.now.headed job.now.strips)
        (map (λ name. name.now) names.now) start
        (stream_between (W.contents writers.old.output) (W.contents writers.new.output))
        (stream_between (E.contents writers.old.errors) (E.contents writers.new.errors)) result }
{
    let mut bytes = Vec::new(job.alloc);
    let mut rest = names;
    let mut progress = Progress {
        begun: false,
        worst: 0,
        told: true,
        ended: false,
    };
    while let [name, more @ ..] = rest {
        rest = more;
        progress = run_one(job, name, &mut bytes, progress, writers);
        if progress.ended {
            break;
        }
    }
    progress
}

// Writes the report on the file of a name, or the line of a fault.
fn run_one<S: Source, P: FileReport, W: Write + Closes, E: Write>(
    job: &Job<'_, S, P>,
    name: &[u8],
    bytes: &mut Vec<u8>,
    before: Progress,
    writers: &mut Writers<W, E>,
) -> Progress
    ensures { StepsName
        (setting (P.says job.now.report.now) (S.holds job.now.source.now) job.now.options job.now.headed job.now.strips)
        name.now before (stream_between (W.contents writers.old.output) (W.contents writers.new.output))
        (stream_between (E.contents writers.old.errors) (E.contents writers.new.errors)) result }
{
    match str::from_utf8(name) {
        Ok(name) => run_named(job, name, bytes, before, writers),
        Err(_) => {
            let told = tell_name(job.alloc, name, &mut writers.errors);
            Progress {
                worst: before.worst.max(2),
                told: before.told & told,
                ..before
            }
        }
    }
}

// Writes the report on a file, or the line of its fault.
fn run_named<S: Source, P: FileReport, W: Write + Closes, E: Write>(
    job: &Job<'_, S, P>,
    name: &str,
    bytes: &mut Vec<u8>,
    before: Progress,
    writers: &mut Writers<W, E>,
) -> Progress
    ensures { Steps
        (setting (P.says job.now.report.now) (S.holds job.now.source.now) job.now.options job.now.headed job.now.strips)
        name.now before (stream_between (W.contents writers.old.output) (W.contents writers.new.output))
        (stream_between (E.contents writers.old.errors) (E.contents writers.new.errors)) result }
{
    match run_file(job, name, bytes, before.begun, &mut writers.output) {
        Ok(marked) => {
            let told = warn(job.alloc, name, marked, &mut writers.errors);
            Progress {
                begun: true,
                told: before.told & told,
                ..before
            }
        }
        Err(fault) => {
            let closed = writers.output.is_closed();
            let told = tell(job.alloc, name, &fault, closed, &mut writers.errors);
            Progress {
                begun: before.begun,
                worst: before.worst.max(fault.status()),
                told: before.told & told,
                ended: fault.ends_run(),
            }
        }
    }
}

// Writes the line that a text begins with a byte order mark, if it does. Returns whether nothing of it is missing.
fn warn<E: Write>(alloc: Global, name: &str, marked: bool, errors: &mut E) -> bool
    ensures { Warns name.now marked result (stream_between (E.contents errors.old) (E.contents errors.new)) }
{
    match marked {
        true => warn_of_mark(alloc, name, errors),
        false => true,
    }
}

// Writes the line of a fault, but not of a failed write if nobody reads the output: it is closed then. Returns whether
// nothing of the line is missing for another reason.
fn tell<E: Write>(
    alloc: Global,
    name: &str,
    fault: &FileFault,
    closed: bool,
    errors: &mut E,
) -> bool
    ensures { Tells name.now fault.now result (stream_between (E.contents errors.old) (E.contents errors.new)) }
{
    if closed && fault.ends_run() {
        return true;
    }
    fault.tell(alloc, name, errors)
}

// Writes the report on a file. Returns whether its text begins with a byte order mark.
fn run_file<S: Source, P: FileReport, W: Write>(
    job: &Job<'_, S, P>,
    name: &str,
    bytes: &mut Vec<u8>,
    begun: bool,
    output: &mut W,
) -> Result<bool, FileFault>
    ensures { RunsFile
        (setting (P.says job.now.report.now) (S.holds job.now.source.now) job.now.options job.now.headed job.now.strips)
        begun name.now (stream_between (W.contents output.old) (W.contents output.new)) result }
{
    if let Err(error) = job.source.read_bytes(name, bytes) {
        return Err(unread(error));
    }
    let held = text_in(job.strips, bytes.as_slice());
    match str::from_utf8(held) {
        Ok(text) => {
            run_text(job, name, text, begun, output)?;
            Ok(has_mark(held))
        }
        Err(error) => {
            let offset = error.valid_up_to();
            let place = line_column_at(held, offset);
            Err(FileFault::NotUtf8(offset, place))
        }
    }
}

// The text of the bytes of a file, without a byte order mark at its start if that is left out.
fn text_in(strips: bool, bytes: &[u8]) -> &[u8]
    ensures { result.now ≡ text_in strips bytes.now }
{
    if strips && has_mark(bytes) {
        return bytes.get(3..).unwrap_or(bytes);
    }
    bytes
}

// Whether bytes begin with a byte order mark.
fn has_mark(bytes: &[u8]) -> bool
    ensures { result ≡ has_mark bytes.now }
{
    bytes.starts_with(b"\xEF\xBB\xBF")
}

/// The fault of a failed read.
pub(crate) fn unread(error: io::Error) -> FileFault
    ensures { IsReadFault result }
{
    if error.kind() == ErrorKind::OutOfMemory {
        return FileFault::OutOfMemory;
    }
    FileFault::Unread(error)
}

// Writes the report on a text, below its heading if files have headings.
fn run_text<S: Source, P: FileReport, W: Write>(
    job: &Job<'_, S, P>,
    name: &str,
    text: &str,
    begun: bool,
    output: &mut W,
) -> Result<(), RunFault>
    ensures ok { OnOk result (WritesBoth (P.says job.now.report.now name.now) job.now.options
        (heading job.now.headed begun name.now) text.now
        (stream_between (W.contents output.old) (W.contents output.new))) }
    ensures front { OnErr result (LeavesBoth (P.says job.now.report.now name.now) job.now.options
        (heading job.now.headed begun name.now) text.now
        (stream_between (W.contents output.old) (W.contents output.new))) }
{
    write_heading(job.alloc, job.headed, name, begun, output)?;
    let subject = Subject {
        alloc: job.alloc,
        text,
        options: job.options,
    };
    job.report.write_named(name, subject, output)
}

// Writes the heading of a file, if files have headings.
fn write_heading<W: Write>(
    alloc: Global,
    headed: bool,
    name: &str,
    begun: bool,
    output: &mut W,
) -> Result<(), RunFault>
    ensures { WritesText (heading headed begun name.now)
        (stream_between (W.contents output.old) (W.contents output.new)) result }
{
    let mut head = Vec::new(alloc);
    if headed {
        append_heading(&mut head, name, begun)?;
    }
    write_whole(output, head.as_slice())
}

// Appends the heading of a file.
fn append_heading(head: &mut Vec<u8>, name: &str, begun: bool) -> Result<(), AllocError>
    ensures { OnOk result (head.new.items ≡ head.old.items ++ heading true begun name.now) }
{
    if begun {
        head.push(b'\n')?;
    }
    head.extend_from_slice(b"==> ")?;
    append_shown(head, name)?;
    head.extend_from_slice(b" <==\n")?;
    Ok(())
}
