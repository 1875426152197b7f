//! The work of the program `bench`.

ghost use Rattle.first_pass_host.specs.Streams.{stream_between};
ghost use Rattle.first_pass_program.specs.Bench.{IsReported, FaultLeaves, LeavesText, WritesReport};
ghost use Rattle.std.specs.Io.KnownBytes.{Appends};
ghost use Rattle.std.specs.Prelude.{ℕ, List, OnOk, IfErr};

use crate::timed::time_runs;
use first_pass_host::clock::TimeSource;
use first_pass_host::fault::RunFault;
use first_pass_host::input::read_whole;
use first_pass_host::output::write_whole;
use first_pass_host::task::{Task, parse_task};
use first_pass_host::timing_line::append_report;
use std::alloc::Global;
use std::io::{Read, Write};
use std::str;

/// Reads the input to its end and runs the pass on it, timed by the clock, as `words` request (see `parse_task`).
/// Writes the line of the shortest time (see `append_report`).
///
/// Faults are found in this order: the options, before the first read and without an allocation; the reads; UTF-8 of
/// the whole input; the pass and the clock, with `ReadFailed` if it can't be read; the writes. `OutOfMemory` is found
/// at the allocation that fails.
pub fn bench_run<T: TimeSource, R: Read, W: Write>(
    clock: &mut T,
    alloc: Global,
    words: &[String],
    input: &mut R,
    output: &mut W,
) -> Result<(), RunFault>
    ensures ok { OnOk result (WritesReport words.now (stream_between (R.remaining input.old) (R.remaining input.new))
        (stream_between (T.readings clock.old) (T.readings clock.new))
        (stream_between (W.contents output.old) (W.contents output.new))) }
    ensures fault { IfErr result (λ fault. FaultLeaves fault words.now
        (stream_between (R.remaining input.old) (R.remaining input.new))
        (stream_between (T.readings clock.old) (T.readings clock.new))
        (stream_between (W.contents output.old) (W.contents output.new))) }
{
    let task = match parse_task(words) {
        Some(task) => task,
        None => return Err(RunFault::BadOptions),
    };
    let bytes = read_whole(alloc, input)?;
    report_text(clock, alloc, bytes.as_slice(), task, output)
}

// Writes the line for a text, after checking that the text is UTF-8.
fn report_text<T: TimeSource, W: Write>(
    clock: &mut T,
    alloc: Global,
    bytes: &[u8],
    task: Task,
    output: &mut W,
) -> Result<(), RunFault>
    ensures ok { OnOk result ((line : List ℕ)
        × IsReported task bytes.now (T.readings clock.old) (T.readings clock.new) line
        × Appends (W.contents output.old) (W.contents output.new) line) }
    ensures fault { IfErr result (λ fault. LeavesText fault task bytes.now
        (stream_between (T.readings clock.old) (T.readings clock.new))
        (stream_between (W.contents output.old) (W.contents output.new))) }
{
    let text = match str::from_utf8(bytes) {
        Ok(text) => text,
        Err(_) => return Err(RunFault::NotUtf8),
    };
    let timing = time_runs(clock, alloc, text, task.options, task.runs)?;
    let mut line = Vec::new(alloc);
    append_report(&mut line, text.len(), timing)?;
    write_whole(output, line.as_slice())
}
