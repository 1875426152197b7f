//! Reading a text, and writing a report on it.

ghost use Rattle.first_pass_host.specs.Runs.{WritesOutput, LeavesReport, LeavesBytes, Runs};
ghost use Rattle.first_pass_host.specs.Streams.{stream_between};
ghost use Rattle.first_pass_items.specs.declared.option_set.Options.{Options as OptionSet};
ghost use Rattle.std.specs.Prelude.{ℕ, List, OnOk, IfErr, IsUtf8};

use crate::fault::RunFault;
use crate::input::read_whole;
use crate::option_word::parse_options;
use first_pass_items::option_set::Options;
use std::alloc::Global;
use std::io::{Read, Write};
use std::str;

/// A text for a report, with the options to parse it under and the allocator.
#[derive(Clone, Copy)]
pub struct Subject<'t> {
    pub alloc: Global,
    pub text: &'t str,
    pub options: Options,
}

/// A report on a text: the output of a program.
pub trait Report {
    // The relation between options, a text and the whole output for it.
    ghost says: { Self → OptionSet → List ℕ → List ℕ → Type 0 };

    /// Writes the whole output for a text under its options. Returns `OutOfMemory` if an allocation fails, and
    /// `WriteFailed` if a write fails; nothing or a beginning of the output was written then.
    fn write_report<W: Write>(&self, subject: Subject<'_>, output: &mut W) -> Result<(), RunFault>
        ensures ok { OnOk result (WritesOutput (says self.now) subject.entry.options subject.entry.text.now
            (stream_between (W.contents output.old) (W.contents output.new))) }
        ensures fault { IfErr result (λ fault.
            LeavesReport (says self.now) fault subject.entry.options subject.entry.text.now
            (stream_between (W.contents output.old) (W.contents output.new))) };
}

/// Reads the input to its end, and writes a report on its text under the options that `words` denote. `words` are
/// those after the program's name (see `parse_options`).
///
/// Faults are found in this order: the options, before the first read and without an allocation; the reads; UTF-8 of
/// the whole input; the report. `OutOfMemory` is returned at the allocation that fails. After a fault, nothing or a
/// beginning of the output was written. Reader and writer are borrowed, so that the contract can describe them at the
/// end.
pub fn run_report<P: Report, R: Read, W: Write>(
    report: &P,
    alloc: Global,
    words: &[String],
    input: &mut R,
    output: &mut W,
) -> Result<(), RunFault>
    ensures { Runs (P.says report.now) words.now (stream_between (R.remaining input.old) (R.remaining input.new))
        (stream_between (W.contents output.old) (W.contents output.new)) result }
{
    let Some(options) = parse_options(words) else {
        return Err(RunFault::BadOptions);
    };
    let bytes = read_whole(alloc, input)?;
    report_bytes(report, alloc, bytes.as_slice(), options, output)
}

// Writes a report on bytes that may not be UTF-8.
fn report_bytes<P: Report, W: Write>(
    report: &P,
    alloc: Global,
    bytes: &[u8],
    options: Options,
    output: &mut W,
) -> Result<(), RunFault>
    ensures utf8 { OnOk result (IsUtf8 bytes.now) }
    ensures ok { OnOk result (WritesOutput (P.says report.now) options bytes.now
        (stream_between (W.contents output.old) (W.contents output.new))) }
    ensures fault { IfErr result (λ fault. LeavesBytes (P.says report.now) fault options bytes.now
        (stream_between (W.contents output.old) (W.contents output.new))) }
{
    match str::from_utf8(bytes) {
        Ok(text) => {
            let subject = Subject {
                alloc,
                text,
                options,
            };
            report.write_report(subject, output)
        }
        Err(_) => Err(RunFault::NotUtf8),
    }
}
