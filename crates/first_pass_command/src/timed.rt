//! The report on timed runs of the pass.

ghost use Rattle.first_pass_command.specs.Timed.{IsTimedLine};
ghost use Rattle.first_pass_host.specs.Streams.{IsReadFault};
ghost use Rattle.std.specs.Prelude.{IfErr, IfOk};

use crate::reports::FileReport;
use first_pass_host::clock::TimeSource;
use first_pass_host::fault::RunFault;
use first_pass_host::output::write_whole;
use first_pass_host::report::Subject;
use first_pass_host::timing_line::append_report;
use first_pass_items::option_set::Options;
use first_pass_program::timed::time_runs;
use std::alloc::Global;
use std::io::Write;

/// The line of the shortest of some runs of the pass on a text: as many as are asked for, otherwise for a second and
/// five at least.
#[derive(Clone, Copy)]
pub struct TimedRuns<C> {
    pub clock: C,
    pub runs: Option<u32>,
}

impl<C: TimeSource + Copy> FileReport for TimedRuns<C> {
    ghost says = { λ report name. IsTimedLine report.runs (C.readings report.clock) };

    fn write_named<W: Write>(
        &self,
        _name: &str,
        subject: Subject<'_>,
        output: &mut W,
    ) -> Result<(), RunFault> {
        let line = timed_line(*self, subject.alloc, subject.text, subject.options)?;
        write_whole(output, line.as_slice())
    }
}

// The line of runs on a text.
fn timed_line<C: TimeSource + Copy>(
    report: TimedRuns<C>,
    alloc: Global,
    text: &str,
    options: Options,
) -> Result<Vec<u8>, RunFault>
    ensures line { IfOk result (λ line.
        IsTimedLine report.runs (C.readings report.clock) options text.now line.items) }
    ensures fault { IfErr result IsReadFault }
{
    let mut clock = report.clock;
    let timing = time_runs(&mut clock, alloc, text, options, report.runs)?;
    let mut line = Vec::new(alloc);
    append_report(&mut line, text.len(), timing)?;
    Ok(line)
}
