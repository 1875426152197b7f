//! The table that a program reads, and the report that it writes.

ghost use Rattle.first_pass_cases.specs.Tallies.{ReportsCases, tally_line};
ghost use Rattle.first_pass_host.specs.Streams.{WritesText, stream_between};
ghost use Rattle.std.specs.Fn.{FnOnceReturnsAtMut};
ghost use Rattle.std.specs.Prelude.{◌++◌};

use crate::fault::CasesFault;
use crate::tally::Tally;
use crate::texts::is_heading;
use first_pass_host::fault::RunFault;
use first_pass_host::input::read_whole;
use first_pass_host::output::write_whole;
use std::alloc::Global;
use std::io::Write;
use std::str;

/// Reads the whole table from standard input.
pub fn read_table(rt: &HostRuntime) -> Result<String, CasesFault> {
    let bytes = read_whole(rt.alloc(), &mut rt.stdin())?;
    match str::from_utf8(bytes.as_slice()) {
        Ok(text) => Ok(String::from_str(rt.alloc(), text)?),
        Err(_) => Err(CasesFault::Run(RunFault::NotUtf8)),
    }
}

/// Compares the cases of a table, and then writes the report and the line of the tally. `compare` gets an empty report
/// and appends to it. If it ends with a fault, nothing is written. Returns the tally, or the fault that ends the
/// comparison or the writes: the result for `end_with`.
pub fn compare_and_report<F, E, W>(alloc: Global, output: &mut W, compare: F) -> Result<Tally, E>
where
    F: FnOnce(&mut String) -> Result<Tally, E>,
    E: From<RunFault> + Drop,
    W: Write,
    requires { F.IsAlwaysCallable compare }
    ensures { ReportsCases (FnOnceReturnsAtMut F.FnOnce compare) E.from_gives
        (stream_between (W.contents output.old) (W.contents output.new)) result }
{
    let mut report = String::new(alloc);
    let tally = compare(&mut report)?;
    write_report(alloc, report.as_str(), tally, output)?;
    Ok(tally)
}

// Writes a report and the line of its tally. Returns `WriteFailed` if a write fails, and `OutOfMemory` if an allocation
// fails. After a fault, a beginning of the two may have been written.
fn write_report<W: Write>(
    alloc: Global,
    report: &str,
    tally: Tally,
    output: &mut W,
) -> Result<(), RunFault>
    ensures { WritesText (report.now ++ tally_line tally)
        (stream_between (W.contents output.old) (W.contents output.new)) result }
{
    write_whole(output, report.as_bytes())?;
    let line = tally.line(alloc)?;
    write_whole(output, line.as_bytes())
}

/// Compares the groups of lines of a table, except headings. `compare` gets a group and the number of its first line.
/// If the result of the group differs, it appends the group to the report. It returns whether it differs.
pub fn compare_groups<F, E>(table: &str, report: &mut String, compare: F) -> Result<Tally, E>
where
    F: Fn(&str, usize, &mut String) -> Result<bool, E> + Drop,
    requires { F.IsAlwaysCallable compare }
{
    let mut tally = Tally::new();
    let mut line: usize = 1;
    for group in table.trim_end_matches('\n').split("\n\n") {
        if !is_heading(group) {
            let differs = compare(group, line, report)?;
            tally.count(differs);
        }
        line = line.saturating_add(group.lines().count()).saturating_add(1);
    }
    Ok(tally)
}
