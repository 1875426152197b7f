//! The `main` of a program over a text.

use crate::exit::exit_code;
use crate::fault::RunFault;
use crate::report::{Report, run_report};
use crate::words::words_of;
use std::process::ExitCode;

/// Runs a report with the words after the program's name, over standard input and standard output. Returns the exit
/// status (see `exit_code`). This is all that `main` does in a program that writes a report.
pub fn run_program<P: Report>(rt: &HostRuntime, report: &P) -> ExitCode {
    exit_code(rt, run_on_host(rt, report))
}

// Runs a report with the words after the program's name, over standard input and standard output.
fn run_on_host<P: Report>(rt: &HostRuntime, report: &P) -> Result<(), RunFault> {
    let words = words_of(rt)?;
    let mut input = rt.stdin();
    let mut output = rt.stdout();
    run_report(
        report,
        rt.alloc(),
        words.as_slice(),
        &mut input,
        &mut output,
    )
}
