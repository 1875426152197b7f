//! The number of cases in a table, and how many of them differ.

ghost use Rattle.first_pass_cases.specs.Tallies.{status_of, tally_line};
ghost use Rattle.std.specs.Prelude.{◌≡◌, ◌==◌, IfOk, if◌then◌else◌, string_bytes};
ghost use Rattle.std.specs.Process.{exit_status};

use crate::fault::CasesFault;
use std::alloc::{AllocError, Global};
use std::process::ExitCode;

/// The number of cases, and how many of them differed.
#[derive(Clone, Copy, Debug, PartialEq, Eq)]
pub struct Tally {
    pub cases: usize,
    pub differ: usize,
}

impl Tally {
    pub fn new() -> Tally {
        Tally {
            cases: 0,
            differ: 0,
        }
    }

    /// Counts one more case.
    pub fn count(&mut self, differs: bool) {
        self.cases = self.cases.saturating_add(1);
        self.differ = self.differ.saturating_add(usize::from(differs));
    }

    /// Returns the line that ends a report.
    pub fn line(self, alloc: Global) -> Result<String, AllocError>
        ensures { IfOk result (λ line. string_bytes line ≡ tally_line self) }
    {
        let (cases, differ) = (self.cases, self.differ);
        format!(in alloc; "{cases} cases, {differ} differ\n")
    }

    /// Returns the exit status of a program: 0 if no case differs, otherwise 1.
    pub fn status(self) -> u8
        ensures { result ≡ (if self.differ == 0 then 0 else 1) }
    {
        u8::from(self.differ != 0)
    }
}

/// Appends the place of a case that differs.
pub fn append_place(report: &mut String, line: usize) -> Result<(), AllocError> {
    write!(report, "line {line} differs:\n")
}

/// Ends a run: writes a fault to standard error and returns status 2, or returns the status of the tally.
pub fn end_with(rt: &HostRuntime, answer: Result<Tally, CasesFault>) -> ExitCode
    ensures { exit_status result ≡ status_of answer }
{
    match answer {
        Ok(tally) => ExitCode::from(tally.status()),
        Err(fault) => {
            match fault.message(rt.alloc()) {
                Ok(message) => {
                    let _ = eprintln!(rt; "{message}");
                }
                Err(_) => {
                    let _ = eprintln!(rt; "out of memory");
                }
            }
            ExitCode::from(2)
        }
    }
}
