//! The two parts of the table, and the cases in order.

use crate::case::{append_difference, printed, read_case};
use first_pass_cases::fault::CasesFault;
use first_pass_cases::table::compare_groups;
use first_pass_cases::tally::{Tally, append_place};
use std::alloc::Global;

/// The two parts of a table.
#[derive(Clone, Copy)]
pub struct Parts<'t> {
    /// The cases, before the line `fronts`.
    pub cases: &'t str,
    /// The texts after that line.
    pub texts: &'t str,
    /// The number of their first line in the table.
    pub line: usize,
}

/// Divides a table at its line `fronts`. Without this line there are only cases.
pub fn parts_of(table: &str) -> Parts<'_> {
    match table.split_once("\nfronts\n\n") {
        Some((cases, texts)) => Parts {
            cases,
            texts,
            // Between the two are an empty line, the line `fronts` and another empty line.
            line: cases.lines().count().saturating_add(4),
        },
        None => Parts {
            cases: table,
            texts: "",
            line: 1,
        },
    }
}

/// Runs each case. Appends to the report each case that differs.
pub fn compare_cases(alloc: Global, cases: &str, report: &mut String) -> Result<Tally, CasesFault> {
    compare_groups(
        cases,
        report,
        |group, line, report| compare_case(alloc, group, line, report),
    )
}

// Runs the case whose first line has this number, and returns whether it differs.
fn compare_case(
    alloc: Global,
    group: &str,
    line: usize,
    report: &mut String,
) -> Result<bool, CasesFault> {
    let case = match read_case(alloc, group)? {
        Ok(case) => case,
        Err(what) => return Err(CasesFault::Malformed(line, what)),
    };
    let came = match printed(alloc, &case)? {
        Some(came) => came,
        None => return Err(CasesFault::Malformed(line, "these are no options")),
    };
    let differs = came.as_str() != case.tree.as_str();
    if differs {
        append_place(report, line)?;
        append_difference(report, group, came.as_str())?;
    }
    Ok(differs)
}
