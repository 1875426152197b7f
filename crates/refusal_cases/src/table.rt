//! The table and its groups of lines, in order.

use crate::case::{Case, read_case};
use crate::outcome::{Outcome, classified_outcome, is_one_refused};
use crate::programs::call_program;
use crate::tables::call_tables;
use crate::trees::call_tree;
use first_pass_cases::fault::CasesFault;
use first_pass_cases::table::{compare_groups, read_table};
use first_pass_cases::tally::{Tally, append_place};
use first_pass_host::words::words_of;

/// Reads the table from standard input and makes the call of each case. Appends to the report the outcome that a case
/// requests, and each case that differs.
pub fn compare(rt: &HostRuntime, report: &mut String) -> Result<Tally, CasesFault> {
    // Only compiled code (`rt try`) runs a program that reads its words, and compiled code is what counts here.
    words_of(rt)?;
    let table = read_table(rt)?;
    compare_groups(
        table.as_str(),
        report,
        |group, line, report| compare_case(rt, group, line, report),
    )
}

// Makes the call of the case whose first line has this number, and returns whether it differs.
fn compare_case(
    rt: &HostRuntime,
    group: &str,
    line: usize,
    report: &mut String,
) -> Result<bool, CasesFault> {
    let case = read_case(rt.alloc(), group)?;
    let Some(outcome) = outcome_of(rt, &case) else {
        return Err(CasesFault::Malformed(line, "no such call"));
    };
    if case.after.is_some() {
        write!(report, "{}: {}\n", case.call, outcome.word())?;
        return Ok(false);
    }
    if outcome != Outcome::Usual {
        append_place(report, line)?;
        write!(report, "{group}\n\n")?;
    }
    Ok(outcome != Outcome::Usual)
}

// The outcome of a case's call, or `None` if there is no such call.
fn outcome_of(rt: &HostRuntime, case: &Case<'_>) -> Option<Outcome> {
    let Some(count) = case.after else {
        return call(rt, case);
    };
    if is_one_refused(rt.alloc(), count) {
        return Some(Outcome::Elsewhere);
    }
    let returned = call(rt, case)?;
    Some(classified_outcome(rt.alloc(), returned))
}

// Makes the call of a case.
fn call(rt: &HostRuntime, case: &Case<'_>) -> Option<Outcome> {
    if let Some(outcome) = call_program(rt, case) {
        return Some(outcome);
    }
    let answer = match call_tree(rt.alloc(), case.call) {
        Some(answer) => answer,
        None => call_tables(rt.alloc(), case.call)?,
    };
    Some(answer.unwrap_or(Outcome::Elsewhere))
}
