//! The table and its lines, in order.

use crate::atoms::answer_atoms;
use crate::attributes::answer_attributes;
use crate::call::Call;
use crate::containers::answer_containers;
use crate::contents::answer_contents;
use crate::definitions::answer_definitions;
use crate::html::answer_html;
use crate::leaves::{answer_leaves, answer_metadata};
use crate::lines::{answer_bytes, answer_lines};
use crate::links::answer_links;
use crate::markers::answer_markers;
use crate::programs::answer_programs;
use crate::rows::answer_rows;
use crate::targets::answer_targets;
use crate::texts::answer_texts;
use crate::tokens::answer_tokens;
use crate::walks::{answer_flanks, answer_walks};
use first_pass_cases::answer::Answer;
use first_pass_cases::fault::CasesFault;
use first_pass_cases::given::{Given, read_given};
use first_pass_cases::pictures::read_shown;
use first_pass_cases::table::read_table;
use first_pass_cases::tally::{Tally, append_place};
use std::alloc::{AllocError, Global};

// A line of the table: a call with its arguments, its text, and the expected result.
#[derive(Drop)]
struct Case<'t> {
    call: &'t str,
    given: Given,
    shown: &'t str,
    want: &'t str,
}

/// Reads the table from standard input and makes the call of each line. Appends to the report each line whose result
/// differs.
pub fn compare(rt: &HostRuntime, report: &mut String) -> Result<Tally, CasesFault> {
    let table = read_table(rt)?;
    let mut tally = Tally::new();
    let mut number: usize = 0;
    for line in table.lines() {
        number = number.saturating_add(1);
        if !line.is_empty() && !line.starts_with('#') {
            let differs = compare_line(rt.alloc(), line, number, report)?;
            tally.count(differs);
        }
    }
    Ok(tally)
}

// Makes the call of the line with this number, and returns whether its result differs.
fn compare_line(
    alloc: Global,
    line: &str,
    number: usize,
    report: &mut String,
) -> Result<bool, CasesFault> {
    let Some(case) = read_case(line) else {
        return Err(CasesFault::Malformed(number, "no text between ‹ and ›"));
    };
    let mut answer = Answer::new(alloc);
    if !ask(alloc, &case, &mut answer)? {
        return Err(CasesFault::Malformed(number, "no such call"));
    }
    let differs = answer.as_str() != case.want;
    if differs {
        append_place(report, number)?;
        append_difference(report, line, answer.as_str())?;
    }
    Ok(differs)
}

// Reads a line.
fn read_case(line: &str) -> Option<Case<'_>> {
    let (front, following) = line.split_once(" ‹")?;
    let (shown, want) = following.split_once("› ")?;
    let (call, words) = front.split_once(' ').unwrap_or((front, ""));
    Some(Case {
        call,
        given: read_given(words),
        shown,
        want,
    })
}

// Appends a line that differs and its actual result.
fn append_difference(report: &mut String, line: &str, came: &str) -> Result<(), AllocError> {
    report.push_str(line)?;
    report.push_str("\nbut this came: ")?;
    report.push_str(came)?;
    report.push('\n')
}

// Makes the call of a case and appends its result. Returns `false` if no call has this name.
fn ask(alloc: Global, case: &Case<'_>, answer: &mut Answer) -> Result<bool, AllocError> {
    let read = read_shown(alloc, case.shown)?;
    let call = Call {
        alloc,
        name: case.call,
        given: &case.given,
        text: read.as_str(),
    };
    answer_call(&call, answer)
}

// Makes a call and appends its result. Returns `false` if no call has this name.
fn answer_call(call: &Call<'_>, answer: &mut Answer) -> Result<bool, AllocError> {
    Ok(
        answer_lines(call, answer)?
            || answer_bytes(call, answer)?
            || answer_leaves(call, answer)?
            || answer_metadata(call, answer)?
            || answer_markers(call, answer)?
            || answer_rows(call, answer)?
            || answer_texts(call, answer)?
            || answer_tokens(call, answer)?
            || answer_programs(call, answer)?
            || answer_html(call, answer)?
            || answer_links(call, answer)?
            || answer_targets(call, answer)?
            || answer_attributes(call, answer)?
            || answer_containers(call, answer)?
            || answer_definitions(call, answer)?
            || answer_walks(call, answer)?
            || answer_flanks(call, answer)?
            || answer_atoms(call, answer)?
            || answer_contents(call, answer)?,
    )
}
