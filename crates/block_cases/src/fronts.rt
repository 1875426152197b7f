//! The fronts (prefixes) of each text.

use crate::sums::Sums;
use crate::table::Parts;
use bitflags::Flags;
use first_pass_blocks::pass::run_first_pass;
use first_pass_cases::breach::Breach;
use first_pass_cases::fault::CasesFault;
use first_pass_cases::ranges::find_breach;
use first_pass_cases::texts::{is_heading, read_text};
use first_pass_items::option_set::Options;
use std::alloc::{AllocError, Global};

/// Checks the fronts of each text of the table. Appends to the report each front whose tree is not in order.
pub fn check(
    alloc: Global,
    parts: Parts<'_>,
    sums: &mut Sums,
    report: &mut String,
) -> Result<(), CasesFault> {
    let mut line = parts.line;
    for group in parts.texts.trim_end_matches('\n').split("\n\n") {
        if !is_heading(group) {
            let Some(text) = read_text(alloc, group)? else {
                return Err(CasesFault::Malformed(line, "a line without its bar"));
            };
            sums.count_text();
            check_fronts(alloc, text.as_str(), sums, report)?;
        }
        line = line.saturating_add(group.lines().count()).saturating_add(1);
    }
    Ok(())
}

// Checks each front of a text that ends at a character boundary, and appends each whose tree is not in order to the
// report.
fn check_fronts(
    alloc: Global,
    text: &str,
    sums: &mut Sums,
    report: &mut String,
) -> Result<(), AllocError> {
    for length in 0..=text.len() {
        if let Some(front) = text.get(..length) {
            let breach = breach_of(alloc, front)?;
            sums.count_front(breach.is_some());
            if let Some(breach) = breach {
                append_breach(report, sums.texts, length, breach)?;
            }
        }
    }
    Ok(())
}

// What is wrong with the tree of a text under all options.
fn breach_of(alloc: Global, text: &str) -> Result<Option<Breach>, AllocError> {
    let (tree, _allocs) = run_first_pass(alloc, text, Options::all())?;
    find_breach(alloc, text, tree.nodes())
}

// Appends what is wrong with the tree of a front; `text` is the number of the text and `length` that of the front's
// bytes.
fn append_breach(
    report: &mut String,
    text: usize,
    length: usize,
    breach: Breach,
) -> Result<(), AllocError> {
    let (place, flaw) = (breach.place, breach.flaw.message());
    write!(
        report,
        "text {text}, its first {length} bytes, node {place}: {flaw}\n"
    )
}
