//! `block_cases [soak [SECONDS [SEED]]]`: reads a table of texts and of the trees printed for them, and prints the
//! cases that differ. Below them are texts of which each front (prefix) is read: the ranges of its tree must be in
//! order. After the word `soak` random texts are read, too.
//!
//! A case is a group of lines, and an empty line ends it:
//!
//! ```text
//! options 16
//! |- [ ] a
//! |
//! |  b␉c
//! Root 0..13
//!   ..
//! ```
//!
//! - The first line has the word for `blocks`, the decimal value of the option bits. Without a word there is no such
//!   line.
//! - The text follows, each line after a bar. If the text ends with a line ending, its last line is only a bar. A
//!   single `|` is the empty text.
//! - The tree follows as `blocks` prints it.
//! - In text and tree a control character is written as its picture (see `first_pass_cases::pictures`), and so is a
//!   space at the end of a line.
//!
//! Groups of lines that begin with a number sign are headings: `#` is the subject of the cases below it, `##` is what
//! the next ones show.
//!
//! The line `fronts`, which is a group of its own, ends the cases. After it a group is a text alone, or headings. Each
//! front of the text that ends at a character boundary, including the empty one and the whole text, is read under all
//! options together. `first_pass_cases` checks the order of its ranges, without the pass. Trees that are made wrong
//! test that it finds what is not in order.
//!
//! Prints each case that differs, with the expected and the actual tree, each front whose tree is not in order, and
//! each wrong tree that is not reported for its own fault. A line counts the fronts and the wrong trees, and the next
//! one is `N cases, M differ`, where `M` is the number of all that was printed. For an empty table nothing is printed.
//!
//! Random texts are read for SECONDS seconds, by default 60, but at least 1,000 texts (see `soak`). The same SEED gives
//! the same texts; the default is the reading of the clock. The last line has the seed and the number of texts.
//!
//! The status is 1 if anything differs or is not in order. It is 2 for other words, and if the table is malformed; then
//! nothing is printed of the table, and the faulty line is reported on standard error.
#![tactic(auto)]

mod case;
mod fronts;
mod soak;
mod sums;
mod table;
mod wrong;

use crate::soak::task::{Task, parse_words};
use crate::sums::Sums;
use crate::table::{Parts, compare_cases, parts_of};
use first_pass_cases::fault::CasesFault;
use first_pass_cases::table::{compare_and_report, read_table};
use first_pass_cases::tally::{Tally, end_with};
use first_pass_host::clock::HostClock;
use first_pass_host::fault::RunFault;
use first_pass_host::output::write_whole;
use first_pass_host::words::words_of;
use std::alloc::Global;
use std::process::ExitCode;

fn run(rt: &HostRuntime) -> Result<Tally, CasesFault> {
    let words = words_of(rt)?;
    let task = parse_words(words.as_slice())?;
    let table = read_table(rt)?;
    let mut tally = Tally::new();
    if !table.is_empty() {
        tally = check_table(rt, table.as_str())?;
    }
    if let Some(task) = task {
        // For the status, all random texts are one case.
        tally.count(check_random_texts(rt, task)?);
    }
    Ok(tally)
}

// Checks a table, and writes the report.
fn check_table(rt: &HostRuntime, table: &str) -> Result<Tally, CasesFault> {
    let parts = parts_of(table);
    let check = |report: &mut String| check_parts(rt.alloc(), parts, report);
    compare_and_report(rt.alloc(), &mut rt.stdout(), check)
}

// Compares the cases, and checks the ranges of trees: of the fronts of each text, and of trees that are made wrong.
// Appends what is wrong to the report.
fn check_parts(alloc: Global, parts: Parts<'_>, report: &mut String) -> Result<Tally, CasesFault> {
    let mut tally = compare_cases(alloc, parts.cases, report)?;
    let mut sums = Sums::new();
    fronts::check(alloc, parts, &mut sums, report)?;
    wrong::check(alloc, &mut sums, report)?;
    sums.append_line(report)?;
    tally.differ = tally.differ.saturating_add(sums.differ());
    Ok(tally)
}

// Reads random texts, and writes the report. Returns whether the tree of one is not in order.
fn check_random_texts(rt: &HostRuntime, task: Task) -> Result<bool, RunFault> {
    let mut report = String::new(rt.alloc());
    let is_breach = soak::read_random_texts(&mut HostClock(rt), rt.alloc(), task, &mut report)?;
    write_whole(&mut rt.stdout(), report.as_bytes())?;
    Ok(is_breach)
}

fn main(rt: HostRuntime) -> ExitCode {
    let result = run(&rt);
    end_with(&rt, result)
}
