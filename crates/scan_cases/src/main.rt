//! `scan_cases`: reads a table of calls of the parts below the pass, and of the words and the line of the programs,
//! and prints the cases whose results differ.
//!
//! A line is a case: the name of a call, its arguments other than the text, the text between `‹` and `›`, and the
//! printed result.
//!
//! ```text
//! scan_closing_code_fence ` 3 ‹```` ␉␊› 6
//! ```
//!
//! - An argument is a number, `true` or `false`, or one character that represents its byte.
//! - In a text a control character is written as its picture (see `first_pass_cases::pictures`).
//! - A result is printed word by word: numbers, bytes as characters, `none`, and texts between `‹` and `›`.
//!
//! Lines that begin with a number sign are headings; empty lines are ignored.
//!
//! Each case that differs is printed with its line and its actual result; the last line is `N cases, M differ`. The
//! status is 1 if any case differs. It is 2 if the table is malformed; the faulty line is then reported on standard
//! error.
#![tactic(auto)]

mod atoms;
mod attributes;
mod call;
mod containers;
mod contents;
mod definitions;
mod html;
mod leaves;
mod lines;
mod links;
mod markers;
mod programs;
mod rows;
mod table;
mod targets;
mod texts;
mod tokens;
mod walks;

use first_pass_cases::table::compare_and_report;
use first_pass_cases::tally::end_with;
use std::process::ExitCode;

fn main(rt: HostRuntime) -> ExitCode {
    let compare = |report: &mut String| table::compare(&rt, report);
    let result = compare_and_report(rt.alloc(), &mut rt.stdout(), compare);
    end_with(&rt, result)
}
