//! `refusal_cases`: makes calls in a run in which one memory request may be refused, and prints the outcome of each.
//!
//! A case is a group of lines, and an empty line ends it:
//!
//! ```text
//! after 12
//! parse 2
//! |a|b
//! |-|-
//! Root 0..7
//!   ..
//! ```
//!
//! - The first line, if there is one, is the number of requests before the call. If one request of a run is refused,
//!   another number makes it another request of the call.
//! - The next line has the call and its arguments: for `parse` (`run_first_pass`) the value of the options; for
//!   `blocks`, `links`, `tree` and `bench` the words of that program; for `words` nothing, since it takes those of
//!   this program; for a call of a tree, of tables or of a table nothing.
//! - The text follows, each line after a bar, and then the expected output of the program. In both, a tab is written
//!   as its picture, `␉`.
//!
//! A group whose lines begin with a number sign is a heading.
//!
//! A case without a first line as above is like one of any table: if it differs, it is printed with its line. With
//! one, its outcome is printed as a word (see `Outcome`). The last line is `N cases, M differ`. The status is 1 if any
//! case differs. It is 2 if the table is malformed; the faulty line is then reported on standard error.
#![tactic(auto)]

mod case;
mod outcome;
mod programs;
mod table;
mod tables;
mod trees;

use first_pass_cases::table::compare_and_report;
use first_pass_cases::tally::end_with;
use std::process::ExitCode;

fn main(rt: HostRuntime) -> ExitCode {
    let compare = |report: &mut String| table::compare(&rt, report);
    let result = compare_and_report(rt.alloc(), &mut rt.stdout(), compare);
    end_with(&rt, result)
}
