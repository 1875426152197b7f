//! `outline [BITS]`: prints the outline of a Markdown text on standard input, that is, its headings. BITS is the
//! decimal value of the options, by default 0.
#![tactic(auto)]

use first_pass_host::program::run_program;
use first_pass_outline::run::ListedOutline;
use std::process::ExitCode;

fn main(rt: HostRuntime) -> ExitCode {
    run_program(&rt, &ListedOutline)
}
