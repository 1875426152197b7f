//! `links [BITS]`: lists the link definitions of a Markdown text on standard input, its footnote definitions, links,
//! images, autolinks and footnote references, and the references that name no definition. BITS is the decimal value of
//! the options, by default 0.
#![tactic(auto)]

use first_pass_blocks::parser::BlockParser;
use first_pass_host::program::run_program;
use first_pass_linked::links::LinkReport;
use first_pass_linked::plain::PlainLinks;
use std::process::ExitCode;

fn main(rt: HostRuntime) -> ExitCode {
    run_program(&rt, &LinkReport(BlockParser, PlainLinks))
}
