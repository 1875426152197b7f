//! `blocks [BITS]`: prints the tree of the blocks of a Markdown text on standard input. BITS is the decimal value of
//! the options, by default 0.
#![tactic(auto)]

use first_pass_blocks::parser::BlockParser;
use first_pass_host::program::run_program;
use first_pass_host::tree_report::TreeReport;
use first_pass_reports::printed::run::PrintedBlocks;
use std::process::ExitCode;

fn main(rt: HostRuntime) -> ExitCode {
    run_program(&rt, &TreeReport(BlockParser, PrintedBlocks))
}
