//! `bench [BITS [RUNS]]`: times the pass over the Markdown text on standard input.
#![tactic(auto)]

use first_pass_host::clock::HostClock;
use first_pass_host::exit::exit_code;
use first_pass_host::fault::RunFault;
use first_pass_host::words::words_of;
use first_pass_program::bench::bench_run;
use std::process::ExitCode;

fn bench(rt: &HostRuntime) -> Result<(), RunFault> {
    let words = words_of(rt)?;
    let mut clock = HostClock(rt);
    let mut input = rt.stdin();
    let mut output = rt.stdout();
    bench_run(
        &mut clock,
        rt.alloc(),
        words.as_slice(),
        &mut input,
        &mut output,
    )
}

fn main(rt: HostRuntime) -> ExitCode {
    let ended = bench(&rt);
    exit_code(&rt, ended)
}
