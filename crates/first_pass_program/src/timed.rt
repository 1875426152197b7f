//! Timed runs of the pass.

ghost use Rattle.first_pass_host.specs.Streams.{IsReadFault};
ghost use Rattle.first_pass_host.specs.Timing.{IsTimed};
ghost use Rattle.first_pass_program.specs.Bench.{CountsNodes};
ghost use Rattle.std.specs.Io.KnownBytes.{Consumes};
ghost use Rattle.std.specs.Prelude.{◌∷◌, [], IfOk, IfErr};

use first_pass_blocks::pass::run_first_pass;
use first_pass_host::clock::TimeSource;
use first_pass_host::fault::RunFault;
use first_pass_host::timing::{Run, Timing, is_enough, read_clock};
use first_pass_items::option_set::Options;
use std::alloc::Global;

/// Runs the pass on a text the number of times in `asked`, and at least once. Without a number, runs it at least five
/// times, and until one second has passed. The tree and tables of each run are dropped before the next one begins.
/// Fails with `ReadFailed` if the clock can't be read, otherwise with `OutOfMemory`.
///
/// The contract does not state that the pass runs between the two readings of a run, or that nothing else does.
pub fn time_runs<T: TimeSource>(
    clock: &mut T,
    alloc: Global,
    text: &str,
    options: Options,
    asked: Option<u32>,
) -> Result<Timing, RunFault>
    ensures nodes { IfOk result (λ timing. CountsNodes options text.now timing.nodes) }
    ensures timed { IfOk result (λ timing.
        IsTimed asked (T.readings clock.old) (T.readings clock.new) timing.runs timing.nanos timing.first) }
    ensures fault { IfErr result IsReadFault }
{
    let first = run_once(clock, alloc, text, options)?;
    let took = first.nanos();
    let mut timing = Timing {
        nodes: first.nodes,
        runs: 1,
        first: took,
        nanos: took,
    };
    let mut ended = first.ended;
    while !is_enough(asked, timing.runs, ended.saturating_sub(first.began)) {
        let next = run_once(clock, alloc, text, options)?;
        ended = next.ended;
        timing = timing.with(next);
    }
    Ok(timing)
}

// Runs the pass on a text once. The tree and the tables are dropped after the second reading of the clock.
fn run_once<T: TimeSource>(
    clock: &mut T,
    alloc: Global,
    text: &str,
    options: Options,
) -> Result<Run, RunFault>
    ensures nodes { IfOk result (λ run. CountsNodes options text.now run.nodes) }
    ensures read { IfOk result (λ run.
        Consumes (T.readings clock.old) (T.readings clock.new) (run.began ∷ run.ended ∷ [])) }
    ensures fault { IfErr result IsReadFault }
{
    let began = read_clock(clock)?;
    let (tree, _allocs) = run_first_pass(alloc, text, options)?;
    let ended = read_clock(clock)?;
    Ok(Run {
        nodes: tree.node_count(),
        began,
        ended,
    })
}
