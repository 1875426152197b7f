//! The results of timed runs, and when runs are enough.

ghost use Rattle.first_pass_host.specs.declared.fault.RunFault.TheVariants.{ReadFailed};
ghost use Rattle.first_pass_host.specs.Timing.{enough};
ghost use Rattle.std.specs.Io.KnownBytes.{Consumes};
ghost use Rattle.std.specs.Prelude.{◌≡◌, ◌+◌, ◌-◌, ◌<◌, min, false, ◌∷◌, [], IfOk, IfErr};

use crate::clock::TimeSource;
use crate::fault::RunFault;

// The least number of runs, if no number is given.
const LEAST_RUNS: u32 = 5;

// The least time of all runs together in nanoseconds, if no number of runs is given.
const LEAST_NANOS: u128 = 1_000_000_000;

/// The result of runs over a text.
#[derive(Clone, Copy)]
pub struct Timing {
    /// The number of nodes of the tree.
    pub nodes: usize,
    /// The number of runs.
    pub runs: u32,
    /// The time of the first run, in nanoseconds.
    pub first: u128,
    /// The least time of a run, in nanoseconds.
    pub nanos: u128,
}

/// A run: the number of nodes of its tree, and the readings of the clock before and after it.
#[derive(Clone, Copy)]
pub struct Run {
    pub nodes: usize,
    pub began: u128,
    pub ended: u128,
}

impl Run {
    /// Returns the nanoseconds that the run took, or 0 if the clock went back.
    pub fn nanos(self) -> u128
        ensures { result ≡ self.ended - self.began }
    {
        self.ended.saturating_sub(self.began)
    }
}

impl Timing {
    /// Returns the timing with one more run.
    pub fn with(self, run: Run) -> Timing
        requires { self.runs < u32.MAX }
        ensures nodes { result.nodes ≡ run.nodes }
        ensures runs { result.runs ≡ self.runs + 1 }
        ensures first { result.first ≡ self.first }
        ensures nanos { result.nanos ≡ min self.nanos (run.ended - run.began) }
    {
        Timing {
            nodes: run.nodes,
            runs: self.runs + 1,
            first: self.first,
            nanos: self.nanos.min(run.nanos()),
        }
    }
}

/// Returns whether this number of runs, made in this number of nanoseconds, is enough.
pub fn is_enough(asked: Option<u32>, runs: u32, nanos: u128) -> bool
    ensures value { result ≡ enough asked runs nanos }
    ensures room { result ≡ false → runs < u32.MAX }
{
    match asked {
        Some(asked) => asked <= runs,
        None => runs == u32::MAX || (LEAST_RUNS <= runs && LEAST_NANOS <= nanos),
    }
}

/// Reads the clock. Returns `ReadFailed` if that fails.
pub fn read_clock<T: TimeSource>(clock: &mut T) -> Result<u128, RunFault>
    ensures read { IfOk result (λ nanos. Consumes (T.readings clock.old) (T.readings clock.new) (nanos ∷ [])) }
    ensures fault { IfErr result (λ fault. fault ≡ ReadFailed) }
{
    match clock.nanos() {
        Ok(nanos) => Ok(nanos),
        Err(_) => Err(RunFault::ReadFailed),
    }
}
