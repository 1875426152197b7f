//! The clock that times runs.

ghost use Rattle.std.specs.Io.KnownBytes.{Consumes};
ghost use Rattle.std.specs.Prelude.{ℕ, ◌∷◌, [], List, Option, None, IfOk};

use std::io;
use std::rt::Clock;

/// A clock.
pub trait TimeSource {
    // The remaining readings of the clock, in nanoseconds, if they are known.
    ghost readings: { Self → Option (List ℕ) } = { λ _. None };

    /// Returns the nanoseconds from a time before the first reading to now.
    fn nanos(&mut self) -> io::Result<u128>
        ensures { IfOk result (λ nanos. Consumes (readings self.old) (readings self.new) (nanos ∷ [])) };
}

/// The monotonic clock of the operating system.
#[derive(Clone, Copy)]
pub struct HostClock<'a, C>(pub &'a C);

impl<C: Clock> TimeSource for HostClock<'_, C> {
    fn nanos(&mut self) -> io::Result<u128> {
        Ok(self.0.monotonic()?.as_nanos())
    }
}
