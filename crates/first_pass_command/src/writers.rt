//! The writers of a run.

/// Where a run writes: the output, and the lines of faults.
#[derive(Drop)]
pub struct Writers<W, E> {
    pub output: W,
    pub errors: E,
}

/// A writer that finds out if nobody reads what it writes.
pub(crate) trait Closes {
    /// Whether a write failed since nobody reads any more.
    fn is_closed(&self) -> bool;
}
