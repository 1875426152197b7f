//! The outcome of a call, and whether a request was refused in it.

use std::alloc::{AllocError, Global};

// The number of requests made to find whether one is still to be refused; it is greater than the number of requests
// in a run before.
const MOST: usize = 100;

/// The outcome of a call.
#[derive(Clone, Copy, PartialEq, Eq)]
pub enum Outcome {
    /// It returned the expected result.
    Usual,
    /// It was refused and changed nothing, and returned the expected result when it was made again.
    Refused,
    /// The refused request was one of the test, not of the call.
    Elsewhere,
    /// A request was refused, but it returned the expected result nevertheless.
    Swallowed,
    /// It returned that a request was refused, but none was.
    Invented,
    /// It was refused, and changed or returned something.
    Changed,
    /// It returned another result than expected, or another fault.
    Differs,
}

impl Outcome {
    /// Returns the outcome of calls after one more is refused; `is_kept` is true if everything is unchanged. Only one
    /// request of a run is refused, so a second refused call has invented it.
    pub fn refused(self, is_kept: bool) -> Outcome {
        match self {
            Outcome::Usual if is_kept => Outcome::Refused,
            Outcome::Usual => Outcome::Changed,
            _ => Outcome::Differs,
        }
    }

    /// Returns whether each call so far did what is expected, refused or not, so that more are made.
    pub fn is_good(self) -> bool {
        matches!(self, Outcome::Usual | Outcome::Refused)
    }

    /// Returns the word for it in the report.
    pub fn word(self) -> &'static str {
        match self {
            Outcome::Usual => "usual",
            Outcome::Refused => "refused",
            Outcome::Elsewhere => "elsewhere",
            Outcome::Swallowed => "swallowed",
            Outcome::Invented => "invented",
            Outcome::Changed => "changed",
            Outcome::Differs => "differs",
        }
    }
}

/// Returns the outcome of a call, from what it returned, in a run in which one request is refused. That request was
/// one of the call if none after it is refused.
pub fn classified_outcome(alloc: Global, returned: Outcome) -> Outcome {
    let is_past = !is_one_refused(alloc, MOST);
    match returned {
        Outcome::Usual if is_past => Outcome::Swallowed,
        Outcome::Refused | Outcome::Elsewhere if !is_past => Outcome::Invented,
        other => other,
    }
}

/// Makes `count` requests, or fewer if one is refused; returns whether one was refused.
pub fn is_one_refused(alloc: Global, count: usize) -> bool {
    for _ in 0..count {
        if request(alloc).is_err() {
            return true;
        }
    }
    false
}

fn request(alloc: Global) -> Result<(), AllocError> {
    let mut bytes = Vec::with_capacity(alloc, 1)?;
    bytes.push(0u8)?;
    Ok(())
}
