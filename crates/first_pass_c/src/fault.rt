//! The reasons for which a call fails.

ghost use Rattle.first_pass_c.specs.declared.fault.Fault.TheVariants.{OutOfMemory, TooLong as TooLongFault};
ghost use Rattle.first_pass_c.specs.Statuses.{status_of};
ghost use Rattle.std.specs.Prelude.{◌≡◌};

use crate::flat::numbers::TooLong;
use std::alloc::AllocError;

/// The reason for which a call fails.
#[derive(Clone, Copy, Debug, PartialEq, Eq)]
pub enum Fault {
    /// An allocation failed.
    OutOfMemory,
    /// The text is not UTF-8.
    NotUtf8,
    /// A bit belongs to no option.
    BadOptions,
    /// An array of the caller is too short.
    TooSmall,
    /// The text has 2^32 bytes or more, or a number of a node needs more than 32 bits.
    TooLong,
}

impl From<AllocError> for Fault {
    ghost from_gives = { λ _ fault. fault ≡ OutOfMemory };

    fn from(_error: AllocError) -> Fault {
        Fault::OutOfMemory
    }
}

impl From<TooLong> for Fault {
    ghost from_gives = { λ _ fault. fault ≡ TooLongFault };

    fn from(_error: TooLong) -> Fault {
        Fault::TooLong
    }
}

/// Returns the status of a fault in other languages.
pub(crate) fn status_of(fault: Fault) -> u32
    ensures { result ≡ status_of fault }
{
    match fault {
        Fault::OutOfMemory => 1,
        Fault::NotUtf8 => 2,
        Fault::BadOptions => 3,
        Fault::TooSmall => 4,
        Fault::TooLong => 5,
    }
}
