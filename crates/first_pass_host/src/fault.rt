//! The faults that end a run before its whole output.

ghost use Rattle.first_pass_host.specs.declared.fault.RunFault.TheVariants.{OutOfMemory};
ghost use Rattle.first_pass_host.specs.Faults.{message_of, status_of};
ghost use Rattle.std.specs.Prelude.{◌≡◌};

use std::alloc::AllocError;

/// A fault that ends a run of a program before its whole output.
#[derive(Clone, Copy, Debug, PartialEq, Eq)]
pub enum RunFault {
    /// An allocation failed.
    OutOfMemory,
    /// The input is not UTF-8.
    NotUtf8,
    /// There is more than one word, or a word is not a numeral of known options.
    BadOptions,
    /// A read failed.
    ReadFailed,
    /// A write failed, or wrote no byte.
    WriteFailed,
}

impl RunFault {
    /// Returns the message of the program on standard error.
    pub fn message(self) -> &'static str
        ensures { result.now ≡ message_of self }
    {
        match self {
            RunFault::OutOfMemory => "out of memory",
            RunFault::NotUtf8 => "not UTF-8",
            RunFault::BadOptions => "bad options",
            RunFault::ReadFailed => "read failed",
            RunFault::WriteFailed => "write failed",
        }
    }

    /// Returns the exit status of the program.
    pub fn status(self) -> u8
        ensures { result ≡ status_of self }
    {
        match self {
            RunFault::OutOfMemory => 1,
            _ => 2,
        }
    }
}

impl From<AllocError> for RunFault {
    ghost from_gives = { λ _ fault. fault ≡ OutOfMemory };

    fn from(_error: AllocError) -> RunFault {
        RunFault::OutOfMemory
    }
}
