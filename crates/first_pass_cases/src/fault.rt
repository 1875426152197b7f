//! The fault that ends a run over a table of cases before the table's end.

ghost use Rattle.first_pass_cases.specs.declared.fault.CasesFault.TheVariants.{Run};
ghost use Rattle.first_pass_host.specs.declared.fault.RunFault.TheVariants.{OutOfMemory};
ghost use Rattle.std.specs.Prelude.{◌≡◌};

use first_pass_host::fault::RunFault;
use std::alloc::{AllocError, Global};

/// The fault that ended a run over a table of cases before the table's end.
#[derive(Clone, Copy, Debug, PartialEq, Eq)]
pub enum CasesFault {
    /// The table couldn't be read, the report couldn't be written, or an allocation failed.
    Run(RunFault),
    /// This line of the table is not part of a case: what it has or lacks.
    Malformed(usize, &'static str),
}

impl CasesFault {
    /// Returns the message for standard error.
    pub fn message(self, alloc: Global) -> Result<String, AllocError> {
        match self {
            CasesFault::Run(fault) => String::from_str(alloc, fault.message()),
            CasesFault::Malformed(line, what) => format!(in alloc;
                "line {line} of the table: {what}"
            ),
        }
    }
}

impl From<AllocError> for CasesFault {
    ghost from_gives = { λ _ fault. fault ≡ Run OutOfMemory };

    fn from(_error: AllocError) -> CasesFault {
        CasesFault::Run(RunFault::OutOfMemory)
    }
}

impl From<RunFault> for CasesFault {
    ghost from_gives = { λ reason fault. fault ≡ Run reason };

    fn from(fault: RunFault) -> CasesFault {
        CasesFault::Run(fault)
    }
}
