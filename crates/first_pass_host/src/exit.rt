//! The exit status of a program.

ghost use Rattle.first_pass_host.specs.Faults.{status_of};
ghost use Rattle.std.specs.Prelude.{◌≡◌, OnOk, IfErr};
ghost use Rattle.std.specs.Process.{exit_status};

use crate::fault::RunFault;
use std::process::ExitCode;

/// Returns the exit status of a program: 0 if its run succeeded, otherwise that of the fault. Writes the message of a
/// fault as a line to standard error.
pub fn exit_code(rt: &HostRuntime, ended: Result<(), RunFault>) -> ExitCode
    ensures ok { OnOk ended (exit_status result ≡ 0) }
    ensures fault { IfErr ended (λ fault. exit_status result ≡ status_of fault) }
{
    match ended {
        Ok(()) => ExitCode::SUCCESS,
        Err(fault) => {
            let _ = eprintln!(rt; "{}", fault.message());
            ExitCode::from(fault.status())
        }
    }
}
