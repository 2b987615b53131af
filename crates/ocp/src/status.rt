//! The exit status of the program.

ghost use Rattle.std.specs.Prelude.{◌≡◌};
ghost use Rattle.std.specs.Process.{exit_status};
ghost use Rattle.ocp.specs.Status.{status_of as status_of_answer};

use ocp_ports::ConsoleFault;
use std::process::ExitCode;

/// The exit status of a fault of the input.
const INPUT_FAULT: u8 = 1;

/// The exit status of a device that failed, of memory that was refused, or of workers that failed.
const MACHINE_FAULT: u8 = 3;

/// Prints on standard error what failed in the machine, and returns its exit status, whether or
/// not it could be printed.
pub(crate) fn machine_fault<E: Eprint>(rt: &E, name: &str) -> ExitCode
    ensures { exit_status result ≡ 3 }
{
    let _ = eprintln!(rt; "fault {name}");
    ExitCode::from(MACHINE_FAULT)
}

/// The exit status of a command with this answer: whether it did what it was asked for, or what
/// failed in the machine.
pub(crate) fn status_of<E: Eprint>(rt: &E, answer: Result<bool, ConsoleFault>) -> ExitCode
    ensures { exit_status result ≡ status_of_answer answer }
{
    match answer {
        Ok(true) => ExitCode::SUCCESS,
        Ok(false)
        | Err(
            ConsoleFault::TooManyLines | ConsoleFault::LineTooLong(_) | ConsoleFault::Syntax(_),
        ) => ExitCode::from(INPUT_FAULT),
        Err(fault) => machine_fault(rt, fault.name()),
    }
}
