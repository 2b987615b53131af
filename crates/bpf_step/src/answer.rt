//! What became of an instruction: done by the machine alone, or left to the engine.
ghost use Rattle.std.specs.Prelude.{◌≡◌};
ghost use Rattle.bpf_step.specs.declared.answer.MachineFault.TheVariants as fault;
ghost use Rattle.bpf_step.specs.Machine.{fault_number};

use ocp_regions::AccessFault;
use thiserror::Error;

/// Why an instruction cannot be done.
#[derive(Clone, Copy, PartialEq, Eq, Debug, Error)]
pub enum MachineFault {
    #[error(transparent)]
    Access(AccessFault),
    #[error("the greatest number of local calls is open")]
    CallDepth,
}

impl MachineFault {
    /// The number of the fault: AccessOutside 1, WriteToArguments 2, CallDepth 3.
    pub fn number(self) -> u8
        ensures { result ≡ fault_number self }
    {
        match self {
            MachineFault::Access(AccessFault::AccessOutside) => 1,
            MachineFault::Access(AccessFault::WriteToArguments) => 2,
            MachineFault::CallDepth => 3,
        }
    }
}

impl From<AccessFault> for MachineFault {
    ghost from_gives = { λ why r. r ≡ fault.Access why };

    fn from(fault: AccessFault) -> Self {
        MachineFault::Access(fault)
    }
}

/// What an instruction needs from the engine.
#[derive(Clone, Copy)]
pub enum Need {
    /// An engine call, by its number.
    Call(i32),
    /// The end of the procedure: EXIT when no local call is open.
    LastExit,
    /// The end of the procedure by a fault.
    Fault(MachineFault),
}

/// What became of an instruction.
#[derive(Clone, Copy)]
pub enum Local {
    /// The machine did it.
    Stepped,
    /// The engine has to do it. The machine is unchanged.
    NeedsEngine(Need),
}
