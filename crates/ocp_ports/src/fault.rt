//! Why a run ended.

ghost use Rattle.std.specs.Prelude.{◌≡◌};
ghost use Rattle.ocp_ports.specs.declared.fault.ConsoleFault.TheVariants.{Memory};
ghost use Rattle.ocp_ports.specs.Faults.{fault_name, fault_line, crew_fault};

use crate::crew::CrewFault;
use std::alloc::AllocError;
use thiserror::Error;

/// The most lines of a script.
pub const MAX_LINES: u32 = 100_000;

/// The most octets of a line of a script, a carriage return included and the newline not.
pub const MAX_LINE_OCTETS: usize = 40_000;

/// Why a run ended. The first three are the script's, in this order for each line in turn.
#[derive(Debug, Drop, Error)]
pub enum ConsoleFault {
    #[error("a script has at most 100,000 lines")]
    TooManyLines,
    #[error("a line has at most 40,000 octets")]
    LineTooLong(u32),
    #[error("line {0} is no command of the console")]
    Syntax(u32),
    #[error("a read failed")]
    Read,
    #[error("a write failed")]
    Write,
    #[error("out of memory")]
    Memory,
    /// The crew refused, for a reason other than memory.
    #[error("the workers failed")]
    Workers,
}

impl ConsoleFault {
    /// Its name in what the program prints.
    pub fn name(&self) -> &'static str
        ensures { result.now ≡ fault_name self.now }
    {
        match self {
            ConsoleFault::TooManyLines => "TooManyLines",
            ConsoleFault::LineTooLong(_) => "LineTooLong",
            ConsoleFault::Syntax(_) => "Syntax",
            ConsoleFault::Read => "Read",
            ConsoleFault::Write => "Write",
            ConsoleFault::Memory => "Memory",
            ConsoleFault::Workers => "Workers",
        }
    }

    /// The number of the line that has this fault, if it is one of a script.
    pub fn line(&self) -> Option<u32>
        ensures { result ≡ fault_line self.now }
    {
        match self {
            ConsoleFault::TooManyLines => Some(MAX_LINES + 1),
            ConsoleFault::LineTooLong(line) | ConsoleFault::Syntax(line) => Some(*line),
            ConsoleFault::Read
            | ConsoleFault::Write
            | ConsoleFault::Memory
            | ConsoleFault::Workers => None,
        }
    }
}

impl From<AllocError> for ConsoleFault {
    ghost from_gives = { λ _ e. e ≡ Memory };

    fn from(_e: AllocError) -> ConsoleFault {
        ConsoleFault::Memory
    }
}

impl From<CrewFault> for ConsoleFault {
    ghost from_gives = { λ refused e. e ≡ crew_fault refused };

    fn from(refused: CrewFault) -> ConsoleFault {
        match refused {
            CrewFault::Memory => ConsoleFault::Memory,
            CrewFault::Workers => ConsoleFault::Workers,
        }
    }
}
