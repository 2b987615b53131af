//! What a debugger asks of a loaded procedure.

ghost use Rattle.std.specs.Prelude.{◌≡◌};
ghost use Rattle.ocp_debug.specs.Clauses.{debug_fault_name};

use thiserror::Error;

/// A command that changes a procedure's breakpoints or its trace flag, and nothing else.
#[derive(Clone, Copy, PartialEq, Eq)]
pub enum Command {
    /// A breakpoint at the slot of an instruction.
    SetBreak(u16),
    /// No breakpoint at this slot.
    ClearBreak(u16),
    /// Whether each instruction leaves a trace record.
    SetTrace(bool),
}

/// Why a debugger's call is refused. Nothing is changed. Each call has its refusals in this order.
#[derive(Clone, Copy, PartialEq, Eq, Debug, Error)]
pub enum DebugFault {
    #[error("no procedure has this id")]
    NotLoaded,
    #[error("the place is not the first slot of an instruction")]
    NotAnInstruction,
    #[error("a breakpoint is set there already")]
    AlreadySet,
    #[error("eight breakpoints are set")]
    BreaksFull,
    #[error("no breakpoint is set there")]
    NotSet,
    #[error("there is no room for a further journal entry")]
    JournalFull,
    #[error("not all octets are in the procedure's memory")]
    OutsideMemory,
}

impl DebugFault {
    /// Its name in what the program prints.
    pub fn name(self) -> &'static str
        ensures { result.now ≡ debug_fault_name self }
    {
        match self {
            DebugFault::NotLoaded => "NotLoaded",
            DebugFault::NotAnInstruction => "NotAnInstruction",
            DebugFault::AlreadySet => "AlreadySet",
            DebugFault::BreaksFull => "BreaksFull",
            DebugFault::NotSet => "NotSet",
            DebugFault::JournalFull => "JournalFull",
            DebugFault::OutsideMemory => "OutsideMemory",
        }
    }
}
