//! What calls answer to C.

ghost use Rattle.std.specs.Prelude.{◌≡◌, IfOk, IfErr};
ghost use Rattle.ocp_c.specs.declared.status.Status.TheVariants as status;
ghost use Rattle.ocp_c.specs.Statuses.{number_of, status_of, status_of_command, status_of_entry, status_of_fault, status_of_put, status_of_release};

use ocp_flight::{DebugFault, EngineFault, EntryFault, PutFault, ReleaseFault, StepOutcome};
use pus_fields::Discard;

/// The statuses of the header, in its order.
#[derive(Clone, Copy, PartialEq, Eq, Debug)]
pub enum Status {
    Done = 0,
    NotOpen = 1,
    AlreadyOpen = 2,
    BadProfile = 3,
    BadApid = 4,
    BadPoolWords = 5,
    BadCapacity = 6,
    Memory = 7,
    BufferTooSmall = 8,
    JournalFull = 9,
    DiscardedShort = 10,
    DiscardedVersion = 11,
    DiscardedLength = 12,
    DiscardedNotTelecommand = 13,
    DiscardedOtherApid = 14,
    NothingDue = 15,
    NotLoaded = 16,
    NotRunning = 17,
    NoneRunning = 18,
    NoBudget = 19,
    NotAnInstruction = 20,
    AlreadySet = 21,
    BreaksFull = 22,
    NotSet = 23,
    OutsideMemory = 24,
    NoWord = 25,
    NoEntry = 26,
    BadOctets = 27,
    NotHeld = 28,
    Spent = 29,
    Released = 30,
    NoRecord = 31,
}

impl Status {
    /// The number in the header.
    pub fn number(self) -> u32
        ensures { result ≡ number_of self }
    {
        self as u32
    }
}

/// Writes a value that was given. It returns the number of the answer.
pub(crate) fn write_value<T: Copy>(given: Result<T, Status>, told: &mut T) -> u32
    ensures done { IfOk given (λ value.
        (result ≡ number_of status.Done) × (told.new ≡ value)) }
    ensures refused { IfErr given (λ why.
        (result ≡ number_of why) × (told.new ≡ told.old)) }
{
    match given {
        Ok(value) => {
            *told = value;
            Status::Done.number()
        }
        Err(status) => status.number(),
    }
}

/// The status of an instruction.
impl From<StepOutcome> for Status {
    ghost from_gives = { λ outcome status. status ≡ status_of outcome };

    fn from(outcome: StepOutcome) -> Status {
        match outcome {
            StepOutcome::NotLoaded => Status::NotLoaded,
            StepOutcome::NotRunning => Status::NotRunning,
            StepOutcome::JournalFull => Status::JournalFull,
            _ => Status::Done,
        }
    }
}

/// The status of a write of a pool word.
impl From<Result<(), PutFault>> for Status {
    ghost from_gives = { λ given status. status ≡ status_of_put given };

    fn from(given: Result<(), PutFault>) -> Status {
        match given {
            Ok(()) => Status::Done,
            Err(PutFault::BadPoolIndex) => Status::NoWord,
            Err(PutFault::JournalFull) => Status::JournalFull,
        }
    }
}

/// The status of a debugger's command.
impl From<Result<(), DebugFault>> for Status {
    ghost from_gives = { λ given status. status ≡ status_of_command given };

    fn from(given: Result<(), DebugFault>) -> Status {
        match given {
            Ok(()) => Status::Done,
            Err(DebugFault::NotLoaded) => Status::NotLoaded,
            Err(DebugFault::NotAnInstruction) => Status::NotAnInstruction,
            Err(DebugFault::AlreadySet) => Status::AlreadySet,
            Err(DebugFault::BreaksFull) => Status::BreaksFull,
            Err(DebugFault::NotSet) => Status::NotSet,
            Err(DebugFault::JournalFull) => Status::JournalFull,
            Err(DebugFault::OutsideMemory) => Status::OutsideMemory,
        }
    }
}

/// The status of a request or a drain that is refused.
impl From<EngineFault> for Status {
    ghost from_gives = { λ fault status. status ≡ status_of_fault fault };

    fn from(fault: EngineFault) -> Status {
        match fault {
            EngineFault::Discarded(Discard::Short) => Status::DiscardedShort,
            EngineFault::Discarded(Discard::Version) => Status::DiscardedVersion,
            EngineFault::Discarded(Discard::Length) => Status::DiscardedLength,
            EngineFault::Discarded(Discard::NotTelecommand) => Status::DiscardedNotTelecommand,
            EngineFault::Discarded(Discard::OtherApid) => Status::DiscardedOtherApid,
            EngineFault::JournalFull => Status::JournalFull,
            EngineFault::Memory => Status::Memory,
            EngineFault::NothingDue => Status::NothingDue,
        }
    }
}

/// The status of an entry that is read.
impl From<Result<usize, EntryFault>> for Status {
    ghost from_gives = { λ given status. status ≡ status_of_entry given };

    fn from(given: Result<usize, EntryFault>) -> Status {
        match given {
            Ok(_) => Status::Done,
            Err(EntryFault::Released) => Status::Released,
            Err(EntryFault::NotYet) => Status::NoEntry,
            Err(EntryFault::TooShort { .. }) => Status::BufferTooSmall,
        }
    }
}

/// The status of a release.
impl From<Result<(), ReleaseFault>> for Status {
    ghost from_gives = { λ given status. status ≡ status_of_release given };

    fn from(given: Result<(), ReleaseFault>) -> Status {
        match given {
            Ok(()) => Status::Done,
            Err(ReleaseFault::NotHeld) => Status::NotHeld,
            Err(ReleaseFault::Spent) => Status::Spent,
        }
    }
}
