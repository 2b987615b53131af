//! Why an image is not loaded.
use bpf_decode::DecodeFault;
use std::alloc::AllocError;
use thiserror::Error;

/// Why an image is not loaded, in the order in which faults are looked for: the three of the
/// length, then slot by slot those of the instructions and their calls, then the targets in slot
/// order, then the end. Memory may be answered in place of any other answer. A slot is the first
/// one of the instruction at fault.
#[derive(Clone, Copy, PartialEq, Eq, Debug, Error)]
pub enum LoadFault {
    /// There are no octets.
    #[error("a procedure has at least one instruction")]
    EmptyCode,
    /// The length is no multiple of 8 octets.
    #[error("an image is whole slots of 8 octets")]
    RaggedCode,
    /// There are over `MAX_SLOTS` slots: 2,048.
    #[error("an image has at most 2048 slots, and lddw takes two")]
    TooLong,
    /// The octets at the slot are no instruction that may be loaded.
    #[error("{0}")]
    Decode(DecodeFault, u16),
    /// A numbered call is not that of an engine call of the profile.
    #[error("engine calls are 1 to 5, and 6 under profile 2")]
    BadCall(u16),
    /// A jump or a local call leads to no first slot of an instruction.
    #[error("a jump or a local call ends at an instruction of the image")]
    BadTarget(u16),
    /// The last instruction is neither EXIT nor JA of either class.
    #[error("the last instruction is exit, ja or ja32")]
    FallsOffEnd(u16),
    #[error("out of memory")]
    Memory,
}

impl LoadFault {
    ghost use Rattle.std.specs.Prelude.{◌≡◌, ◌≤◌};
    ghost use Rattle.ocp_loader.specs.FaultNumbers.{number_of, slot_of};

    /// 1 to 11 in the order in which faults are looked for, and 0 for Memory.
    pub fn number(self) -> u8
        ensures value { result ≡ number_of self }
        ensures few { result ≤ 11 }
    {
        match self {
            LoadFault::Memory => 0,
            LoadFault::EmptyCode => 1,
            LoadFault::RaggedCode => 2,
            LoadFault::TooLong => 3,
            LoadFault::Decode(fault, _) => 3 + fault.number(),
            LoadFault::BadCall(_) => 9,
            LoadFault::BadTarget(_) => 10,
            LoadFault::FallsOffEnd(_) => 11,
        }
    }

    /// The first slot of the instruction at fault, and 0 if there is none.
    pub fn slot(self) -> u16
        ensures { result ≡ slot_of self }
    {
        match self {
            LoadFault::Decode(_, slot)
            | LoadFault::BadCall(slot)
            | LoadFault::BadTarget(slot)
            | LoadFault::FallsOffEnd(slot) => slot,
            _ => 0,
        }
    }
}

impl From<AllocError> for LoadFault {
    ghost use Rattle.std.specs.Prelude.{◌≡◌};
    ghost use Rattle.ocp_loader.specs.declared.fault.LoadFault.TheVariants.{Memory};

    ghost from_gives = { λ _ r. r ≡ Memory };

    fn from(_error: AllocError) -> Self {
        LoadFault::Memory
    }
}
