//! Why a text has no image.

ghost use Rattle.std.specs.Prelude.{◌≡◌};
ghost use Rattle.bpf_assembler.specs.declared.fault.AsmFault.TheVariants.{Memory, At};

use ocp_loader::LoadFault;
use std::alloc::AllocError;
use thiserror::Error;

/// What is wrong with a line of a text that has no image, in the order in which faults are looked
/// for: line by line the first three; then in line order UnknownLabel, and Range of the distance of
/// a label; then the fault of the image.
#[derive(Clone, Copy, PartialEq, Eq, Debug, Error)]
pub enum Why {
    #[error("the line does not have the form of one")]
    Syntax,
    #[error("a number, a width or the distance of a label is out of its range")]
    Range,
    #[error("an earlier line has the same label")]
    DuplicateLabel,
    #[error("no line has the label that is in place of a distance")]
    UnknownLabel,
    #[error(transparent)]
    Load(LoadFault),
}

/// Why a text has no image: what is wrong with the line of a number, counted from 1. Line 0 is the
/// text as a whole. Memory may be answered in place of any other answer.
#[derive(Clone, Copy, PartialEq, Eq, Debug, Error)]
pub enum AsmFault {
    #[error("line {line}: {why}")]
    At { line: u64, why: Why },
    #[error("out of memory")]
    Memory,
}

impl AsmFault {
    /// What is wrong with the line of this number.
    pub(crate) fn at(line: u64, why: Why) -> AsmFault
        ensures { result ≡ At line why }
    {
        AsmFault::At { line, why }
    }
}

impl From<AllocError> for AsmFault {
    ghost from_gives = { λ _ e. e ≡ Memory };

    fn from(_: AllocError) -> AsmFault {
        AsmFault::Memory
    }
}
