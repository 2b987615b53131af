//! What calls answer.

ghost use Rattle.std.specs.Prelude.{◌≡◌, ℕ, List};
ghost use Rattle.ocp_world.specs.Clauses.{IsDiscard, Memory, Request as Asked, World, after, discard_of, telecommand_of};
ghost use Rattle.ocp_world.specs.Names.{engine_fault_name, put_fault_name};

use pus_fields::{Discard, Tc, TcFault};
use std::alloc::AllocError;
use thiserror::Error;

/// Why a request or a drain has no reports. Nothing is changed. Those of a request come in this
/// order: discarded, a full journal, memory; those of a drain: nothing due, a full journal, memory.
#[derive(Clone, Copy, PartialEq, Eq, Debug, Error)]
pub enum EngineFault {
    /// The octets are no telecommand for this engine, and no report is sent.
    #[error("discarded: {0}")]
    Discarded(Discard),
    #[error("there is no room for a further journal entry")]
    JournalFull,
    #[error("out of memory")]
    Memory,
    #[error("no completion waits to be reported")]
    NothingDue,
}

/// Why a pool word is not written from outside. Nothing is changed. They come in this order.
#[derive(Clone, Copy, PartialEq, Eq, Debug, Error)]
pub enum PutFault {
    #[error("the pool has no word at the index")]
    BadPoolIndex,
    #[error("there is no room for a further journal entry")]
    JournalFull,
}

impl EngineFault {
    /// Its name in what the program prints.
    pub fn name(self) -> &'static str
        ensures { result.now ≡ engine_fault_name self }
    {
        match self {
            EngineFault::Discarded(cause) => cause.name(),
            EngineFault::JournalFull => "JournalFull",
            EngineFault::Memory => "Memory",
            EngineFault::NothingDue => "NothingDue",
        }
    }
}

impl PutFault {
    /// Its name in what the program prints.
    pub fn name(self) -> &'static str
        ensures { result.now ≡ put_fault_name self }
    {
        match self {
            PutFault::BadPoolIndex => "BadPoolIndex",
            PutFault::JournalFull => "JournalFull",
        }
    }
}

impl From<AllocError> for EngineFault {
    ghost from_gives = { λ _ r. r ≡ Memory };

    fn from(_error: AllocError) -> Self {
        EngineFault::Memory
    }
}

/// Why octets are discarded, if they are, by how they were read. Then every world of this
/// application process refuses the request for this cause; else each accepts it.
#[tactic(auto, using(crate::proofs::Refusals::request_discard))]
pub fn discard_of(read: &Result<Tc<'_>, TcFault>) -> Option<Discard>
    ensures cause { result ≡ discard_of read.now }
    ensures answer { (w : World) (by time : ℕ) (octets : List ℕ) →
        read.now ≡ telecommand_of w.apid octets →
        IsDiscard (after w (Asked by time octets)).answer result }
{
    match read {
        Err(TcFault::Discarded(cause)) => Some(*cause),
        Err(TcFault::Rejected(_, _)) | Ok(_) => None,
    }
}
