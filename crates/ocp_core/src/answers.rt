//! What a run answers.

use crate::{DebugFault, EngineFault, PutFault, Reports, StepOutcome};
use std::alloc::{Allocator, Global};
use thiserror::Error;

/// What an event of a run was answered.
#[derive(Drop)]
pub enum Answer<A: Allocator = Global> {
    /// The answer to a request or to a drain.
    Requested(Result<Reports<A>, EngineFault>),
    Stepped(StepOutcome),
    Commanded(Result<(), DebugFault>),
    Written(Result<(), PutFault>),
}

/// Why a run ended before an event.
#[derive(Clone, Copy, PartialEq, Eq, Debug, Error)]
pub enum RunRefusal {
    #[error("there is no room for a further journal entry")]
    JournalFull,
    #[error("out of memory")]
    Memory,
}

/// Where a run ended: the refusal, the index of the refused event, and the answers of the events
/// before it, which keep their effect.
#[derive(Drop)]
pub struct RunFault<A: Allocator = Global> {
    pub refusal: RunRefusal,
    pub index: usize,
    pub answers: Vec<Answer<A>, A>,
}

/// What became of a work. The first three change nothing, and come in this order.
#[derive(Clone, Copy, PartialEq, Eq, Debug)]
pub enum CommitOutcome {
    /// It has no instruction.
    Empty,
    /// Its procedure is not loaded, does not run, or is not what the work began with: its program,
    /// machine, breakpoints, pass flag, trace flag or remaining budget is another.
    Stale,
    /// There is no room for a further journal entry.
    JournalFull,
    /// This many instructions were done.
    Committed(u32),
}
