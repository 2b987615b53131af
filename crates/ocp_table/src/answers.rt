//! What became of an event of a procedure.
ghost use Rattle.std.specs.Prelude.{◌≡◌, true};
ghost use Rattle.ocp_table.specs.Clauses.{ends_with, is_done, is_on, step_outcome_of};

use crate::ProcedureFault;
use ocp_pool::Called;

/// What an instruction event did to a running procedure.
#[derive(Clone, Copy)]
pub enum InstructionOutcome {
    /// A breakpoint is set at the place: the procedure is held, and nothing was run.
    Broke,
    Ran,
    /// An engine call was answered.
    Called(Called),
    /// The last exit: the procedure is inactive.
    Ended,
    /// A fault: the procedure is inactive.
    Faulted(ProcedureFault),
}

/// What became of an instruction event. The last three change nothing, and come in this order. A
/// table has no journal, and never answers the last one.
#[derive(Clone, Copy, PartialEq, Eq, Debug)]
pub enum StepOutcome {
    /// A breakpoint is set at the place: the procedure is held, and nothing was run.
    Broke,
    Ran,
    /// An engine call was answered.
    Called,
    /// The last exit: the procedure is inactive.
    Ended,
    /// The number of the fault: the procedure is inactive.
    Faulted(u8),
    NotLoaded,
    NotRunning,
    JournalFull,
}

/// What became of an instruction event, and the number of the step that it ended, if it ended one.
#[derive(Clone, Copy)]
pub struct InstructionAnswer {
    pub outcome: StepOutcome,
    pub step: Option<u16>,
}

/// How far instruction events of one procedure go before their budget is used.
#[derive(Clone, Copy)]
pub enum Extent {
    /// Until it no longer runs, or one of them is refused, held, ends it or faults.
    Slice,
    /// Until a slice would end, or one of them ends a step.
    Round,
}

/// What became of a slice.
#[derive(Clone, Copy)]
pub struct Slice {
    /// How many instruction events there were.
    pub count: u32,
    /// The outcome of the last one.
    pub last: StepOutcome,
}

/// What became of a round.
#[derive(Clone, Copy)]
pub struct Round {
    /// How many instruction events there were.
    pub count: u32,
    /// The outcome of the last one.
    pub last: StepOutcome,
    /// The number of the step that it ended, if it ended one.
    pub step: Option<u16>,
}

impl Extent {
    /// Whether events of this extent end after one that ended this step.
    #[inline(always)]
    pub fn ends_with(self, step: Option<u16>) -> bool
        ensures { result ≡ ends_with self step }
    {
        match self {
            Extent::Slice => false,
            Extent::Round => step.is_some(),
        }
    }
}

impl StepOutcome {
    /// The outcome of an instruction event, by what it did to its procedure.
    #[inline(always)]
    pub(crate) fn of(outcome: InstructionOutcome) -> StepOutcome
        ensures outcome { result ≡ step_outcome_of outcome }
        ensures done { is_done result ≡ true }
    {
        match outcome {
            InstructionOutcome::Broke => StepOutcome::Broke,
            InstructionOutcome::Ran => StepOutcome::Ran,
            InstructionOutcome::Called(_) => StepOutcome::Called,
            InstructionOutcome::Ended => StepOutcome::Ended,
            InstructionOutcome::Faulted(fault) => StepOutcome::Faulted(fault.number()),
        }
    }

    /// Whether a slice goes on after it, as long as the procedure runs.
    #[inline(always)]
    pub fn is_on(self) -> bool
        ensures { result ≡ is_on self }
    {
        matches!(self, StepOutcome::Ran | StepOutcome::Called)
    }
}
