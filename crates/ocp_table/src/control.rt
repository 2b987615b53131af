//! What requests and instructions set of a procedure.
use crate::{InstructionOutcome, ProcedureFault};
use obcp_types::{PendingOrigin, Status};
use ocp_pool::Called;

/// How a procedure became inactive after its last start.
#[derive(Clone, Copy, PartialEq, Eq, Debug)]
pub enum Cause {
    /// It was not started, or it is active.
    Nothing,
    Exited,
    Stopped,
    Aborted,
    Fault(ProcedureFault),
}

/// What is done at the end of a step: of any step if the number is 0, and else of that one. It has
/// the origin of its request, to which its completion is reported.
#[derive(Clone, Copy)]
pub enum Pending {
    Nothing,
    Stop(u16, PendingOrigin),
    Suspend(u16, PendingOrigin),
}

/// What requests and instructions set.
#[derive(Clone, Copy)]
pub struct Control {
    pub status: Status,
    pub pending: Pending,
    /// The next instruction is done even if a breakpoint is set at its place.
    pub pass: bool,
    pub cause: Cause,
}

/// Whether what is pending for a step is done at the end of this one.
pub(crate) fn matches(wanted: u16, step: u16) -> bool
    ensures { result ≡ matches wanted step }
{
    wanted == 0 || wanted == step
}

ghost use Rattle.std.specs.Prelude.{◌≡◌};
ghost use Rattle.ocp_table.specs.Clauses.{control_by_outcome, control_on_hold, inactive, matches, without_pass};

impl Control {
    /// The control of a procedure that became inactive: nothing is pending.
    pub(crate) fn inactive(cause: Cause) -> Control
        ensures { result ≡ inactive cause }
    {
        Control {
            status: Status::Inactive,
            pending: Pending::Nothing,
            pass: false,
            cause,
        }
    }

    /// Clears the pass flag. Writes nothing if it is clear already.
    #[inline(always)]
    pub(crate) fn end_pass(&mut self)
        ensures { self.new ≡ without_pass self.old }
    {
        if self.pass {
            self.pass = false;
        }
    }

    // The procedure becomes held.
    fn hold(&mut self, pending: Pending)
        ensures { self.new ≡ control_on_hold pending self.old }
    {
        self.status = Status::Held;
        self.pending = pending;
        self.pass = false;
    }

    /// Updates the control after an instruction event with this outcome.
    #[inline(always)]
    pub(crate) fn follow(&mut self, outcome: InstructionOutcome)
        ensures { self.new ≡ control_by_outcome outcome self.old }
    {
        match outcome {
            InstructionOutcome::Broke => self.hold(self.pending),
            InstructionOutcome::Called(Called::StepEnd(step)) => match self.pending {
                Pending::Stop(wanted, _) if matches(wanted, step) => {
                    *self = Control::inactive(Cause::Stopped);
                }
                Pending::Suspend(wanted, _) if matches(wanted, step) => self.hold(Pending::Nothing),
                _ => self.pass = false,
            },
            InstructionOutcome::Ran | InstructionOutcome::Called(_) => self.pass = false,
            InstructionOutcome::Ended => *self = Control::inactive(Cause::Exited),
            InstructionOutcome::Faulted(fault) => {
                *self = Control::inactive(Cause::Fault(fault));
            }
        }
    }
}
