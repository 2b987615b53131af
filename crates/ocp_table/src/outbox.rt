//! The completions that wait to be reported.
ghost use Rattle.std.specs.Prelude.{◌≡◌, ◌++◌};
ghost use Rattle.ocp_table.specs.Clauses.{HasPlaceBeside, dues_at_step_end, dues_by_outcome, failed_completion, places_of};

use crate::control::matches;
use crate::{Called, CompletionFailure, Due, InstructionOutcome, OUTBOX_PLACES, Pending};
use arrayvec::ArrayVec;
use verification::is_completion_asked;

/// The completions that wait to be reported, the oldest first.
pub(crate) type Outbox = ArrayVec<Due, OUTBOX_PLACES>;

/// How many places what is pending takes.
pub(crate) fn places_of(pending: Pending) -> usize
    ensures { result ≡ places_of pending }
{
    match pending {
        Pending::Nothing => 0,
        Pending::Stop(_, _) | Pending::Suspend(_, _) => 1,
    }
}

/// What was pending is overtaken. It is reported whatever the flags of its request are.
pub(crate) fn overtake(outbox: &mut Outbox, pending: Pending)
    requires { HasPlaceBeside outbox.old.items pending }
    ensures { outbox.new.items ≡ outbox.old.items ++ failed_completion pending }
{
    let (Pending::Stop(_, origin) | Pending::Suspend(_, origin)) = pending else {
        return;
    };
    outbox.push(Due {
        origin,
        failure: Some(CompletionFailure::Overtaken),
    });
}

// A step ends: what is pending for it is completed, and reported if the flag of its request is set.
fn end_step(outbox: &mut Outbox, pending: Pending, step: u16)
    requires { HasPlaceBeside outbox.old.items pending }
    ensures { outbox.new.items ≡ outbox.old.items ++ dues_at_step_end pending step }
{
    let (Pending::Stop(wanted, origin) | Pending::Suspend(wanted, origin)) = pending else {
        return;
    };
    if matches(wanted, step) && is_completion_asked(origin.ack) {
        outbox.push(Due {
            origin,
            failure: None,
        });
    }
}

/// Files what an instruction event completes or overtakes.
#[inline(always)]
pub(crate) fn file(outbox: &mut Outbox, pending: &Pending, outcome: InstructionOutcome)
    requires { HasPlaceBeside outbox.old.items pending.now }
    ensures { outbox.new.items ≡ outbox.old.items ++ dues_by_outcome outcome pending.now }
{
    match outcome {
        InstructionOutcome::Called(Called::StepEnd(step)) => end_step(outbox, *pending, step),
        InstructionOutcome::Ended | InstructionOutcome::Faulted(_) => overtake(outbox, *pending),
        InstructionOutcome::Broke | InstructionOutcome::Ran | InstructionOutcome::Called(_) => {}
    }
}
