//! What is shown of a procedure, for C.

ghost use Rattle.std.specs.Prelude.{◌≡◌};
ghost use Rattle.ocp_c.specs.Reading.{procedure_of, cause_number, fault_of_cause, pending_number, step_of_pending, has_budget, budget_left};

use ocp_table::{Cause, Pending, View};

/// What is shown of a procedure, in the fields and numbers of the header's `ocp_view`.
#[repr(C)]
#[derive(Clone, Copy)]
pub struct Procedure {
    pub status: u32,
    pub cause: u32,
    pub fault: u32,
    pub place: u32,
    pub depth: u32,
    pub pending: u32,
    pub pending_step: u32,
    pub has_budget: u32,
    pub remaining: u32,
}

// The number of a cause, and that of its fault.
fn cause_numbers(cause: Cause) -> (u32, u32)
    ensures cause { result.0 ≡ cause_number cause }
    ensures fault { result.1 ≡ fault_of_cause cause }
{
    match cause {
        Cause::Nothing => (0, 0),
        Cause::Exited => (1, 0),
        Cause::Stopped => (2, 0),
        Cause::Aborted => (3, 0),
        Cause::Fault(fault) => (4, u32::from(fault.number())),
    }
}

// The number of what is pending, and its step.
fn pending_numbers(pending: Pending) -> (u32, u32)
    ensures pending { result.0 ≡ pending_number pending }
    ensures step { result.1 ≡ step_of_pending pending }
{
    match pending {
        Pending::Nothing => (0, 0),
        Pending::Stop(step, _) => (1, u32::from(step)),
        Pending::Suspend(step, _) => (2, u32::from(step)),
    }
}

// Whether a budget is set, and how many instructions are left of it.
fn budget_numbers(remaining: Option<u32>) -> (u32, u32)
    ensures set { result.0 ≡ has_budget remaining }
    ensures left { result.1 ≡ budget_left remaining }
{
    match remaining {
        None => (0, 0),
        Some(remaining) => (1, remaining),
    }
}

/// The procedure of a view.
impl From<View> for Procedure {
    ghost from_gives = { λ view procedure. procedure ≡ procedure_of view };

    fn from(view: View) -> Procedure {
        let (cause, fault) = cause_numbers(view.cause);
        let (pending, pending_step) = pending_numbers(view.pending);
        let (has_budget, remaining) = budget_numbers(view.remaining);
        let depth = if view.depth < 4_294_967_296 {
            view.depth as u32
        } else {
            4_294_967_295
        };
        Procedure {
            status: u32::from(view.status.code()),
            cause,
            fault,
            place: u32::from(view.place),
            depth,
            pending,
            pending_step,
            has_budget,
            remaining,
        }
    }
}
