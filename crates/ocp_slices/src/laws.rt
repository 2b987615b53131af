//! The law of work. The function does nothing when it runs: its contract is the law.
ghost use Rattle.std.specs.Prelude.{ℕ};
ghost use Rattle.ocp_core.specs.Log.{Log};
ghost use Rattle.ocp_slices.specs.Closed.{HasWorked};
ghost use Rattle.ocp_slices.specs.Instructing.{IsInstructed};

use ocp_core::laws::{only_running_procedures_step, refused_events_change_nothing};

/// The world after the workers is the world before them after a list of instruction events of
/// running procedures: each is by one of the workers, of a procedure that runs in the world that
/// the events before it leave, and is done. They are the single events of the entries that came.
pub fn workers_do_instructions_of_running_procedures()
    ensures { (start now : Log) (crew budget turns : ℕ) →
        HasWorked start now crew budget turns → IsInstructed start now crew }
{
    refused_events_change_nothing();
    only_running_procedures_step();
}
