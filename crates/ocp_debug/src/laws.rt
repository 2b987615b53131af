//! Laws on commands and traces. The functions do nothing when they run: their contracts are the
//! laws.
ghost use Rattle.std.specs.Prelude.{◌≡◌, ◌++◌, ℕ, List};
ghost use Rattle.ocp_debug.specs.Clauses.{Command as Asked, Records, Trace as Made, command_effect, get, last_traces, records_by, run_of};

use ocp_table::laws::debugging_keeps_runs;

/// The same records are kept, whether the others are dropped one after another or all at once.
pub fn keeping_is_kept_up()
    ensures { (old new : List Made) →
        last_traces (last_traces old ++ new) ≡ last_traces (old ++ new) }
{}

/// A debugger's command leaves each procedure's image, machine, mailbox and control, and what
/// remains of its budget, as they are.
pub fn commands_keep_runs()
    ensures { (command : Asked) (id q : ℕ) (m : Records) →
        run_of (get (records_by (command_effect command id m) m) q) ≡ run_of (get m q) }
{
    debugging_keeps_runs();
}
