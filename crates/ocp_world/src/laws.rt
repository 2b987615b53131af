//! Laws on worlds and events. The functions do nothing when they run: their contracts are the laws.
ghost use Rattle.std.specs.Prelude.{◌≡◌, ◌≢◌, ◌+◌, ◌<◌, ℕ, false, nat_lt, length, slice_set, List, [], Err, if◌then◌else◌};
ghost use Rattle.ocp_world.specs.Clauses.{Command as Asked, Commanded, Debug, Drain, Event, IsAppended, IsKeptOrStarted, JournalFull, Put, Request, Requested, Step, Stepped, World, Written, after, get, is_accepted, is_running, machine_of, may_change_machine, next_outcome, replay_from, run_of};
ghost use Rattle.ocp_world.specs.Alike.{AlikeWorldsStayAlike, ResumedWorldsAreAlike};
ghost use Rattle.ocp_debug.specs.declared.command.DebugFault.TheVariants as debug;
ghost use Rattle.ocp_table.specs.declared.answers.StepOutcome.TheVariants as outcome;
ghost use Rattle.ocp_world.specs.declared.answers.PutFault.TheVariants as put;

use ocp_table::laws::{
    a_directive_changes_its_own_procedure, debugging_keeps_runs, other_requests_keep_machines,
};

/// A refused event changes nothing at all.
#[tactic(auto, using(crate::proofs::Refusals::refused_keeps))]
pub fn refused_events_change_nothing()
    ensures { (w : World) (e : Event) →
        is_accepted (after w e).answer ≡ false → (after w e).world ≡ w }
{}

/// The number of accepted events rises by one with each of them.
pub fn accepted_events_are_counted()
    ensures { (w : World) (e : Event) → (after w e).world.events ≡
        (if is_accepted (after w e).answer then w.events + 1 else w.events) }
{}

/// Only a running procedure steps: an instruction of any other is refused and changes nothing.
pub fn only_running_procedures_step()
    ensures refused { (w : World) (by id : ℕ) →
        is_running (get w.records id) ≡ false → is_accepted (after w (Step by id)).answer ≡ false }
    ensures world { (w : World) (by id : ℕ) →
        is_running (get w.records id) ≡ false → (after w (Step by id)).world ≡ w }
{
    ocp_table::laws::only_running_procedures_step();
}

/// An instruction event is answered by the outcome that decides whether a slice goes on.
pub fn instructions_are_answered_by_their_outcomes()
    ensures { (w : World) (by id : ℕ) →
        (after w (Step by id)).answer ≡ Stepped (next_outcome w id) }
{}

/// An instruction leaves every other procedure's record as it is.
pub fn an_instruction_changes_its_own_procedure()
    ensures { (w : World) (by id other : ℕ) →
        other ≢ id → get (after w (Step by id)).world.records other ≡ get w.records other }
{
    a_directive_changes_its_own_procedure();
}

/// A request leaves each procedure's machine as it is, starts it, or unloads the procedure. It
/// never changes a machine in the middle of its run.
pub fn requests_keep_or_start_machines()
    ensures { (w : World) (by time : ℕ) (octets : List ℕ) (id : ℕ) →
        let next = (after w (Request by time octets)).world in
        IsKeptOrStarted (machine_of (get w.records id)) (machine_of (get next.records id)) }
{
    ocp_table::laws::requests_keep_or_start_machines();
}

/// A drain empties the outbox, and leaves all procedures, the pool and the trace records as they
/// are.
#[tactic(auto, using(crate::proofs::Lawful::drain_empties_outbox, crate::proofs::Lawful::drain_keeps_records, crate::proofs::Lawful::drain_keeps_pool, crate::proofs::Lawful::drain_keeps_traces))]
pub fn a_drain_empties_the_outbox_alone()
    ensures outbox { (w : World) (by time : ℕ) → (after w (Drain by time)).world.outbox ≡ [] }
    ensures procedures { (w : World) (by time : ℕ) →
        (after w (Drain by time)).world.records ≡ w.records }
    ensures pool { (w : World) (by time : ℕ) → (after w (Drain by time)).world.pool ≡ w.pool }
    ensures traces { (w : World) (by time : ℕ) → (after w (Drain by time)).world.traces ≡ w.traces }
{}

/// A write of a pool word from outside is accepted exactly if the pool has a word at its index.
/// Then that word becomes the value; every other word, all procedures, the completions that wait,
/// the count of reports and the trace records stay.
#[tactic(auto, using(crate::proofs::Putting::put_accepted, crate::proofs::Putting::put_word_set, crate::proofs::Putting::put_keeps_records, crate::proofs::Putting::put_keeps_outbox, crate::proofs::Putting::put_keeps_reports, crate::proofs::Putting::put_keeps_traces))]
pub fn a_write_from_outside_changes_its_word_alone()
    ensures accepted { (w : World) (by index value : ℕ) →
        is_accepted (after w (Put by index value)).answer ≡ nat_lt index (length w.pool) }
    ensures word { (w : World) (by index value : ℕ) → index < length w.pool →
        (after w (Put by index value)).world.pool ≡ slice_set w.pool index value }
    ensures procedures { (w : World) (by index value : ℕ) →
        (after w (Put by index value)).world.records ≡ w.records }
    ensures outbox { (w : World) (by index value : ℕ) →
        (after w (Put by index value)).world.outbox ≡ w.outbox }
    ensures reports { (w : World) (by index value : ℕ) →
        (after w (Put by index value)).world.reports ≡ w.reports }
    ensures traces { (w : World) (by index value : ℕ) →
        (after w (Put by index value)).world.traces ≡ w.traces }
{}

/// A procedure's machine changes only by its load, its unload, its activation and, while it runs,
/// its own instruction. Every other event leaves it as it is.
pub fn only_starts_and_own_instructions_change_machines()
    ensures { (w : World) (e : Event) (id : ℕ) →
        may_change_machine w e id ≡ false →
        machine_of (get (after w e).world.records id) ≡ machine_of (get w.records id) }
{
    a_directive_changes_its_own_procedure();
    ocp_table::laws::only_running_procedures_step();
    other_requests_keep_machines();
    debugging_keeps_runs();
}

/// A debugger's command changes at most breakpoints and trace flags of procedures. It leaves the
/// pool, the completions that wait, the count of reports and the trace records as they are.
#[tactic(auto, using(crate::proofs::Lawful::command_keeps_pool, crate::proofs::Lawful::command_keeps_outbox, crate::proofs::Lawful::command_keeps_traces))]
pub fn a_debugger_changes_breakpoints_and_trace_flags_alone()
    ensures procedures { (w : World) (by own id : ℕ) (command : Asked) →
        let next = (after w (Debug by own command)).world in
        run_of (get next.records id) ≡ run_of (get w.records id) }
    ensures pool { (w : World) (by own : ℕ) (command : Asked) →
        (after w (Debug by own command)).world.pool ≡ w.pool }
    ensures outbox { (w : World) (by own : ℕ) (command : Asked) →
        (after w (Debug by own command)).world.outbox ≡ w.outbox }
    ensures reports { (w : World) (by own : ℕ) (command : Asked) →
        (after w (Debug by own command)).world.reports ≡ w.reports }
    ensures traces { (w : World) (by own : ℕ) (command : Asked) →
        (after w (Debug by own command)).world.traces ≡ w.traces }
{
    debugging_keeps_runs();
}

/// Trace records are only ever appended, and by instructions alone.
#[tactic(auto, using(crate::proofs::Lawful::traces_appended, crate::proofs::Lawful::request_keeps_traces, crate::proofs::Lawful::drain_keeps_traces))]
pub fn trace_records_are_appended_by_instructions()
    ensures appended { (w : World) (es : List Event) →
        IsAppended w.traces (replay_from w es).traces }
    ensures request { (w : World) (by time : ℕ) (octets : List ℕ) →
        (after w (Request by time octets)).world.traces ≡ w.traces }
    ensures drain { (w : World) (by time : ℕ) →
        (after w (Drain by time)).world.traces ≡ w.traces }
{}

/// No world answers that the journal is full: a world has no journal.
#[tactic(auto, using(crate::proofs::Refusals::request_has_room, crate::proofs::Refusals::step_has_room, crate::proofs::Refusals::command_has_room, crate::proofs::Refusals::put_has_room))]
pub fn worlds_have_no_full_journal()
    ensures request { (w : World) (e : Event) → (after w e).answer ≢ Requested (Err JournalFull) }
    ensures step { (w : World) (e : Event) → (after w e).answer ≢ Stepped outcome.JournalFull }
    ensures command { (w : World) (e : Event) →
        (after w e).answer ≢ Commanded (Err debug.JournalFull) }
    ensures put { (w : World) (e : Event) → (after w e).answer ≢ Written (Err put.JournalFull) }
{}

/// Worlds that differ in trace records and in whole rounds of the sequence counts, as a world and
/// what a checkpoint keeps of it, give the same answers to all later events.
pub fn resumed_worlds_answer_alike()
    ensures alike { AlikeWorldsStayAlike }
    ensures resumed { ResumedWorldsAreAlike }
{}
