//! Laws on worlds, events and journals. The functions do nothing when they run: their contracts are
//! the laws.
ghost use Rattle.std.specs.Prelude.{◌≡◌, ◌≤◌, ℕ, true, false};
ghost use Rattle.ocp_core.specs.Clauses.{Answer, CommitOutcome, Commits, Enters, Event, Grows, IsRun, Log, Step, WorkContents, after, commit_entries, count_entries, event_entries, is_accepted, is_full, slice_entries, slice_in, slice_log, world_of};

use ocp_world::instructions_done_alone_are_events;

mod budgets;
mod completions;
mod procedures;

pub use budgets::budgets_are_kept;
pub use completions::{completions_are_reported_once_at_most, each_completion_stands_in_one_place};
pub use ocp_world::laws::{
    a_debugger_changes_breakpoints_and_trace_flags_alone, an_instruction_changes_its_own_procedure,
    instructions_are_answered_by_their_outcomes, only_running_procedures_step,
    only_starts_and_own_instructions_change_machines, refused_events_change_nothing,
    requests_keep_or_start_machines, trace_records_are_appended_by_instructions,
    worlds_have_no_full_journal,
};
pub use procedures::{
    engine_calls_answer_from_the_pool, instructions_of_two_procedures_change_places,
    machines_follow_from_their_own_events, own_events_are_those_of_the_image,
    the_machine_faults_by_its_image, the_pool_follows_from_its_operations,
    words_are_taken_in_the_order_sent,
};

/// The mark of each new entry of a journal is the answer that was given to it, and the older
/// entries and marks stay. What is refused adds none.
pub fn entries_are_marked_by_their_answers()
    ensures event { (old new : Log) (e : Event) (answer : Answer) → Enters old new e answer →
        Grows old new (event_entries e answer) }
    ensures slice { (log : Log) (by id budget : ℕ) → 1 ≤ budget →
        Grows log (slice_log log by id budget) (slice_entries by id (slice_in log by id budget)) }
    ensures accepted_slice { (log : Log) (by id budget : ℕ) →
        is_accepted (after (world_of log) (Step by id)).answer ≡ true → is_full log ≡ false →
        let slice = slice_in log by id budget in
        Grows log (slice_log log by id budget) (count_entries by id slice.count slice.last) }
    ensures commit { (old new : Log) (by : ℕ) (work : WorkContents) (outcome : CommitOutcome) →
        IsRun work → Commits old new by work outcome →
        Grows old new (commit_entries by work.id outcome) }
{
    instructions_done_alone_are_events();
}
