//! The instruction event, and the trace record that it makes.
ghost use Rattle.std.specs.Prelude.{◌≡◌, ◌++◌, option_to_list};
ghost use Rattle.ocp_debug.specs.Clauses.{ExecutesStep, Step, effect_in, get, last_traces, step_ended, trace_after, traced_place, traces_by};

use crate::{StepOutcome, Trace, TraceRing};
use ocp_table::{InstructionAnswer, Place, Pool, Table};
use std::alloc::Allocator;

/// The place of the next instruction, if the procedure is traced.
fn traced_place<A: Allocator>(table: &Table<A>, id: u16, at: Place) -> Option<u16>
    ensures { result ≡ traced_place (get table.now.records id) }
{
    let record = table.record_at(id, at)?;
    if !record.traced {
        return None;
    }
    Some(record.execution.machine().place())
}

/// Adds the record of the instruction at this place, if it was done and is traced, by its outcome
/// and the table after it.
fn note<A: Allocator>(
    ring: &mut TraceRing<A>,
    table: &Table<A>,
    id: u16,
    at: Place,
    place: Option<u16>,
    outcome: StepOutcome,
)
    ensures { ring.new ≡ last_traces (ring.old
        ++ option_to_list (trace_after id place outcome (get table.now.records id))) }
{
    // There are no more records than are kept, by the contract of `len`.
    let _few = ring.len();
    let (
        Some(place),
        StepOutcome::Ran | StepOutcome::Called | StepOutcome::Ended | StepOutcome::Faulted(_),
    ) = (place, outcome) else {
        return;
    };
    let Some(record) = table.record_at(id, at) else {
        return;
    };
    let Some(line) = record.execution.program().encoding_at(place) else {
        return;
    };
    ring.push(Trace {
        id,
        place,
        outcome,
        registers: record.execution.machine().registers(),
        line,
    });
}

/// The instruction event of a procedure, by its place: its next instruction is done, or a
/// breakpoint holds it, or its budget is spent, which is a fault. It is refused as not loaded, or
/// as not running, and then changes nothing. An instruction of a traced procedure leaves its record
/// in the ring, and so does a fault.
pub fn instruction<A: Allocator>(
    table: &mut Table<A>,
    id: u16,
    at: Place,
    pool: &mut Pool<A>,
    ring: &mut TraceRing<A>,
) -> InstructionAnswer
    ensures event { ExecutesStep id table.old table.new pool.old pool.new result.outcome }
    ensures step { result.step ≡ step_ended (effect_in (Step pool.old) id table.old.records) }
    ensures ring { ring.new ≡
        last_traces (ring.old
        ++ traces_by (effect_in (Step pool.old) id table.old.records) table.old.records) }
{
    let place = traced_place(table, id, at);
    let answer = table.instruction_at(id, at, pool);
    note(ring, table, id, at, place, answer.outcome);
    answer
}
