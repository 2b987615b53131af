//! The engine for C: one export for each call of the header `ocp_engine.h`. A handle holds an
//! engine whose journal is handed down, and each export does with it what the engine's call does.
//! The header gives each call's units, and its refusals in their order.
#![tactic(auto)]

ghost use Rattle.std.specs.Prelude.{◌≡◌, ◌==◌, ◌+◌, if◌then◌else◌, length, slice_get, Ok, Err};
ghost use Rattle.std.specs.declared.option.Option.TheVariants.{None, Some};
ghost use Rattle.ocp_debug.specs.declared.command.Command.TheVariants as command;
ghost use Rattle.ocp_table.specs.Slices.{slice_of};
ghost use Rattle.ocp_world.specs.World.{Step, Put};
ghost use Rattle.ocp_core.specs.Log.{expand};
ghost use Rattle.ocp_flight.specs.Flown.{Flown, world_of};
ghost use Rattle.ocp_flight.specs.Calls.{answer_in, flown_after, slice_in, slice_after, round_in, round_after};
ghost use Rattle.ocp_c.specs.declared.status.Status.{Status as Refusal};
ghost use Rattle.ocp_c.specs.declared.status.Status.TheVariants as status;
ghost use Rattle.ocp_c.specs.Statuses.{number_of, status_of, status_of_put};
ghost use Rattle.ocp_c.specs.Calls.{Obeys, answers, leaves, writes, outcome_of, outcome_or, count_of_slice, number_by_outcome, put_result_of, step_number, step_of_round, word_status, word_or};
ghost use Rattle.ocp_c.specs.Opening.{opening, IsOpened};

mod exchange;
mod handle;
mod journal;
pub mod laws;
mod loose;
mod open_engine;
mod opening;
mod outcome;
mod procedure;
mod reading;
mod record;
mod size;
mod status;

pub use handle::Handle;
use ocp_flight::{Command, StepOutcome};
pub use open_engine::OpenEngine;
use opening::open;
pub use outcome::Outcome;
pub use procedure::Procedure;
pub use record::Record;
pub use status::Status;
use status::write_value;
use std::alloc::Global;

// The seat of every event that a call of C makes.
pub(crate) const SEAT: u16 = 0;

/// The version of the interface: the major one in the upper 16 bits, the minor one in the lower.
pub const VERSION: u32 = 0x0001_0001;

/// The version of the interface that the library has.
#[unsafe(no_mangle)]
pub extern "C" fn ocp_version() -> u32
    ensures { result ≡ VERSION }
{
    VERSION
}

/// Opens an engine.
#[unsafe(no_mangle)]
pub extern "C" fn ocp_open(
    alloc: Global,
    handle: &mut Handle,
    profile: u32,
    apid: u32,
    pool_words: u32,
    entries: u32,
    octets: u32,
) -> u32
    ensures already { (flown : Flown) → handle.old.held ≡ Some flown →
        (result ≡ number_of status.AlreadyOpen) × (handle.new.held ≡ Some flown) }
    ensures refused { (why : Refusal) → handle.old.held ≡ None →
        opening profile apid pool_words entries octets ≡ Err why →
        (result ≡ number_of why) × (handle.new.held ≡ None) }
    ensures opened { (flown : Flown) → handle.old.held ≡ None →
        opening profile apid pool_words entries octets ≡ Ok flown →
        IsOpened flown result handle.new.held }
{
    if let Some(held) = handle.take(alloc) {
        handle.put(held);
        return Status::AlreadyOpen.number();
    }
    match open(alloc, profile, apid, pool_words, entries, octets) {
        Ok(opened) => {
            handle.put(opened);
            Status::Done.number()
        }
        Err(refusal) => refusal.number(),
    }
}

/// Gives back all memory of the engine.
#[unsafe(no_mangle)]
pub extern "C" fn ocp_close(alloc: Global, handle: &mut Handle) -> u32
    ensures status { result ≡ answers handle.old.held (λ flown. status.Done) }
    ensures closed { handle.new.held ≡ None }
{
    match handle.take(alloc) {
        Some(_engine) => Status::Done.number(),
        None => Status::NotOpen.number(),
    }
}

/// Does one instruction of a running procedure.
#[unsafe(no_mangle)]
pub extern "C" fn ocp_step(
    alloc: Global,
    handle: &mut Handle,
    id: u16,
    outcome: &mut Outcome,
) -> u32
    ensures status { result ≡ answers handle.old.held
        (λ flown. status_of (outcome_of (answer_in flown (Step 0 id)))) }
    ensures engine { handle.new.held ≡
        leaves handle.old.held (λ flown. flown_after flown (Step 0 id)) }
    ensures outcome { outcome.new ≡ writes handle.old.held outcome.old
        (λ flown. outcome_or (outcome_of (answer_in flown (Step 0 id))) outcome.old) }
{
    let Some(done) = handle.with_engine(alloc, |engine| engine.step(SEAT, id)) else {
        return Status::NotOpen.number();
    };
    outcome.show(done);
    Status::from(done).number()
}

/// Does instructions of one procedure, up to a budget.
#[unsafe(no_mangle)]
pub extern "C" fn ocp_slice(
    alloc: Global,
    handle: &mut Handle,
    id: u16,
    budget: u32,
    count: &mut u32,
    last: &mut Outcome,
) -> u32
    ensures status { result ≡ answers handle.old.held (λ flown. if budget == 0
        then status.NoBudget else status_of (slice_in flown 0 id budget).last) }
    ensures engine { handle.new.held ≡ leaves handle.old.held (λ flown. if budget == 0
        then flown else slice_after flown 0 id budget) }
    ensures count { count.new ≡ writes handle.old.held count.old (λ flown. if budget == 0
        then count.old else count_of_slice (slice_in flown 0 id budget) count.old) }
    ensures last { last.new ≡ writes handle.old.held last.old (λ flown. if budget == 0
        then last.old else outcome_or (slice_in flown 0 id budget).last last.old) }
{
    if budget == 0 {
        return handle.answer(alloc, |_| Status::NoBudget);
    }
    let Some(slice) = handle.with_engine(alloc, |engine| engine.slice(SEAT, id, budget)) else {
        return Status::NotOpen.number();
    };
    tell(slice.last, slice.count, count);
    last.show(slice.last);
    Status::from(slice.last).number()
}

// Writes a number of a slice whose last instruction was done.
fn tell(last: StepOutcome, number: u32, told: &mut u32)
    ensures { told.new ≡ number_by_outcome last number told.old }
{
    match last {
        StepOutcome::NotLoaded | StepOutcome::NotRunning | StepOutcome::JournalFull => {}
        _ => *told = number,
    }
}

// The number of the step that ended, or 65,536 if none did.
fn step_number(step: Option<u16>) -> u32
    ensures { result ≡ step_number step }
{
    match step {
        Some(step) => u32::from(step),
        None => 65536,
    }
}

/// Does instructions of one procedure, up to a budget or to the first that ends a step.
#[unsafe(no_mangle)]
pub extern "C" fn ocp_round(
    alloc: Global,
    handle: &mut Handle,
    id: u16,
    budget: u32,
    count: &mut u32,
    last: &mut Outcome,
    step: &mut u32,
) -> u32
    ensures status { result ≡ answers handle.old.held (λ flown. if budget == 0
        then status.NoBudget else status_of (round_in flown 0 id budget).last) }
    ensures engine { handle.new.held ≡ leaves handle.old.held (λ flown. if budget == 0
        then flown else round_after flown 0 id budget) }
    ensures count { count.new ≡ writes handle.old.held count.old (λ flown. if budget == 0
        then count.old else count_of_slice (slice_of (round_in flown 0 id budget)) count.old) }
    ensures last { last.new ≡ writes handle.old.held last.old (λ flown. if budget == 0
        then last.old else outcome_or (round_in flown 0 id budget).last last.old) }
    ensures step { step.new ≡ writes handle.old.held step.old (λ flown. if budget == 0
        then step.old else step_of_round (round_in flown 0 id budget) step.old) }
{
    if budget == 0 {
        return handle.answer(alloc, |_| Status::NoBudget);
    }
    let Some(round) = handle.with_engine(alloc, |engine| engine.round(SEAT, id, budget)) else {
        return Status::NotOpen.number();
    };
    tell(round.last, round.count, count);
    tell(round.last, step_number(round.step), step);
    last.show(round.last);
    Status::from(round.last).number()
}

/// Sets a breakpoint at the slot of an instruction.
#[unsafe(no_mangle)]
pub extern "C" fn ocp_set_break(alloc: Global, handle: &mut Handle, id: u16, place: u16) -> u32
    ensures does { Obeys handle.old.held id (command.SetBreak place) result handle.new.held }
{
    let command = Command::SetBreak(place);
    handle.answer(alloc, |engine| engine.command(SEAT, id, command).into())
}

/// Clears the breakpoint at a slot.
#[unsafe(no_mangle)]
pub extern "C" fn ocp_clear_break(alloc: Global, handle: &mut Handle, id: u16, place: u16) -> u32
    ensures does { Obeys handle.old.held id (command.ClearBreak place) result handle.new.held }
{
    let command = Command::ClearBreak(place);
    handle.answer(alloc, |engine| engine.command(SEAT, id, command).into())
}

/// Sets whether each instruction of a procedure leaves a trace record.
#[unsafe(no_mangle)]
pub extern "C" fn ocp_trace(alloc: Global, handle: &mut Handle, id: u16, on: bool) -> u32
    ensures does { Obeys handle.old.held id (command.SetTrace on) result handle.new.held }
{
    let command = Command::SetTrace(on);
    handle.answer(alloc, |engine| engine.command(SEAT, id, command).into())
}

/// The pool word at an index.
#[unsafe(no_mangle)]
pub extern "C" fn ocp_pool_word(
    alloc: Global,
    handle: &mut Handle,
    index: u64,
    word: &mut u64,
) -> u32
    ensures status { result ≡ answers handle.old.held
        (λ flown. word_status (slice_get (world_of flown).pool index)) }
    ensures engine { handle.new.held ≡ handle.old.held }
    ensures word { word.new ≡ writes handle.old.held word.old
        (λ flown. word_or (slice_get (world_of flown).pool index) word.old) }
{
    match handle.with_engine(alloc, |engine| engine.pool_word(index)) {
        Some(Some(found)) => {
            *word = found;
            Status::Done.number()
        }
        Some(None) => Status::NoWord.number(),
        None => Status::NotOpen.number(),
    }
}

/// Writes the pool word at an index from outside.
#[unsafe(no_mangle)]
pub extern "C" fn ocp_put_word(alloc: Global, handle: &mut Handle, index: u64, value: u64) -> u32
    ensures status { result ≡ answers handle.old.held (λ flown.
        status_of_put (put_result_of (answer_in flown (Put 0 index value)))) }
    ensures engine { handle.new.held ≡ leaves handle.old.held (λ flown.
        flown_after flown (Put 0 index value)) }
{
    handle.answer(alloc, |engine| engine.put_word(SEAT, index, value).into())
}

/// How many events there were.
#[unsafe(no_mangle)]
pub extern "C" fn ocp_events(alloc: Global, handle: &mut Handle, events: &mut u64) -> u32
    ensures status { result ≡ answers handle.old.held (λ flown. status.Done) }
    ensures engine { handle.new.held ≡ handle.old.held }
    ensures events { events.new ≡ writes handle.old.held events.old
        (λ flown. flown.base.events + length (expand flown.entries)) }
{
    let given = handle.with_engine(alloc, |engine| engine.events());
    write_value(given.ok_or(Status::NotOpen), events)
}
