//! The calls of an engine, over any store of its entries. Each takes that store and the state that
//! the entries make.

ghost use Rattle.std.specs.Prelude.{◌≡◌, ◌≤◌, ◌<◌, true, Err, IfOk, OnOk, OnErr};
ghost use Rattle.ocp_table.specs.Slices.{slice_of};
ghost use Rattle.ocp_table.specs.declared.answers.Extent.TheVariants as extents;
ghost use Rattle.ocp_world.specs.World as world;
ghost use Rattle.ocp_world.specs.declared.answers.EngineFault.TheVariants as engine;
ghost use Rattle.ocp_world.specs.Mirror.State.{IsWorld, with_packets};
ghost use Rattle.ocp_core.specs.Log as logs;
ghost use Rattle.ocp_core.specs.Clauses.{MAX_POOL_WORDS, Answers, Commanded, Debug, Put, Stepped, Written, answer_at, most_events, round_at, slice_at, slice_store, event_store};

use crate::{
    Command, DebugFault, EngineFault, Event, PutFault, RequestStore, Round, StepOutcome, Store,
};
use ocp_reports::PacketBuffer;
use ocp_world::{Extent, State, discard_of};
use pus_fields::read_tc;
use std::alloc::Allocator;

/// Does instructions of one procedure until the budget is used, the procedure no longer runs, or an
/// instruction ends it or faults; a round also ends with the first instruction that ends a step.
/// They are one entry. Refused, in this order, if the procedure is not loaded, if it is not
/// running, and if there is no room for the entry: then the count is 0, the last outcome is the
/// refusal, and nothing is changed.
#[inline(always)]
pub fn instructions<S: Store, A: Allocator>(
    store: &mut S,
    state: &mut State<A>,
    by: u16,
    id: u16,
    budget: u32,
    extent: Extent,
) -> Round
    requires some { 1 ≤ budget }
    requires stands { IsWorld (S.world store.old) state.old }
    ensures slice { slice_of result ≡ slice_at S.world S.is_full store.old by id
        (most_events extent (S.world store.old) by id budget) }
    ensures round { extent ≡ extents.Round →
        result ≡ round_at S.world S.is_full store.old by id budget }
    ensures store { store.new ≡ slice_store S.world S.is_full S.with_entry store.old by id
        (most_events extent (S.world store.old) by id budget) }
    ensures world { IsWorld (S.world store.new) state.new }
    ensures within { result.count ≤ budget }
{
    // Without room none is done, and only the refusal is looked for.
    if store.is_full(&Event::Step { by, id }) {
        let place = state.table.place(id);
        let last = match state.table.running(id, place) {
            Ok(()) => StepOutcome::JournalFull,
            Err(refusal) => refusal,
        };
        return Round {
            count: 0,
            last,
            step: None,
        };
    }
    let round = state.instructions(id, budget, extent);
    // A refusal is that of the first one.
    if let StepOutcome::NotLoaded
    | StepOutcome::NotRunning
    | StepOutcome::JournalFull = round.last
    {
        return Round {
            count: 0,
            last: round.last,
            step: None,
        };
    }
    store.push_steps(by, id, round.count, round.last);
    round
}

/// Does one instruction of a running procedure. Refused, in this order, if the procedure is not
/// loaded, if it is not running, and if there is no room for an entry; then nothing is changed.
pub fn step<S: Store, A: Allocator>(
    store: &mut S,
    state: &mut State<A>,
    by: u16,
    id: u16,
) -> StepOutcome
    requires stands { IsWorld (S.world store.old) state.old }
    ensures answer { Stepped result ≡
        answer_at S.world S.is_full store.old (world.Step by id) }
    ensures store { store.new ≡
        event_store S.world S.is_full S.with_entry store.old (world.Step by id) }
    ensures world { IsWorld (S.world store.new) state.new }
{
    instructions(store, state, by, id, 1, Extent::Slice).last
}

/// Does a debugger's command of a seat. Refused as the command is, and after that if there is no
/// room for its entry; then nothing is changed.
pub fn command<S: Store, A: Allocator>(
    store: &mut S,
    state: &mut State<A>,
    by: u16,
    id: u16,
    command: Command,
) -> Result<(), DebugFault>
    requires stands { IsWorld (S.world store.old) state.old }
    ensures answer { Commanded result ≡
        answer_at S.world S.is_full store.old (Debug by id command) }
    ensures store { store.new ≡
        event_store S.world S.is_full S.with_entry store.old (Debug by id command) }
    ensures world { IsWorld (S.world store.new) state.new }
{
    let decided = state.decide(id, command)?;
    if store.is_full(&Event::of_command(by, id, command)) {
        return Err(DebugFault::JournalFull);
    }
    state.enact(id, decided);
    store.push_command(by, id, command);
    Ok(())
}

/// Writes the pool word at an index from outside: nothing else changes, and no memory is taken.
/// Refused, in this order, if the pool has no such word, and if there is no room for its entry;
/// then nothing is changed.
pub fn put_word<S: Store, A: Allocator>(
    store: &mut S,
    state: &mut State<A>,
    by: u16,
    index: u64,
    value: u64,
) -> Result<(), PutFault>
    requires stands { IsWorld (S.world store.old) state.old }
    ensures answer { Written result ≡
        answer_at S.world S.is_full store.old (Put by index value) }
    ensures store { store.new ≡
        event_store S.world S.is_full S.with_entry store.old (Put by index value) }
    ensures world { IsWorld (S.world store.new) state.new }
    ensures word { OnOk result (index < MAX_POOL_WORDS) }
{
    let Some(word) = state.word_index(index) else {
        return Err(PutFault::BadPoolIndex);
    };
    if store.is_full(&Event::PutWord { by, index, value }) {
        return Err(PutFault::JournalFull);
    }
    state.put_word(word, value);
    store.push_word(by, word, value);
    Ok(())
}

/// Takes the octets of a telecommand packet from a seat, at a time in whole seconds, and writes its
/// reports. Refused, in this order, if the octets are discarded, if there is no room for an entry,
/// and if the keeper finds no memory; then nothing is changed.
pub fn request<S: RequestStore, A: Allocator>(
    store: &mut S,
    state: &mut State<A>,
    keeper: &mut S::Keeper,
    by: u16,
    time: u32,
    octets: &[u8],
    packets: &mut PacketBuffer<A>,
) -> Result<S::Receipt, EngineFault>
    requires stands { IsWorld (S.world store.old) state.old }
    ensures answer { Answers (with_packets result packets.new)
        (answer_at S.world S.is_full store.old (world.Request by time octets.now)) }
    ensures store { OnOk result (store.new ≡
        event_store S.world S.is_full S.with_entry store.old (world.Request by time octets.now)) }
    ensures err { OnErr result (store.new ≡ store.old) }
    ensures receipt { IfOk result (λ receipt.
        S.is_receipt receipt (logs.Asked by time octets.now) packets.new) }
    ensures world { IsWorld (S.world store.new) state.new }
    ensures memory { result ≡ Err engine.Memory → S.Keeper.refused keeper.new ≡ true }
{
    let read = read_tc(store.apid(), octets);
    if let Some(cause) = discard_of(&read) {
        return Err(EngineFault::Discarded(cause));
    }
    if store.is_full(&Event::Request { by, time, octets }) {
        return Err(EngineFault::JournalFull);
    }
    let copy = S::keep_octets(keeper, octets)?;
    let kept = state.receive(keeper, store.events(), time, read, packets)?;
    Ok(store.push_request(by, time, octets, copy, kept))
}

/// Writes the reports of the completions that wait, for a seat: the oldest first, at a time in
/// whole seconds, each to the source of its request. None waits after it. Refused, in this order,
/// if none waits, if there is no room for an entry, and if the keeper finds no memory; then nothing
/// is changed.
pub fn drain<S: RequestStore, A: Allocator>(
    store: &mut S,
    state: &mut State<A>,
    keeper: &mut S::Keeper,
    by: u16,
    time: u32,
    packets: &mut PacketBuffer<A>,
) -> Result<S::Receipt, EngineFault>
    requires stands { IsWorld (S.world store.old) state.old }
    ensures answer { Answers (with_packets result packets.new)
        (answer_at S.world S.is_full store.old (world.Drain by time)) }
    ensures store { OnOk result (store.new ≡
        event_store S.world S.is_full S.with_entry store.old (world.Drain by time)) }
    ensures err { OnErr result (store.new ≡ store.old) }
    ensures receipt { IfOk result (λ receipt.
        S.is_receipt receipt (logs.Drained by time) packets.new) }
    ensures world { IsWorld (S.world store.new) state.new }
    ensures memory { result ≡ Err engine.Memory → S.Keeper.refused keeper.new ≡ true }
{
    if !state.is_due() {
        return Err(EngineFault::NothingDue);
    }
    if store.is_full(&Event::Drain { by, time }) {
        return Err(EngineFault::JournalFull);
    }
    let kept = state.report_due(keeper, time, packets)?;
    Ok(store.push_drain(by, time, kept))
}
