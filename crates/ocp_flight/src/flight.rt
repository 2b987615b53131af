//! The engine for flight.

ghost use Rattle.std.specs.Prelude.{◌≡◌, ◌↔◌, ◌≤◌, ◌<◌, ◌+◌, ◌^◌, ℕ, None, Err, IfOk, IfSome, OnOk, OnErr, length, slice_get, option_copied};
ghost use Rattle.ocp_world.specs.World as world;
ghost use Rattle.ocp_world.specs.Mirror.State.{IsWorld};
ghost use Rattle.ocp_flight.specs.Clauses.{Answers, Commanded, Debug, Flown, IsBounded, IsNextRunning, MAX_APID, MAX_CAPACITY, MAX_POOL_WORDS, Put, Reads, Runs, Step, Stepped, Written, answer_in, entry_answer, entry_written, expand, first, flown_after, get, last_traces, opened_flown, release_after, release_answer, room, round_after, round_in, slice_after, slice_in, view_at, with_packets, world_of};
ghost use Rattle.ocp_flight.specs.Mirror.Codes.{flown_code};

use crate::{BoundedStore, EntryFault, MAX_OCTETS, ReleaseFault, Room};
use ocp_core::{Command, DebugFault, EngineFault, PutFault, Round, Slice, StepOutcome, calls};
use ocp_debug::Trace;
use ocp_profile::Profile;
use ocp_reports::PacketBuffer;
use ocp_table::View;
use ocp_world::{Extent, Nothing, State};
use space_packet::Apid;
use std::alloc::{AllocError, Allocator, Global};
use std::marker::Model;

/// The engine, seen as the world that it began in and all entries since then. Its state is the
/// replay of all of them, those that were released included.
pub struct Flight<A: Allocator = Global> {
    store: BoundedStore<A>,
    state: State<A>,
}

/// Kept as one call: the proof of each caller is then shorter.
impl<A: Allocator> Drop for Flight<A> {
    fn drop(self) {
        let Self { store: _, state: _ } = self;
    }
}

impl<A: Allocator> Model for Flight<A> {
    ghost Value = { Flown };

    ghost coded = { flown_code };

    ghost view = { λ e. e.store };

    ghost invariant = { λ e. IsWorld (world_of e.store) e.state };
}

impl<A: Allocator + Copy> Flight<A> {
    /// An engine of a profile without procedures, for the application process 0 to 2,046. It has 1
    /// to 256 pool words, and a store of 1 to 1,000,000 entries and of 1 to 1,073,741,824 octets.
    /// All room is reserved here.
    pub fn new(
        alloc: A,
        profile: Profile,
        apid: u16,
        words: u16,
        entries: u32,
        octets: u32,
    ) -> Result<Self, AllocError>
        requires apid { apid ≤ MAX_APID }
        requires words_from { 1 ≤ words }
        requires words_to { words ≤ MAX_POOL_WORDS }
        requires entries_from { 1 ≤ entries }
        requires entries_to { entries ≤ MAX_CAPACITY }
        requires octets_from { 1 ≤ octets }
        requires octets_to { octets ≤ MAX_OCTETS }
        ensures { IfOk result (λ engine. engine ≡ opened_flown profile apid words entries octets) }
    {
        let apid = Apid::new(apid).unwrap();
        let state = State::new(alloc, profile, apid, words)?;
        let store = BoundedStore::new(alloc, profile, apid, words, entries, octets)?;
        Ok(Flight { store, state })
    }
}

impl<A: Allocator> Flight<A> {
    /// Takes the octets of a telecommand packet from a seat, at a time in whole seconds, and writes
    /// its reports. Refused, in this order, if the octets are discarded, and if there is no room
    /// for the entry; then nothing is changed.
    pub fn request(
        &mut self,
        by: u16,
        time: u32,
        octets: &[u8],
        packets: &mut PacketBuffer<A>,
    ) -> Result<(), EngineFault>
        ensures answer { Answers (with_packets result packets.new)
            (answer_in self.old (world.Request by time octets.now)) }
        ensures log { OnOk result
            (self.new ≡ flown_after self.old (world.Request by time octets.now)) }
        ensures err { OnErr result (self.new ≡ self.old) }
        ensures memory { result ≡ Err EngineFault.Memory → ⊥ }
    {
        let Self { store, state } = self;
        calls::request(store, state, &mut Nothing, by, time, octets, packets)
    }

    /// Does one instruction of a running procedure. Refused, in this order, if the procedure is not
    /// loaded, if it is not running, and if there is no room for the entry; then nothing is
    /// changed.
    pub fn step(&mut self, by: u16, id: u16) -> StepOutcome
        ensures answer { Stepped result ≡ answer_in self.old (Step by id) }
        ensures log { self.new ≡ flown_after self.old (Step by id) }
    {
        calls::step(&mut self.store, &mut self.state, by, id)
    }

    /// Does instructions of one procedure until the budget is used, the procedure no longer runs,
    /// or an instruction ends it or faults. They are one entry. Refused, in this order, if the
    /// procedure is not loaded, if it is not running, and if there is no room for the entry: then
    /// the count is 0, the last outcome is the refusal, and nothing is changed.
    pub fn slice(&mut self, by: u16, id: u16, budget: u32) -> Slice
        requires { 1 ≤ budget }
        ensures within { result.count ≤ budget }
        ensures slice { result ≡ slice_in self.old by id budget }
        ensures log { self.new ≡ slice_after self.old by id budget }
    {
        let Self { store, state } = self;
        let round = calls::instructions(store, state, by, id, budget, Extent::Slice);
        let Round { count, last, .. } = round;
        Slice { count, last }
    }

    /// Does instructions of one procedure as `slice` does, but at most up to the first that ends a
    /// step. It answers the number of that step, if one ended.
    pub fn round(&mut self, by: u16, id: u16, budget: u32) -> Round
        requires { 1 ≤ budget }
        ensures within { result.count ≤ budget }
        ensures round { result ≡ round_in self.old by id budget }
        ensures log { self.new ≡ round_after self.old by id budget }
    {
        let Self { store, state } = self;
        calls::instructions(store, state, by, id, budget, Extent::Round)
    }

    /// Writes the pool word at an index from outside; nothing else changes. Refused, in this order,
    /// if the pool has no such word, and if there is no room for the entry; then nothing is
    /// changed.
    pub fn put_word(&mut self, by: u16, index: u64, value: u64) -> Result<(), PutFault>
        ensures answer { Written result ≡ answer_in self.old (Put by index value) }
        ensures log { self.new ≡ flown_after self.old (Put by index value) }
        ensures word { OnOk result (index < MAX_POOL_WORDS) }
    {
        calls::put_word(&mut self.store, &mut self.state, by, index, value)
    }

    /// Does a debugger's command: sets a breakpoint at the slot of an instruction, clears the one
    /// at a slot, or sets whether each instruction of a procedure leaves a trace record. Refused as
    /// the command is by `Engine`, and after that if there is no room for the entry; then nothing
    /// is changed.
    pub fn command(&mut self, by: u16, id: u16, command: Command) -> Result<(), DebugFault>
        ensures answer { Commanded result ≡ answer_in self.old (Debug by id command) }
        ensures log { self.new ≡ flown_after self.old (Debug by id command) }
    {
        calls::command(&mut self.store, &mut self.state, by, id, command)
    }

    /// Writes the reports of the completions that wait, the oldest first, at a time in whole
    /// seconds, each to the source of its request. None waits after it. Refused, in this order, if
    /// none waits, and if there is no room for the entry; then nothing is changed.
    pub fn drain(
        &mut self,
        by: u16,
        time: u32,
        packets: &mut PacketBuffer<A>,
    ) -> Result<(), EngineFault>
        ensures answer { Answers (with_packets result packets.new)
            (answer_in self.old (world.Drain by time)) }
        ensures log { OnOk result (self.new ≡ flown_after self.old (world.Drain by time)) }
        ensures err { OnErr result (self.new ≡ self.old) }
        ensures memory { result ≡ Err EngineFault.Memory → ⊥ }
    {
        let Self { store, state } = self;
        calls::drain(store, state, &mut Nothing, by, time, packets)
    }

    /// Drops the oldest `count` entries, which the caller has copied before. The state stays.
    /// Refused, in this order, if fewer are held, and from 2^63 events on; then nothing is changed.
    pub fn release(&mut self, count: u64) -> Result<(), ReleaseFault>
        ensures answer { result ≡ release_answer self.old count }
        ensures log { self.new ≡ release_after self.old count }
    {
        self.store.release(count)
    }

    /// Writes the octets of an entry to the front of a buffer, and answers how many they are. The
    /// index counts from the first entry of all. Refused, in this order, if the entry was released,
    /// if there is none yet, and if the buffer is too short.
    pub fn entry(&self, index: u64, buffer: &mut [u8]) -> Result<usize, EntryFault>
        ensures answer { result ≡ entry_answer self.now index (length buffer.old) }
        ensures octets { buffer.new ≡ entry_written self.now index buffer.old }
    {
        self.store.entry(index, buffer)
    }

    /// The world that the engine began in bounds its reports. It does nothing when it runs.
    pub fn bounds(&self)
        ensures { IsBounded self.now.base }
    {
        self.store.bounds();
    }

    /// The index of the oldest entry that is held, counted from the first of all. If none is held,
    /// the next entry will have this index.
    pub fn first(&self) -> u64
        ensures { result ≡ first self.now }
    {
        self.store.first()
    }

    /// How many entries more, and how many octets more, may be held.
    pub fn room(&self) -> Room
        ensures { result ≡ room self.now }
    {
        self.store.room()
    }

    /// How many events were accepted: each instruction is one, and so is each request, debugger's
    /// command, drain and write of a pool word. It is the number of the next event.
    pub fn events(&self) -> u64
        ensures value { result ≡ self.now.base.events + length (expand self.now.entries) }
        ensures number { result ≡ (world_of self.now).events }
        ensures bound { result ≤ 2 ^ 63 + 2 ^ 52 }
    {
        self.store.count()
    }

    /// The procedure whose turn is next: the least running one above the one before, or the least
    /// running one if none is above it. None exactly if none runs.
    pub fn next_running(&self, after: Option<u16>) -> Option<u16>
        ensures pick { IsNextRunning (world_of self.now).records after result }
        ensures runs { IfSome result (Runs (world_of self.now).records) }
        ensures none { result ≡ None ↔
            ((id : ℕ) → Runs (world_of self.now).records id → ⊥) }
    {
        self.state.next_running(after)
    }

    /// What is shown of a procedure, if it is loaded.
    pub fn view(&self, id: u16) -> Option<View>
        ensures { result ≡ view_at (get (world_of self.now).records id) }
    {
        self.state.table.view(id)
    }

    /// The pool word at an index, if there is one.
    pub fn pool_word(&self, index: u64) -> Option<u64>
        ensures { result ≡ slice_get (world_of self.now).pool index }
    {
        self.state.pool.get(index)
    }

    /// Fills the slice with octets of a procedure's memory, from an address on. Refused, in this
    /// order, if the procedure is not loaded, and if one of the octets is not in its memory; the
    /// slice then keeps its octets.
    pub fn memory(&self, id: u16, address: u64, octets: &mut [u8]) -> Result<(), DebugFault>
        ensures { Reads (get (world_of self.now).records id) address octets.old octets.new
            result }
    {
        ocp_debug::memory(&self.state.table, id, address, octets)
    }

    /// A trace record that is kept, by its index from the oldest. The last 256 are kept.
    pub fn trace_record(&self, index: u64) -> Option<&Trace>
        ensures { option_copied result ≡
            slice_get (last_traces (world_of self.now).traces) index }
    {
        self.state.ring.record(index)
    }
}
