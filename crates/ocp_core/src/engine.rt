//! The engine.

ghost use Rattle.std.specs.Prelude.{◌≡◌, ◌↔◌, ◌≤◌, ◌<◌, ◌-◌, ◌^◌, ℕ, false, true, Err, None, IfOk, IfSome, OnOk, OnErr, length, slice_get};
ghost use Rattle.ocp_world.specs.World as world;
ghost use Rattle.ocp_table.specs.Slices.{slice_of};
ghost use Rattle.ocp_core.specs.Clauses.{MAX_APID, MAX_POOL_WORDS, MAX_CAPACITY, Answers, Enters, Grows, IsNextRunning, Log, Runs, Stepped, answer_in, empty_log, entries_in, entry_with_mark, event_entries, expand, get, is_accepted, log_after, marked_drain, marked_request, reports_in, Put, Written, round_in, round_log, slice_entries, slice_in, slice_log, view_at, world_of};
ghost use Rattle.ocp_core.specs.Mirror.Codes.{log_code};
ghost use Rattle.ocp_world.specs.Mirror.State.{IsWorld};

use crate::{
    EngineFault, Entry, Heap, Input, Journal, PutFault, Reports, Round, Slice, StepOutcome, calls,
};
use ocp_profile::Profile;
use ocp_reports::PacketBuffer;
use ocp_table::View;
use ocp_world::{Extent, State};
use space_packet::Apid;
use std::alloc::{AllocError, Allocator, Global};
use std::marker::Model;

/// The engine, seen as its journal. Its state is the replay of the journal.
pub struct Engine<A: Allocator = Global> {
    pub(crate) journal: Journal<A>,
    pub(crate) state: State<A>,
    // Where the reports of a call are written.
    packets: PacketBuffer<A>,
}

/// Kept as one call: the proof of each caller is then shorter.
impl<A: Allocator> Drop for Engine<A> {
    fn drop(self) {
        let Self {
            journal: _,
            state: _,
            packets: _,
        } = self;
    }
}

impl<A: Allocator> Model for Engine<A> {
    ghost Value = { Log };

    ghost coded = { log_code };

    ghost view = { λ e. e.journal };

    ghost invariant = { λ e. IsWorld (world_of e.journal) e.state };
}

impl<A: Allocator + Copy> Engine<A> {
    /// An engine of a profile without procedures, for the application process 0 to 2,046. It has 1
    /// to 256 pool words and room for 1 to 1,000,000 journal entries. All room is reserved here.
    pub fn new(
        alloc: A,
        profile: Profile,
        apid: u16,
        words: u16,
        capacity: u32,
    ) -> Result<Self, AllocError>
        requires apid { apid ≤ MAX_APID }
        requires words_from { 1 ≤ words }
        requires words_to { words ≤ MAX_POOL_WORDS }
        requires capacity_from { 1 ≤ capacity }
        requires capacity_to { capacity ≤ MAX_CAPACITY }
        ensures { IfOk result (λ engine. engine ≡ empty_log profile apid words capacity) }
    {
        let apid = Apid::new(apid).unwrap();
        let packets = PacketBuffer::new(alloc)?;
        let journal = Journal::new(alloc, profile, apid, words, capacity)?;
        let state = State::new(alloc, profile, apid, words)?;
        Ok(Engine {
            journal,
            state,
            packets,
        })
    }

    /// Takes the octets of a telecommand packet from a seat, at a time in whole seconds, and
    /// answers its reports. Refused, in this order, if the octets are discarded, if the journal is
    /// full, and if there is no memory; then nothing is changed.
    pub fn request(
        &mut self,
        alloc: A,
        by: u16,
        time: u32,
        octets: &[u8],
    ) -> Result<Reports<A>, EngineFault>
        ensures answer { Answers result (answer_in self.old (world.Request by time octets.now)) }
        ensures journal { OnOk result
            (self.new ≡ log_after self.old (world.Request by time octets.now)) }
        ensures err { OnErr result (self.new ≡ self.old) }
    {
        let (reports, _receipt) = self.request_in(&mut Heap::new(alloc), by, time, octets)?;
        Ok(reports)
    }

    /// `request`, with the receipt of its entry. The heap notes whether the copy of the octets or
    /// the reports found no memory. Memory is answered only then.
    pub fn request_in(
        &mut self,
        heap: &mut Heap<A>,
        by: u16,
        time: u32,
        octets: &[u8],
    ) -> Result<(Reports<A>, Entry<A>), EngineFault>
        ensures answer { Answers (reports_in result)
            (answer_in self.old (world.Request by time octets.now)) }
        ensures journal { OnOk result
            (self.new ≡ log_after self.old (world.Request by time octets.now)) }
        ensures receipt { IfOk result (λ r. entry_with_mark r.1 ≡
            marked_request by time octets.now r.0) }
        ensures err { OnErr result (self.new ≡ self.old) }
        ensures memory { result ≡ Err EngineFault.Memory → heap.new ≡ true }
    {
        let Self {
            journal,
            state,
            packets,
        } = self;
        calls::request(journal, state, heap, by, time, octets, packets)
    }

    /// Reports the completions that wait, for a seat: the oldest first, at a time in whole seconds,
    /// each to the source of its request. None waits after it. Refused, in this order, if none
    /// waits, if the journal is full, and if there is no memory; then nothing is changed.
    pub fn drain(&mut self, alloc: A, by: u16, time: u32) -> Result<Reports<A>, EngineFault>
        ensures answer { Answers result (answer_in self.old (world.Drain by time)) }
        ensures journal { OnOk result (self.new ≡ log_after self.old (world.Drain by time)) }
        ensures err { OnErr result (self.new ≡ self.old) }
    {
        let (reports, _receipt) = self.drain_with_receipt(alloc, by, time)?;
        Ok(reports)
    }

    // `drain`, with the receipt of its entry.
    pub(crate) fn drain_with_receipt(
        &mut self,
        alloc: A,
        by: u16,
        time: u32,
    ) -> Result<(Reports<A>, Entry<A>), EngineFault>
        ensures answer { Answers (reports_in result) (answer_in self.old (world.Drain by time)) }
        ensures journal { OnOk result (self.new ≡ log_after self.old (world.Drain by time)) }
        ensures receipt { IfOk result (λ r. entry_with_mark r.1 ≡ marked_drain by time r.0) }
        ensures err { OnErr result (self.new ≡ self.old) }
    {
        let Self {
            journal,
            state,
            packets,
        } = self;
        let heap = &mut Heap::new(alloc);
        calls::drain(journal, state, heap, by, time, packets)
    }
}

impl<A: Allocator> Engine<A> {
    /// Does what a seat asks. It returns the answer, with a copy of the entry that the journal
    /// gained, if it gained one. All memory is taken before anything is changed.
    pub fn apply<I: Input<A>>(&mut self, by: u16, input: I) -> (I::Answer, Option<Entry<A>>)
        ensures enters { Enters self.old self.new (I.event by input) (I.answer result.0) }
        ensures receipt { entries_in result.1 ≡
            event_entries (I.event by input) (I.answer result.0) }
        ensures gain { Grows self.old self.new (entries_in result.1) }
        ensures refused { is_accepted (I.answer result.0) ≡ false →
            (result.1 ≡ None) × (self.new ≡ self.old) }
    {
        input.enter(self, by)
    }

    /// Does one instruction of a running procedure. Refused, in this order, if the procedure is not
    /// loaded, if it is not running, and if the journal is full; then nothing is changed.
    pub fn step(&mut self, by: u16, id: u16) -> StepOutcome
        ensures answer { Stepped result ≡ answer_in self.old (world.Step by id) }
        ensures journal { self.new ≡ log_after self.old (world.Step by id) }
    {
        calls::step(&mut self.journal, &mut self.state, by, id)
    }

    /// Does instructions of one procedure until the budget is used, the procedure no longer runs,
    /// or an instruction ends it or faults. They are one journal entry. Refused, in this order, if
    /// the procedure is not loaded, if it is not running, and if the journal is full: then the
    /// count is 0, the last outcome is the refusal, and nothing is changed.
    pub fn slice(&mut self, by: u16, id: u16, budget: u32) -> Slice
        requires { 1 ≤ budget }
        ensures within { result.count ≤ budget }
        ensures slice { result ≡ slice_in self.old by id budget }
        ensures journal { self.new ≡ slice_log self.old by id budget }
        ensures gain { Grows self.old self.new (slice_entries by id result) }
    {
        let Self { journal, state, .. } = self;
        let round = calls::instructions(journal, state, by, id, budget, Extent::Slice);
        let Round { count, last, .. } = round;
        Slice { count, last }
    }

    /// Does instructions of one procedure as `slice` does, but at most up to the first that ends a
    /// step. It answers the number of that step, if one ended. Its instructions are one journal
    /// entry, or none if none was done.
    pub fn round(&mut self, by: u16, id: u16, budget: u32) -> Round
        requires { 1 ≤ budget }
        ensures within { result.count ≤ budget }
        ensures round { result ≡ round_in self.old by id budget }
        ensures journal { self.new ≡ round_log self.old by id budget }
        ensures gain { Grows self.old self.new (slice_entries by id (slice_of result)) }
    {
        let Self { journal, state, .. } = self;
        calls::instructions(journal, state, by, id, budget, Extent::Round)
    }

    /// Writes the pool word at an index from outside: nothing else changes, and no memory is taken.
    /// Refused, in this order, if the pool has no such word, and if the journal is full; then
    /// nothing is changed.
    pub fn put_word(&mut self, by: u16, index: u64, value: u64) -> Result<(), PutFault>
        ensures answer { Written result ≡ answer_in self.old (Put by index value) }
        ensures journal { self.new ≡ log_after self.old (Put by index value) }
        ensures word { OnOk result (index < MAX_POOL_WORDS) }
    {
        calls::put_word(&mut self.journal, &mut self.state, by, index, value)
    }

    /// The procedure whose turn is next: the least running one above the one before, or the least
    /// running one if none is above it. None exactly if none runs.
    pub fn next_running(&self, after: Option<u16>) -> Option<u16>
        ensures pick { IsNextRunning (world_of self.now).records after result }
        ensures runs { IfSome result (Runs (world_of self.now).records) }
        ensures none { result ≡ None ↔ ((id : ℕ) → Runs (world_of self.now).records id → ⊥) }
    {
        self.state.next_running(after)
    }

    /// What is shown of a procedure, if it is loaded.
    pub fn view(&self, id: u16) -> Option<View>
        ensures { result ≡ view_at (get (world_of self.now).records id) }
    {
        self.state.table.view(id)
    }

    /// The pool word at an index, if there is one.
    pub fn pool_word(&self, index: u64) -> Option<u64>
        ensures { result ≡ slice_get (world_of self.now).pool index }
    {
        self.state.pool.get(index)
    }

    /// The journal.
    pub fn journal(&self) -> &Journal<A>
        ensures { result.now ≡ self.now }
    {
        &self.journal
    }

    /// How many events were accepted: each instruction is one, and so is each request, debugger's
    /// command, drain and write of a pool word. It is the number of the next event.
    pub fn events(&self) -> u64
        ensures value { result ≡ length (expand self.now.entries) }
        ensures number { result ≡ (world_of self.now).events }
        ensures bound { result < 2 ^ 52 }
    {
        self.journal.events()
    }

    /// How many journal entries are still free.
    pub fn room(&self) -> usize
        ensures { result ≡ self.now.capacity - length self.now.entries }
    {
        self.journal.capacity() as usize - self.journal.len()
    }
}
