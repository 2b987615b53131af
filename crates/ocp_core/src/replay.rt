//! One procedure of a journal, by itself.

ghost use Rattle.std.specs.Prelude.{◌≡◌, ◌≤◌, ◌<◌, ℕ, IfOk, replicate};
ghost use Rattle.ocp_world.specs.World.{Drain, opening};
ghost use Rattle.ocp_world.specs.Mirror.State.{IsWorld};
ghost use Rattle.ocp_core.specs.Clauses.{MAX_APID, Put, Step, World, after, alone_after, entry_of, events_of, expand, get, machine_of, replay_from, world_of};

use crate::laws::{machines_follow_from_their_own_events, refused_events_change_nothing};
use crate::{Command, Entry, Journal};
use bpf_step::Machine;
use ocp_reports::PacketBuffer;
use ocp_world::{Nothing, State};
use pus_fields::read_tc;
use space_packet::Apid;
use std::alloc::{AllocError, Allocator};

// Writes the pool word at an index, if there is one.
fn write<A: Allocator>(state: &mut State<A>, index: u16, value: u64)
    ensures { (w : World) (by : ℕ) → IsWorld w state.old →
        IsWorld (after w (Put by index value)).world state.new }
{
    refused_events_change_nothing();
    if let Some(index) = state.word_index(u64::from(index)) {
        state.put_word(index, value);
    }
}

// Reports the completions that wait, if any does.
fn drain<A: Allocator>(state: &mut State<A>, time: u32, packets: &mut PacketBuffer<A>)
    ensures { (w : World) (by : ℕ) → IsWorld w state.old →
        IsWorld (after w (Drain by time)).world state.new }
{
    refused_events_change_nothing();
    if state.is_due() {
        let _result = state.report_due(&mut Nothing, time, packets);
    }
}

// Does a number of instructions of a procedure.
fn steps<A: Allocator>(state: &mut State<A>, id: u16, count: u32)
    ensures { (w : World) (by : ℕ) → IsWorld w state.old →
        IsWorld (replay_from w (replicate count (Step by id))) state.new }
{
    let place = state.table.place(id);
    for _done in 0..count {
        state.instruction(id, place);
    }
}

// Does the events of an entry, the first of which has this number.
fn enter<A: Allocator, B: Allocator>(
    state: &mut State<A>,
    apid: Apid,
    event: u64,
    entry: &Entry<B>,
    packets: &mut PacketBuffer<A>,
)
    requires { apid ≤ MAX_APID }
    ensures { (w : World) → IsWorld w state.old → w.apid ≡ apid → event ≡ w.events →
        IsWorld (replay_from w (events_of (entry_of entry.now))) state.new }
{
    refused_events_change_nothing();
    match entry {
        Entry::Request { time, octets, .. } => {
            let read = read_tc(apid, octets.as_slice());
            let _result = state.receive(&mut Nothing, event, *time, read, packets);
        }
        Entry::Steps { id, count, .. } => steps(state, *id, *count),
        Entry::SetBreak { id, place, .. } => {
            let _result = state.command(*id, Command::SetBreak(*place));
        }
        Entry::ClearBreak { id, place, .. } => {
            let _result = state.command(*id, Command::ClearBreak(*place));
        }
        Entry::Trace { id, on, .. } => {
            let _result = state.command(*id, Command::SetTrace(*on));
        }
        Entry::Drain { time, .. } => drain(state, *time, packets),
        Entry::PutWord { index, value, .. } => write(state, *index, *value),
    }
}

// Does the events of all entries of a journal, from the world that it opens with.
fn enter_all<A: Allocator, B: Allocator>(
    state: &mut State<A>,
    journal: &Journal<B>,
    packets: &mut PacketBuffer<A>,
)
    requires { IsWorld (opening journal.now.profile journal.now.apid journal.now.words) state.old }
    ensures { IsWorld (world_of journal.now) state.new }
{
    let apid = journal.apid();
    let entries = journal.entries();
    let mut event: u64 = 0;
    for entry in entries {
        enter(state, apid, event, entry, packets);
        event += entry.events();
    }
}

/// The machine of a procedure at the end of a journal, if it is loaded there. It is the machine of
/// the journal's replay, and the one that its image and its own events make: its starts, its
/// instructions, and the answers to its engine calls. It is refused only for memory.
pub fn replay_one<A: Allocator + Copy, B: Allocator>(
    alloc: A,
    journal: &Journal<B>,
    id: u16,
) -> Result<Option<Machine<A>>, AllocError>
    ensures replay { IfOk result (λ machine.
        machine ≡ machine_of (get (world_of journal.now).records id)) }
    ensures alone { IfOk result (λ machine. machine ≡
        alone_after journal.now.profile journal.now.apid journal.now.words
        (expand journal.now.entries) id) }
{
    machines_follow_from_their_own_events();
    let mut packets = PacketBuffer::new(alloc)?;
    let mut state = State::new(alloc, journal.profile(), journal.apid(), journal.words())?;
    enter_all(&mut state, journal, &mut packets);
    state.machine(alloc, id)
}
