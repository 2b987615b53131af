//! The journal of an engine for flight.

ghost use Rattle.std.specs.Prelude.{◌≡◌, ◌≤◌, ◌+◌, ◌^◌, ◌++◌, IfOk, length};
ghost use Rattle.ocp_core.specs.Log as logs;
ghost use Rattle.ocp_core.specs.Clauses.{MAX_APID, MAX_CAPACITY, expand};
ghost use Rattle.ocp_flight.specs.Bounded.{IsBounded};
ghost use Rattle.ocp_flight.specs.Flown.{entry_answer, entry_written, first, held_count, opened_flown, release_after, release_answer, room, with_entry, world_of};
ghost use Rattle.ocp_flight.specs.Mirror.Kept.{MayEnter};

use crate::history::History;
use crate::octets::{command_fields, length_of, steps_fields, time_fields, word_fields};
use crate::tape::Tape;
use crate::{EntryFault, ReleaseFault};
use ocp_core::{Command, Event, RequestStore, StepOutcome, Store};
use ocp_profile::Profile;
use ocp_world::Nothing;
use space_packet::Apid;
use std::alloc::{AllocError, Allocator, Global};
use std::marker::Model;

/// The most octets that a store may have room for.
pub const MAX_OCTETS: u32 = 1_073_741_824;

/// From this number of events on, no entry is released.
pub const MOST_EVENTS: u64 = 9_223_372_036_854_775_808;

/// How many entries more, and how many octets more, may be held.
#[derive(Clone, Copy, PartialEq, Eq, Debug)]
pub struct Room {
    pub entries: usize,
    pub octets: usize,
}

/// A bounded store of entries, like a packet store of ECSS-E-ST-70-41C service 15: it holds the
/// last ones as octets, and drops the oldest when it is told to. All room is reserved when it is
/// made. Contracts see all entries, and the world that the engine began in.
#[derive(Drop)]
pub struct BoundedStore<A: Allocator = Global> {
    profile: Profile,
    apid: Apid,
    words: u16,
    tape: Tape<A>,
    history: History,
    // The index of the oldest entry that is held.
    first: u64,
    // How many events were accepted.
    events: u64,
}

impl<A: Allocator> Model for BoundedStore<A> {
    ghost use Rattle.ocp_flight.specs.Flown.{Flown};
    ghost use Rattle.ocp_flight.specs.Mirror.Codes.{flown_code};
    ghost use Rattle.ocp_flight.specs.Mirror.Kept.{flown_of, IsKept};

    ghost Value = { Flown };

    ghost coded = { flown_code };

    ghost view = { flown_of };

    ghost invariant = { IsKept };
}

impl<A: Allocator> BoundedStore<A> {
    /// A store without entries, with room for a number of entries, and for a number of octets.
    pub fn new(
        alloc: A,
        profile: Profile,
        apid: Apid,
        words: u16,
        entries: u32,
        octets: u32,
    ) -> Result<Self, AllocError>
    where
        A: Copy,
        requires apid { apid ≤ MAX_APID }
        requires entries { entries ≤ MAX_CAPACITY }
        ensures { IfOk result (λ store. store ≡ opened_flown profile apid words entries octets) }
    {
        Ok(BoundedStore {
            profile,
            apid,
            words,
            tape: Tape::new(alloc, entries, octets)?,
            history: History::new(),
            first: 0,
            events: 0,
        })
    }

    /// How many entries are held.
    pub fn held_count(&self) -> u64
        ensures { result ≡ held_count self.now }
    {
        self.tape.len() as u64
    }

    /// The world that the engine began in bounds its reports. It does nothing when it runs.
    pub fn bounds(&self)
        ensures { IsBounded self.now.base }
    {
        let _first = self.first;
    }

    /// The index of the oldest entry that is held, counted from the first of all. If none is held,
    /// the next entry will have this index.
    pub fn first(&self) -> u64
        ensures { result ≡ first self.now }
    {
        self.first
    }

    /// How many entries more, and how many octets more, may be held.
    pub fn room(&self) -> Room
        ensures { result ≡ room self.now }
    {
        Room {
            entries: self.tape.free_pieces(),
            octets: self.tape.free_octets(),
        }
    }

    /// How many events were accepted: those of the world that the engine began in, and the single
    /// events of all entries since then.
    pub fn count(&self) -> u64
        ensures value { result ≡ self.now.base.events + length (expand self.now.entries) }
        ensures number { result ≡ (world_of self.now).events }
        ensures bound { result ≤ 2 ^ 63 + 2 ^ 52 }
    {
        self.events
    }

    /// Writes the octets of an entry to the front of a buffer, and answers how many they are. The
    /// index counts from the first entry of all. Refused, in this order, if the entry was released,
    /// if there is none yet, and if the buffer is too short.
    pub fn entry(&self, index: u64, buffer: &mut [u8]) -> Result<usize, EntryFault>
        ensures answer { result ≡ entry_answer self.now index (length buffer.old) }
        ensures octets { buffer.new ≡ entry_written self.now index buffer.old }
    {
        if index < self.first {
            return Err(EntryFault::Released);
        }
        let place = (index - self.first) as usize;
        let Some(length) = self.tape.length_at(place) else {
            return Err(EntryFault::NotYet);
        };
        if length > buffer.len() {
            return Err(EntryFault::TooShort { length });
        }
        self.tape.copy(place, buffer);
        Ok(length)
    }

    // Adds an entry, for which there is room: its octets, in two parts, and how many events it is.
    fn enter(&mut self, head: &[u8], packet: &[u8], events: u32)
        requires { (e : logs.Entry) × MayEnter self.old (head.now ++ packet.now) events e }
        ensures { (e : logs.Entry) →
            MayEnter self.old (head.now ++ packet.now) events e → self.new ≡ with_entry self.old e }
    {
        self.tape.push(head, packet);
        self.history.note(head, packet);
        self.events += u64::from(events);
    }

    /// Drops the oldest `count` entries. Refused, in this order, if fewer are held, and from 2^63
    /// events on; then nothing is changed.
    pub fn release(&mut self, count: u64) -> Result<(), ReleaseFault>
        ensures answer { result ≡ release_answer self.old count }
        ensures store { self.new ≡ release_after self.old count }
    {
        if self.held_count() < count {
            return Err(ReleaseFault::NotHeld);
        }
        if self.events >= MOST_EVENTS {
            return Err(ReleaseFault::Spent);
        }
        self.tape.release(count as usize);
        self.first += count;
        Ok(())
    }
}

impl<A: Allocator> Store for BoundedStore<A> {
    ghost use Rattle.std.specs.Prelude.{refl};
    ghost use Rattle.ocp_flight.specs.Flown as flown;
    ghost use Rattle.ocp_flight.specs.Mirror.Replays.{world_of-with_entry};

    ghost world = { flown.world_of };

    ghost is_full = { flown.is_full };

    ghost with_entry = { flown.with_entry };

    ghost replays_entry = { world_of-with_entry };

    ghost fills_alike = { λ f by id count other. refl };

    fn apid(&self) -> Apid {
        self.apid
    }

    fn events(&self) -> u64 {
        self.events
    }

    fn is_full(&self, event: &Event<'_>) -> bool {
        !self.tape.has_room(length_of(event))
    }

    fn push_steps(&mut self, by: u16, id: u16, count: u32, _last: StepOutcome) {
        self.enter(&steps_fields(by, id, count), &[], count);
    }

    fn push_command(&mut self, by: u16, id: u16, command: Command) {
        self.enter(&command_fields(by, id, command), &[], 1);
    }

    fn push_word(&mut self, by: u16, index: u16, value: u64) {
        self.enter(&word_fields(by, index, value), &[], 1);
    }
}

impl<A: Allocator> RequestStore for BoundedStore<A> {
    type Keeper = Nothing;

    type KeptOctets = ();

    type Receipt = ();

    ghost keeps_octets = { λ _ _. Unit {0} };

    ghost is_receipt = { λ _ _ _. Unit {0} };

    fn keep_octets(_keeper: &mut Nothing, _octets: &[u8]) -> Result<(), AllocError> {
        Ok(())
    }

    fn push_request(&mut self, by: u16, time: u32, octets: &[u8], _copy: (), _kept: ()) {
        self.enter(&time_fields(1, by, time), octets, 1);
    }

    fn push_drain(&mut self, by: u16, time: u32, _kept: ()) {
        self.enter(&time_fields(6, by, time), &[], 1);
    }
}
