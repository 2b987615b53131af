//! The journal.

ghost use Rattle.std.specs.Prelude.{◌≡◌, ◌≤◌, ◌<◌, ◌^◌, map, length, IfOk};
ghost use Rattle.ocp_core.specs.Clauses.{Log, MAX_APID, MAX_CAPACITY, MAX_POOL_WORDS, empty_log, entries_with_marks, entry_of, entry_with_mark, events_of, expand, is_full, mark_of, MayAdd, with_entry, world_of};
ghost use Rattle.ocp_core.specs.Mirror.Codes.{log_code};
ghost use Rattle.ocp_core.specs.Mirror.Kept.{log_of, IsKept};

use crate::{Command, Entry, Event, Heap, Octets, Reports, RequestStore, StepOutcome, Store};
use ocp_profile::Profile;
use ocp_reports::SharedReports;
use space_packet::Apid;
use std::alloc::{AllocError, Allocator, Global};
use std::marker::Model;

/// The entries of all accepted events and slices, in order, with the engine's parameters. All room
/// is reserved when it is made.
#[derive(Drop)]
pub struct Journal<A: Allocator = Global> {
    profile: Profile,
    apid: Apid,
    words: u16,
    capacity: u32,
    entries: Vec<Entry<A>, A>,
    // How many single events the entries are.
    events: u64,
}

impl<A: Allocator> Model for Journal<A> {
    ghost Value = { Log };

    ghost coded = { log_code };

    ghost view = { log_of };

    ghost invariant = { IsKept };
}

impl<A: Allocator> Journal<A> {
    /// A journal without entries, with room for `capacity` entries, of an engine of a profile with
    /// 1 to 256 pool words.
    #[tactic(auto, unfolding(crate::specs::Marks::entries_with_marks, crate::specs::Log::world_of))]
    pub fn new(
        alloc: A,
        profile: Profile,
        apid: Apid,
        words: u16,
        capacity: u32,
    ) -> Result<Self, AllocError>
        requires apid { apid ≤ MAX_APID }
        requires words_from { 1 ≤ words }
        requires words_to { words ≤ MAX_POOL_WORDS }
        requires capacity { capacity ≤ MAX_CAPACITY }
        ensures { IfOk result (λ journal. journal ≡ empty_log profile apid words capacity) }
    {
        Ok(Journal {
            profile,
            apid,
            words,
            capacity,
            entries: Vec::with_capacity(alloc, capacity as usize)?,
            events: 0,
        })
    }

    /// The engine's profile.
    pub fn profile(&self) -> Profile
        ensures { result ≡ self.now.profile }
    {
        self.profile
    }

    /// The engine's application process identifier.
    pub fn apid(&self) -> Apid
        ensures value { result ≡ self.now.apid }
        ensures in_range { result ≤ MAX_APID }
    {
        self.apid
    }

    /// The number of the engine's pool words.
    pub fn words(&self) -> u16
        ensures value { result ≡ self.now.words }
        ensures some { 1 ≤ result }
        ensures few { result ≤ MAX_POOL_WORDS }
    {
        self.words
    }

    /// How many entries there may be.
    pub fn capacity(&self) -> u32
        ensures { result ≡ self.now.capacity }
    {
        self.capacity
    }

    /// How many entries there are.
    pub fn len(&self) -> usize
        ensures value { result ≡ length self.now.entries }
        ensures within { result ≤ self.now.capacity }
    {
        self.entries.len()
    }

    /// The entries with their marks, oldest first. All their events were accepted.
    pub fn entries(&self) -> &[Entry<A>]
        ensures value { map entry_of result.now ≡ self.now.entries }
        ensures marks { map entry_with_mark result.now ≡ entries_with_marks self.now }
        ensures few { length result.now ≤ MAX_CAPACITY }
        ensures accepted { (world_of self.now).events ≡ length (expand self.now.entries) }
    {
        self.entries.as_slice()
    }

    /// How many single events the entries are, below 2^52. It is the number of the next event that
    /// is accepted.
    pub fn events(&self) -> u64
        ensures value { result ≡ length (expand self.now.entries) }
        ensures number { result ≡ (world_of self.now).events }
        ensures bound { result < 2 ^ 52 }
    {
        self.events
    }

    /// Adds an entry of this many events, which are accepted. Its mark is the answer that they are
    /// given.
    fn push(&mut self, events: u32, entry: Entry<A>)
        requires events { events ≡ length (events_of (entry_of entry)) }
        requires may { MayAdd (λ log. world_of log) (λ log e. is_full log) self.old (entry_of entry)
            (mark_of entry) }
        ensures { self.new ≡ with_entry self.old (entry_of entry) }
    {
        self.events += u64::from(events);
        self.entries.push_reserved(entry);
    }
}

impl<A: Allocator> Store for Journal<A> {
    ghost use Rattle.ocp_core.specs.Log as logs;
    ghost use Rattle.std.specs.Prelude.{refl};
    ghost use Rattle.ocp_core.specs.Mirror.Replays.{world_of-with_entry};

    ghost world = { λ log. world_of log };

    ghost is_full = { λ log e. is_full log };

    ghost with_entry = { λ log e. logs.with_entry log e };

    ghost replays_entry = { λ log e. world_of-with_entry log e };

    ghost fills_alike = { λ log by id count other. refl };

    fn apid(&self) -> Apid {
        Journal::apid(self)
    }

    fn events(&self) -> u64 {
        self.events
    }

    fn is_full(&self, _event: &Event<'_>) -> bool {
        let held = self.entries.len();
        held == self.capacity as usize
    }

    fn push_steps(&mut self, by: u16, id: u16, count: u32, mark: StepOutcome) {
        let entry = Entry::Steps {
            by,
            id,
            count,
            mark,
        };
        self.push(count, entry);
    }

    fn push_command(&mut self, by: u16, id: u16, command: Command) {
        self.push(1, Entry::of_command(by, id, command));
    }

    fn push_word(&mut self, by: u16, index: u16, value: u64) {
        self.push(1, Entry::PutWord { by, index, value });
    }
}

/// The octets of a request have two handles: one for its entry, one for its receipt.
impl<A: Allocator + Copy> RequestStore for Journal<A> {
    ghost use Rattle.std.specs.Prelude.{Ok};
    ghost use Rattle.ocp_core.specs.Clauses.{Requested};

    type Keeper = Heap<A>;

    type KeptOctets = (Octets<A>, Octets<A>);

    type Receipt = (Reports<A>, Entry<A>);

    ghost keeps_octets = { λ copy octets. (copy.0 ≡ octets) × (copy.1 ≡ octets) };

    ghost is_receipt = { λ receipt entry reports. (receipt.0 ≡ reports)
        × (entry_with_mark receipt.1 ≡ record { entry = entry; mark = Requested (Ok reports) }) };

    fn keep_octets(heap: &mut Heap<A>, octets: &[u8]) -> Result<Self::KeptOctets, AllocError> {
        let copy = Octets::copy_of(heap.alloc, octets);
        let kept = heap.note(copy)?;
        let own = heap.note(kept.share())?;
        Ok((kept, own))
    }

    fn push_request(
        &mut self,
        by: u16,
        time: u32,
        _octets: &[u8],
        copy: Self::KeptOctets,
        kept: SharedReports<A>,
    ) -> Self::Receipt {
        let (octets, own) = copy;
        let (answer, mark, receipt) = kept.into_parts();
        let entry = Entry::Request {
            by,
            time,
            octets,
            mark,
        };
        self.push(1, entry);
        let receipt = Entry::Request {
            by,
            time,
            octets: own,
            mark: receipt,
        };
        (answer, receipt)
    }

    fn push_drain(&mut self, by: u16, time: u32, kept: SharedReports<A>) -> Self::Receipt {
        let (answer, mark, receipt) = kept.into_parts();
        self.push(1, Entry::Drain { by, time, mark });
        let mark = receipt;
        (answer, Entry::Drain { by, time, mark })
    }
}
