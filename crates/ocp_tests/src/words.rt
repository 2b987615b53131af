//! Seats that write pool words, each in a thread of its own.

use crate::crews::seats_of;
use crate::scenes::{LIMIT, Scene, Stage, play};
use ocp_slices::{Engine, Entry, Naming, PutFault, Seat, SharedEngine, StepOutcome};
use std::alloc::Global;
use std::sync::Wait;
use std::sync::atomic::{AtomicU64, Ordering};
use std::thread;
use std::thread::Threads;

const SEATS: u16 = 4;

// What each seat writes in its rounds, to the word of its number and to word 0.
const VALUES: [[u64; 4]; 4] = [
    [11, 0, 18_446_744_073_709_551_615, 14],
    [21, 9_223_372_036_854_775_808, 23, 24],
    [31, 32, 4_294_967_296, 34],
    [41, 42, 43, 44],
];

// Each pool word at the end, but for word 0, which is the last of 14, 24, 34 and 44 that was written.
const WORDS: [u64; 16] = [0, 14, 24, 34, 44, 0, 0, 0, 0, 0, 0, 0, 0, 0, 0, 0];

// Room for the four entries that load and start two loops, and for three of each of 16 rounds.
const CAPACITY: u32 = 52;

// Lets no seat begin before all others do, and counts what was not as wanted.
#[derive(Drop)]
struct Start {
    begun: AtomicU64,
    missed: AtomicU64,
}

impl Start {
    fn miss(&self) {
        self.missed.fetch_add(1, Ordering::SeqCst);
    }

    fn wait(&self) {
        self.begun.fetch_add(1, Ordering::SeqCst);
        for _turn in 0..LIMIT {
            if self.begun.load(Ordering::SeqCst) >= u64::from(SEATS) {
                return;
            }
        }
        self.miss();
    }
}

// What a seat writes in a round.
fn value_of(number: u16, round: usize) -> Option<u64> {
    let values = VALUES.get(usize::from(number).wrapping_sub(1))?;
    let value = values.get(round)?;
    Some(*value)
}

// The loop that a seat runs.
fn loop_of(number: u16) -> u16 {
    if number % 2 == 0 { 2 } else { 1 }
}

// Whether the words beyond the last one are not there for a seat.
fn is_outside<L: Naming, R: Wait>(rt: &R, shared: &SharedEngine<L>, seat: &mut Seat<L>) -> bool {
    let outside = Err(PutFault::BadPoolIndex);
    shared.put_word(rt, seat, 16, 5) == outside
        && shared.put_word(rt, seat, 65_536, 5) == outside
        && shared.put_word(rt, seat, u64::MAX, 5) == outside
}

// A round of a seat: it writes its own word, is refused the words that are not there, runs ten instructions, and writes word 0.
fn is_round<L: Naming, R: Wait>(
    rt: &R,
    shared: &SharedEngine<L>,
    seat: &mut Seat<L>,
    value: u64,
) -> bool {
    let number = seat.number();
    shared.put_word(rt, seat, u64::from(number), value).is_ok()
        && is_outside(rt, shared, seat)
        && shared.slice(rt, seat, loop_of(number), 10).count == 10
        && shared.put_word(rt, seat, 0, value).is_ok()
}

// The rounds of a seat, once all seats have begun.
fn rounds<L: Naming, R: Wait>(rt: &R, shared: &SharedEngine<L>, seat: &mut Seat<L>, start: &Start) {
    start.wait();
    for round in 0..4 {
        match value_of(seat.number(), round) {
            Some(value) if is_round(rt, shared, seat, value) => {}
            _ => start.miss(),
        }
    }
}

// Whether a seat is refused now that the journal is full: first a word that is not there, and then each word. It gains no receipt.
fn is_full<L: Naming, R: Wait>(rt: &R, shared: &SharedEngine<L>, seat: &mut Seat<L>) -> bool {
    let full = Err(PutFault::JournalFull);
    is_outside(rt, shared, seat)
        && shared.put_word(rt, seat, 0, 5) == full
        && shared.put_word(rt, seat, 15, 5) == full
        && shared.slice(rt, seat, 1, 10).last == StepOutcome::JournalFull
        && seat.receipts().len() == 12
}

// Whether an entry of a seat, at this place among its own, is that part of its round.
fn is_part(entry: &Entry, number: u16, place: usize) -> bool {
    let Some(wanted) = value_of(number, place / 3) else {
        return false;
    };
    match (place % 3, entry) {
        (0, Entry::PutWord { index, value, .. }) => *index == number && *value == wanted,
        (
            1,
            Entry::Steps {
                id,
                count,
                mark,
                ..
            },
        ) => { *id == loop_of(number) && *count == 10 && *mark == StepOutcome::Ran }
        (2, Entry::PutWord { index, value, .. }) => *index == 0 && *value == wanted,
        _ => false,
    }
}

// Whether the entries of a seat are its rounds, in its order.
fn are_rounds(entries: &[Entry], number: u16) -> bool {
    let mut place: usize = 0;
    for entry in entries {
        if entry.by() == number {
            if !is_part(entry, number, place) {
                return false;
            }
            place = place.wrapping_add(1);
        }
    }
    place == 12
}

// What the last entry that writes word 0 has written.
fn last_of_word_0(entries: &[Entry]) -> Option<u64> {
    let mut last = None;
    for entry in entries {
        if let Entry::PutWord {
            index: 0,
            value,
            ..
        } = entry
        {
            last = Some(*value);
        }
    }
    last
}

// Whether the pool has the words of the last writes, and no other.
fn are_last(engine: &Engine) -> bool {
    let last = last_of_word_0(engine.journal().entries());
    if engine.pool_word(0) != last || !matches!(last, Some(14 | 24 | 34 | 44)) {
        return false;
    }
    for index in 1..16 {
        if engine.pool_word(index as u64) != WORDS.get(index).copied() {
            return false;
        }
    }
    engine.pool_word(16).is_none()
}

// Whether the journal is full and has the rounds of each seat, with 16 times two writes and ten instructions after four requests.
fn are_kept(engine: &Engine) -> bool {
    let journal = engine.journal();
    for number in 1..SEATS + 1 {
        if !are_rounds(journal.entries(), number) {
            return false;
        }
    }
    journal.len() == 52 && engine.events() == 196
}

impl<L: Naming + Send + Sync, R: Threads + Wait + Sync> Stage<'_, L, R> {
    // The rounds of four seats, each in a thread of its own, and what is refused then. What they
    // write at once is kept in each seat's order, and stays in the pool.
    pub(crate) fn write_words(self) -> Option<bool> {
        let Stage { rt, alloc, book } = self;
        let shared = SharedEngine::over(book);
        let mut seats = seats_of(rt, alloc, &shared, SEATS)?;
        let start = Start {
            begun: AtomicU64::new(0),
            missed: AtomicU64::new(0),
        };
        thread::for_each_mut(
            rt,
            seats.as_mut_slice(),
            4,
            &|_, seat| rounds(rt, &shared, seat, &start),
        );
        for seat in seats.as_mut_slice() {
            if !is_full(rt, &shared, seat) {
                start.miss();
            }
        }
        let engine = shared.close(seats).ok()?;
        let missed = start.missed.load(Ordering::SeqCst);
        Some(missed == 0 && are_kept(&engine) && are_last(&engine))
    }
}

#[test]
fn seats_write_words_at_once(rt: HostRuntime) {
    assert!(rt; play(&rt, rt.alloc(), CAPACITY, 2, Scene::WriteWords) == Some(true));
}
