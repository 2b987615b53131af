//! Gates of turns: one that adds up what it hears, and one that calls the engine too.

use ocp_slices::{CommitOutcome, Gate, MAX_SEATS, Naming, SharedEngine};
use std::alloc::{AllocError, Global};
use std::fmt;
use std::sync::Wait;
use std::sync::atomic::{AtomicU64, Ordering};

/// Calls of one kind: how many, and the sums of their procedures' identifiers and of their counts
/// of instructions.
#[derive(Drop)]
struct Sums {
    calls: AtomicU64,
    ids: AtomicU64,
    counts: AtomicU64,
}

impl Sums {
    fn new() -> Sums {
        Sums {
            calls: AtomicU64::new(0),
            ids: AtomicU64::new(0),
            counts: AtomicU64::new(0),
        }
    }

    fn add(&self, id: u16, count: u32) {
        self.calls.fetch_add(1, Ordering::SeqCst);
        self.ids.fetch_add(u64::from(id), Ordering::SeqCst);
        self.counts.fetch_add(u64::from(count), Ordering::SeqCst);
    }
}

impl fmt::Display for Sums {
    fn fmt<W: fmt::Write>(&self, f: &mut fmt::Formatter<W>) -> fmt::Result {
        let calls = self.calls.load(Ordering::SeqCst);
        let ids = self.ids.load(Ordering::SeqCst);
        let counts = self.counts.load(Ordering::SeqCst);
        write!(f, "{calls} {ids} {counts}")
    }
}

/// What a gate hears of one seat: before its commits, and after those of each outcome.
#[derive(Drop)]
pub(crate) struct HeardOfSeat {
    before: Sums,
    committed: Sums,
    empty: Sums,
    stale: Sums,
    full: Sums,
}

impl HeardOfSeat {
    fn new() -> HeardOfSeat {
        HeardOfSeat {
            before: Sums::new(),
            committed: Sums::new(),
            empty: Sums::new(),
            stale: Sums::new(),
            full: Sums::new(),
        }
    }

    fn add_outcome(&self, id: u16, outcome: CommitOutcome) {
        match outcome {
            CommitOutcome::Committed(count) => self.committed.add(id, count),
            CommitOutcome::Empty => self.empty.add(id, 0),
            CommitOutcome::Stale => self.stale.add(id, 0),
            CommitOutcome::JournalFull => self.full.add(id, 0),
        }
    }
}

impl fmt::Display for HeardOfSeat {
    fn fmt<W: fmt::Write>(&self, f: &mut fmt::Formatter<W>) -> fmt::Result {
        let (before, committed) = (&self.before, &self.committed);
        let (empty, stale, full) = (&self.empty, &self.stale, &self.full);
        write!(
            f,
            "before {before} committed {committed} empty {empty} stale {stale} full {full}"
        )
    }
}

/// What a gate hears of each seat, since the book was made or the work began.
#[derive(Drop)]
pub(crate) struct Heard {
    seats: Vec<HeardOfSeat>,
}

impl Heard {
    pub fn new(alloc: Global) -> Result<Heard, AllocError> {
        let mut seats = Vec::new(alloc);
        for _number in 0..MAX_SEATS {
            seats.push(HeardOfSeat::new())?;
        }
        Ok(Heard { seats })
    }

    /// That of the seat with a number.
    pub fn of_seat(&self, number: u16) -> Option<&HeardOfSeat> {
        self.seats.get(usize::from(number).wrapping_sub(1))
    }
}

impl Gate for Heard {
    fn before(&self, seat: u16, id: u16, count: u32) {
        if let Some(heard) = self.of_seat(seat) {
            heard.before.add(id, count);
        }
    }

    fn after(&self, seat: u16, id: u16, outcome: CommitOutcome) {
        if let Some(heard) = self.of_seat(seat) {
            heard.add_outcome(id, outcome);
        }
    }
}

/// A gate that takes a ticket each time it is called. It never returns if a lock is held then.
#[derive(Drop)]
pub(crate) struct Taking<'r, 's, 'h, L: Naming, R: Wait> {
    rt: &'r R,
    alloc: Global,
    shared: &'s SharedEngine<L>,
    heard: &'h Heard,
}

impl<'r, 's, 'h, L: Naming, R: Wait> Taking<'r, 's, 'h, L, R> {
    pub fn new(rt: &'r R, alloc: Global, shared: &'s SharedEngine<L>, heard: &'h Heard) -> Self {
        Taking {
            rt,
            alloc,
            shared,
            heard,
        }
    }
}

impl<L: Naming, R: Wait> Gate for Taking<'_, '_, '_, L, R> {
    fn before(&self, seat: u16, id: u16, count: u32) {
        self.heard.before(seat, id, count);
        let _ = self.shared.take(self.rt, self.alloc);
    }

    fn after(&self, seat: u16, id: u16, outcome: CommitOutcome) {
        self.heard.after(seat, id, outcome);
        let _ = self.shared.take(self.rt, self.alloc);
    }
}
