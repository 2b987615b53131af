//! Another board behind the lock: a call under the lock returns the board's own answer, and what a
//! turn answers and tells its gate depends on it.

use crate::packets::STATUS;
use crate::scenes::{Scene, Stage, play};
use ocp_slices::{
    Board, Book, CommitOutcome, DebugFault, EngineFault, Entry, Gate, Input, Naming, PutFault,
    Seat, SeatFault, SharedEngine, Slice, StepOutcome, TakeFault, Ticket, Turn, Work,
};
use std::alloc::Global;
use std::cell::Cell;
use std::sync::Wait;
use std::sync::atomic::{AtomicU64, Ordering};
use std::thread::Threads;

// What a board does with a turn.
#[derive(Clone, Copy)]
pub(crate) enum Meets {
    AsItsBook,
    NothingRuns,
    NoMemory,
    AsChanged,
    AsFull,
}

// A book that counts its calls, and refuses each third event by itself, as for a full journal. It does with the turns what it was
// told to, if it was. Others may see how many tickets were asked for.
#[derive(Drop)]
pub(crate) struct Counting<'a, L: Naming> {
    book: Book<L>,
    calls: u64,
    asked: u64,
    turns: &'static [Meets],
    turn: Meets,
    taken: &'a AtomicU64,
}

impl<'a, L: Naming> Counting<'a, L> {
    pub(crate) fn new(book: Book<L>, turns: &'static [Meets], taken: &'a AtomicU64) -> Self {
        Counting {
            book,
            calls: 0,
            asked: 0,
            turns,
            turn: Meets::AsItsBook,
            taken,
        }
    }

    // A ticket is asked for, and this is what the board does with the turn.
    fn meet(&mut self) -> Meets {
        self.calls = self.calls.saturating_add(1);
        self.taken.fetch_add(1, Ordering::SeqCst);
        self.turn = Meets::AsItsBook;
        if let Some((first, others)) = self.turns.split_first() {
            self.turn = *first;
            self.turns = others;
        }
        self.turn
    }
}

impl<L: Naming> Board<L> for Counting<'_, L> {
    fn seat(&mut self, alloc: Global) -> Result<Seat<L>, SeatFault> {
        self.calls = self.calls.saturating_add(1);
        self.book.seat(alloc)
    }

    fn take(&mut self, alloc: Global, spare: &mut Option<Ticket>) -> Result<Ticket, TakeFault> {
        match self.meet() {
            Meets::NothingRuns => Err(TakeFault::NoneRunning),
            Meets::NoMemory => Err(TakeFault::Memory),
            _ => Board::take(&mut self.book, alloc, spare),
        }
    }

    fn hand_in(&mut self, seat: &mut Seat<L>, work: &mut Work) -> CommitOutcome {
        self.calls = self.calls.saturating_add(1);
        if work.count() == 0 {
            return Board::hand_in(&mut self.book, seat, work);
        }
        match self.turn {
            Meets::AsChanged => CommitOutcome::Stale,
            Meets::AsFull => CommitOutcome::JournalFull,
            _ => Board::hand_in(&mut self.book, seat, work),
        }
    }

    fn apply<I: Input<Global>>(&mut self, seat: &mut Seat<L>, input: I) -> I::Answer {
        self.calls = self.calls.saturating_add(1);
        self.asked = self.asked.saturating_add(1);
        if self.asked % 3 == 0 {
            return input.full();
        }
        self.book.apply(seat, input)
    }

    fn slice(&mut self, seat: &mut Seat<L>, id: u16, budget: u32) -> Slice {
        self.calls = self.calls.saturating_add(1);
        self.book.slice(seat, id, budget)
    }
}

#[test]
fn answers_are_the_boards(rt: HostRuntime) {
    assert!(rt; play(&rt, rt.alloc(), 100, 1, Scene::AskBoard) == Some(true));
}

// Whether a board has counted these calls, and what they left.
fn is_counted<L: Naming>(board: &Counting<L>) -> bool {
    let engine = board.book.engine();
    board.calls == 20
        && board.asked == 16
        && engine.journal().len() == 13
        && engine.pool_word(3) == Some(7)
}

impl<L: Naming + Send + Sync, R: Threads + Wait + Sync> Stage<'_, L, R> {
    // Each call through the lock is one call of the board, and each third event is refused.
    pub(crate) fn ask_board(self) -> Option<bool> {
        let Stage { rt, alloc, book } = self;
        let taken = AtomicU64::new(0);
        let shared = SharedEngine::over(Counting::new(book, &[], &taken));
        let is_answered = is_answered(rt, alloc, &shared);
        Some(is_answered && is_counted(&shared.into_inner()))
    }
}

// All calls, by a first seat: a work of ten instructions, and then events.
fn is_answered<L: Naming, B: Board<L>, R: Wait>(
    rt: &R,
    alloc: Global,
    shared: &SharedEngine<L, B>,
) -> bool {
    let Ok(mut seat) = shared.seat(rt, alloc) else {
        return false;
    };
    let Ok(ticket) = shared.take(rt, alloc) else {
        return false;
    };
    shared.commit(rt, &mut seat, ticket.run(10)) == CommitOutcome::Committed(10)
        && is_requested(rt, alloc, shared, &mut seat)
        && is_stepped(rt, shared, &mut seat)
        && is_debugged(rt, shared, &mut seat)
        && is_put(rt, shared, &mut seat)
}

// The first two events: a request, and a drain of nothing.
fn is_requested<L: Naming, B: Board<L>, R: Wait>(
    rt: &R,
    alloc: Global,
    shared: &SharedEngine<L, B>,
    seat: &mut Seat<L>,
) -> bool {
    shared.request(rt, alloc, seat, 0, &STATUS).is_ok()
        && matches!(
            shared.drain(rt, alloc, seat, 0),
            Err(EngineFault::NothingDue)
        )
}

// The events 3 to 8, single instructions, and then five at once.
fn is_stepped<L: Naming, B: Board<L>, R: Wait>(
    rt: &R,
    shared: &SharedEngine<L, B>,
    seat: &mut Seat<L>,
) -> bool {
    for call in 3..9 {
        let wanted = if call % 3 == 0 {
            StepOutcome::JournalFull
        } else {
            StepOutcome::Ran
        };
        if shared.step(rt, seat, 1) != wanted {
            return false;
        }
    }
    shared.slice(rt, seat, 1, 5).count == 5
}

// The events 9 to 14: the first and the fourth are refused as for a full journal, and the fifth
// because the breakpoint is there.
fn is_debugged<L: Naming, B: Board<L>, R: Wait>(
    rt: &R,
    shared: &SharedEngine<L, B>,
    seat: &mut Seat<L>,
) -> bool {
    let full = Err(DebugFault::JournalFull);
    shared.trace(rt, seat, 1, true) == full
        && shared.trace(rt, seat, 1, true).is_ok()
        && shared.set_break(rt, seat, 1, 2).is_ok()
        && shared.set_break(rt, seat, 1, 2) == full
        && shared.set_break(rt, seat, 1, 2) == Err(DebugFault::AlreadySet)
        && shared.clear_break(rt, seat, 1, 2).is_ok()
}

// The events 15 and 16, writes of a word: the first is refused as for a full journal.
fn is_put<L: Naming, B: Board<L>, R: Wait>(
    rt: &R,
    shared: &SharedEngine<L, B>,
    seat: &mut Seat<L>,
) -> bool {
    shared.put_word(rt, seat, 3, 6) == Err(PutFault::JournalFull)
        && shared.put_word(rt, seat, 3, 7).is_ok()
}

// What a gate heard of a turn: a call before and one after it, of the same seat and procedure.
#[derive(Clone, Copy, PartialEq, Eq)]
enum Heard {
    Nothing,
    // The seat, the procedure and the count.
    Before(u16, u16, u32),
    // The same, and the outcome.
    Both(u16, u16, u32, CommitOutcome),
    Otherwise,
}

#[derive(Drop)]
struct Listening {
    heard: Cell<Heard>,
}

impl Gate for Listening {
    fn before(&self, seat: u16, id: u16, count: u32) {
        self.heard.set(match self.heard.get() {
            Heard::Nothing => Heard::Before(seat, id, count),
            _ => Heard::Otherwise,
        });
    }

    fn after(&self, seat: u16, id: u16, outcome: CommitOutcome) {
        self.heard.set(match self.heard.get() {
            Heard::Before(by, of, count) if by == seat && of == id => {
                Heard::Both(seat, id, count, outcome)
            }
            _ => Heard::Otherwise,
        });
    }
}

// What the board does with each turn of seat 2: procedures 1 and 2 run, and come one after the
// other.
const MEETS: [Meets; 9] = [
    Meets::AsItsBook,
    Meets::AsChanged,
    Meets::AsFull,
    Meets::NothingRuns,
    Meets::NoMemory,
    Meets::AsItsBook,
    Meets::AsItsBook,
    Meets::AsItsBook,
    Meets::AsItsBook,
];

// The budget of each of these turns, what it answers, and what its gate hears. Without a budget nothing is done without the lock, so
// one step is made under it. The board refuses the third of these steps.
const TURNS: [(u32, Turn, Heard); 9] = [
    (
        10,
        Turn::Committed(10),
        Heard::Both(2, 1, 10, CommitOutcome::Committed(10)),
    ),
    (7, Turn::Stale, Heard::Both(2, 2, 7, CommitOutcome::Stale)),
    (
        5,
        Turn::Full,
        Heard::Both(2, 1, 5, CommitOutcome::JournalFull),
    ),
    (5, Turn::Idle, Heard::Nothing),
    (5, Turn::NoMemory, Heard::Nothing),
    (
        0,
        Turn::Stepped(StepOutcome::Ran),
        Heard::Both(2, 2, 0, CommitOutcome::Empty),
    ),
    (
        0,
        Turn::Stepped(StepOutcome::Ran),
        Heard::Both(2, 1, 0, CommitOutcome::Empty),
    ),
    (0, Turn::Full, Heard::Both(2, 2, 0, CommitOutcome::Empty)),
    (
        3,
        Turn::Committed(3),
        Heard::Both(2, 1, 3, CommitOutcome::Committed(3)),
    ),
];

// The procedure and the count of each entry that seat 2 gains.
const GAINS: [(u16, u32); 4] = [(1, 10), (2, 1), (1, 1), (1, 3)];

// Whether an entry is that of seat 2 for this procedure and count.
fn is_gain(entry: &Entry, gain: (u16, u32)) -> bool {
    match entry {
        Entry::Steps { by, id, count, .. } => *by == 2 && *id == gain.0 && *count == gain.1,
        _ => false,
    }
}

// Whether seat 2 has the receipts of these.
fn is_receipted<L: Naming>(seat: &Seat<L>) -> bool {
    let receipts = seat.receipts();
    if receipts.len() != GAINS.len() {
        return false;
    }
    for (entry, gain) in receipts.iter().zip(GAINS) {
        if !is_gain(entry, gain) {
            return false;
        }
    }
    true
}

impl<L: Naming + Send + Sync, R: Threads + Wait + Sync> Stage<'_, L, R> {
    // The turns of seat 2 over a board with this script answer this, and their gates hear this.
    pub(crate) fn turn_by_script(self) -> Option<bool> {
        let Stage { rt, alloc, book } = self;
        let taken = AtomicU64::new(0);
        let shared = SharedEngine::over(Counting::new(book, &MEETS, &taken));
        Some(are_met(rt, alloc, &shared))
    }
}

// The turns of the second of two seats, and its receipts.
fn are_met<L: Naming, B: Board<L>, R: Wait>(
    rt: &R,
    alloc: Global,
    shared: &SharedEngine<L, B>,
) -> bool {
    let (Ok(_one), Ok(mut two)) = (shared.seat(rt, alloc), shared.seat(rt, alloc)) else {
        return false;
    };
    for (budget, wanted, heard) in TURNS {
        if !is_met(rt, alloc, shared, &mut two, budget, wanted, heard) {
            return false;
        }
    }
    is_receipted(&two)
}

// Whether a turn answers this, and its gate hears this.
fn is_met<L: Naming, B: Board<L>, R: Wait>(
    rt: &R,
    alloc: Global,
    shared: &SharedEngine<L, B>,
    seat: &mut Seat<L>,
    budget: u32,
    wanted: Turn,
    heard: Heard,
) -> bool {
    let gate = Listening {
        heard: Cell::new(Heard::Nothing),
    };
    shared.turn(rt, alloc, seat, budget, &gate) == wanted && gate.heard.get() == heard
}

#[test]
fn turns_answer_and_tell_their_gate(rt: HostRuntime) {
    assert!(rt; play(&rt, rt.alloc(), 100, 2, Scene::TurnByScript) == Some(true));
}
