//! Two threads of a caller, each with a seat.

use crate::boards::Counting;
use crate::packets::{STATUS, activate_loop, is_taken, load_long, takes, with_loops};
use crate::scenes::{LIMIT, Scene, Stage, play, play_on};
use ocp_slices::{
    Board, CloseFault, CommitOutcome, Engine, Gate, Naming, Seat, SharedEngine, StepOutcome,
    StillShared, Turn,
};
use std::alloc::Global;
use std::sync::Wait;
use std::sync::atomic::{AtomicU64, Ordering};
use std::thread;
use std::thread::Threads;

#[test]
fn two_threads_wait_for_each_other(rt: HostRuntime) {
    assert!(rt; play(&rt, rt.alloc(), 100, 1, Scene::StepBoth) == Some(true));
}

// One step, and then a wait until the other thread's first step was answered.
fn step_and_wait<L: Naming, R: Wait>(
    rt: &R,
    shared: &SharedEngine<L>,
    seat: &mut Seat<L>,
    mine: &AtomicU64,
    other: &AtomicU64,
) -> bool {
    let answer = shared.step(rt, seat, 1);
    mine.store(1, Ordering::SeqCst);
    for _turn in 0..LIMIT {
        if other.load(Ordering::SeqCst) != 0 {
            return answer == StepOutcome::Ran;
        }
    }
    false
}

impl<L: Naming + Send + Sync, R: Threads + Wait + Sync> Stage<'_, L, R> {
    // Each thread's first step is answered while the other one waits for it; one seat also makes a
    // request.
    pub(crate) fn step_both(self) -> Option<bool> {
        let Stage { rt, alloc, book } = self;
        let shared = SharedEngine::over(book);
        let mut one = shared.seat(rt, alloc).ok()?;
        let mut two = shared.seat(rt, alloc).ok()?;
        let is_done = step_at_once(rt, &shared, &mut one, &mut two)
            && is_taken(rt, alloc, &shared, &mut two, &STATUS);
        Some(is_done && closed(alloc, shared, one, two)?.events() == 5)
    }
}

// Whether the first step of each of two seats, in a thread of its own, meets the other's.
fn step_at_once<L: Naming + Send + Sync, R: Threads + Wait + Sync>(
    rt: &R,
    shared: &SharedEngine<L>,
    one: &mut Seat<L>,
    two: &mut Seat<L>,
) -> bool {
    let (first, second) = (AtomicU64::new(0), AtomicU64::new(0));
    let (met, also) = thread::join(
        rt,
        || step_and_wait(rt, shared, one, &first, &second),
        || step_and_wait(rt, shared, two, &second, &first),
    );
    met && also
}

// The engine that two seats shared: it is closed with them, and not before.
fn closed<L: Naming>(
    alloc: Global,
    shared: SharedEngine<L>,
    one: Seat<L>,
    two: Seat<L>,
) -> Option<Engine> {
    let (shared, mut seats) = refused(shared, Vec::new(alloc))?;
    seats.push(two).ok()?;
    seats.push(one).ok()?;
    shared.close(seats).ok()
}

// A shared engine that is not closed, because a seat is missing, and the seats that were handed in.
fn refused<L: Naming>(
    shared: SharedEngine<L>,
    seats: Vec<Seat<L>>,
) -> Option<(SharedEngine<L>, Vec<Seat<L>>)> {
    match shared.close(seats) {
        Err(
            StillShared {
                why: CloseFault::MissingSeat,
                shared,
                seats,
            },
        ) => Some((shared, seats)),
        _ => None,
    }
}

// The budgets of seat 1's one turn, one after another, until seat 2 makes all its turns meanwhile.
const BUDGETS: [u32; 8] = [
    20_000,
    80_000,
    320_000,
    1_280_000,
    5_120_000,
    20_480_000,
    81_920_000,
    327_680_000,
];

// How many turns seat 2 makes, with which budget, and for how long it waits after each.
const TURNS: u32 = 10;

const SHORT: u32 = 10;

const PAUSE: u32 = 1_000_000;

// What is seen of the two seats.
#[derive(Drop)]
struct Watch {
    // How many tickets the board was asked for.
    taken: AtomicU64,
    // How many works of seat 2 were answered.
    answered: AtomicU64,
    // How many of these when seat 1's run was over, and that it is.
    met: AtomicU64,
    over: AtomicU64,
}

impl Gate for Watch {
    fn before(&self, seat: u16, _id: u16, _count: u32) {
        if seat == 1 {
            let answered = self.answered.load(Ordering::SeqCst);
            self.met.store(answered, Ordering::SeqCst);
            self.over.store(1, Ordering::SeqCst);
        }
    }

    fn after(&self, seat: u16, _id: u16, _outcome: CommitOutcome) {
        if seat == 2 {
            self.answered.fetch_add(1, Ordering::SeqCst);
            for _turn in 0..PAUSE {
                if self.over.load(Ordering::SeqCst) != 0 {
                    return;
                }
            }
        }
    }
}

#[test]
fn no_lock_is_held_while_a_ticket_runs(rt: HostRuntime) {
    assert!(rt; is_met_by_a_budget(&rt, rt.alloc()));
}

// Whether seat 2 makes all its turns while a ticket runs that has one of the budgets.
fn is_met_by_a_budget<R: Threads + Wait + Sync>(rt: &R, alloc: Global) -> bool {
    for budget in BUDGETS {
        match is_met(rt, alloc, budget) {
            Some(false) => {}
            Some(true) => return true,
            None => return false,
        }
    }
    false
}

// Whether the turns of seat 2 on a new engine were all made meanwhile; none if the work of seat 1
// was not stale then.
fn is_met<R: Threads + Wait + Sync>(rt: &R, alloc: Global, budget: u32) -> Option<bool> {
    let mut engine = with_loops(alloc, 100, 0)?;
    if !takes(alloc, &mut engine, &load_long()) || !takes(alloc, &mut engine, &activate_loop(1)) {
        return None;
    }
    play_on(rt, alloc, engine, Scene::RunMeanwhile(budget))
}

// Turns of seat 2, once a ticket was taken.
fn turns_once_taken<L: Naming, B: Board<L>, R: Wait>(
    rt: &R,
    alloc: Global,
    shared: &SharedEngine<L, B>,
    seat: &mut Seat<L>,
    watch: &Watch,
) {
    for _turn in 0..LIMIT {
        if watch.taken.load(Ordering::SeqCst) != 0 {
            break;
        }
    }
    shared.turns(rt, alloc, seat, SHORT, TURNS, watch);
}

// What a turn of seat 1 with this budget answers, while seat 2 makes its turns.
fn at_once<L: Naming + Send + Sync, B: Board<L> + Send, R: Threads + Wait + Sync>(
    rt: &R,
    alloc: Global,
    shared: &SharedEngine<L, B>,
    one: &mut Seat<L>,
    two: &mut Seat<L>,
    budget: u32,
    watch: &Watch,
) -> Turn {
    let (turn, ()) = thread::join(
        rt,
        || shared.turn(rt, alloc, one, budget, watch),
        || turns_once_taken(rt, alloc, shared, two, watch),
    );
    turn
}

impl<L: Naming + Send + Sync, R: Threads + Wait + Sync> Stage<'_, L, R> {
    // All turns of seat 2 come after seat 1 took its ticket, and are answered before it has run;
    // none if seat 1's work is not stale then.
    pub(crate) fn run_meanwhile(self, budget: u32) -> Option<bool> {
        let Stage { rt, alloc, book } = self;
        let watch = Watch {
            taken: AtomicU64::new(0),
            answered: AtomicU64::new(0),
            met: AtomicU64::new(0),
            over: AtomicU64::new(0),
        };
        let shared = SharedEngine::over(Counting::new(book, &[], &watch.taken));
        let mut one = shared.seat(rt, alloc).ok()?;
        let mut two = shared.seat(rt, alloc).ok()?;
        let turn = at_once(rt, alloc, &shared, &mut one, &mut two, budget, &watch);
        let met = watch.met.load(Ordering::SeqCst) == u64::from(TURNS);
        if met && turn != Turn::Stale {
            return None;
        }
        Some(met)
    }
}
