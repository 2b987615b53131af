//! Workers: one thread for each seat.

ghost use Rattle.std.specs.Prelude.{◌≤◌};

use crate::packets::{STATUS, activate_loop, is_done, is_taken, suspend_loop, with_loops};
use crate::scenes::{LIMIT, Scene, Stage, play};
use ocp_core::replay_one;
use ocp_slices::{
    CommitOutcome, Engine, Gate, Naming, Open, Seat, SharedEngine, StepOutcome, work,
};
use std::alloc::Global;
use std::sync::Wait;
use std::sync::atomic::{AtomicU64, Ordering};
use std::thread;
use std::thread::Threads;

// A new engine with loops, on which `workers` workers made `turns` turns each.
fn worked<R: Threads + Wait + Sync, G: Gate + Sync>(
    rt: &R,
    alloc: Global,
    loops: u8,
    workers: u16,
    turns: u32,
    gate: &G,
) -> Option<Engine>
    requires loops { loops ≤ 16 }
    requires workers { workers ≤ 64 }
{
    let engine = with_loops(alloc, 10_000, loops)?;
    work(rt, alloc, engine, workers, 100, turns, gate).ok()
}

// Whether three loops are at their end, after 3,006 events.
fn are_done(engine: Option<Engine>) -> bool {
    match engine {
        Some(engine) => {
            is_done(engine.view(1))
                && is_done(engine.view(2))
                && is_done(engine.view(3))
                && engine.events() == 3_006
        }
        None => false,
    }
}

#[test]
fn three_loops_end_under_any_number_of_workers(rt: HostRuntime) {
    assert!(rt; are_done(worked(&rt, rt.alloc(), 3, 1, 1000, &Open)));
    assert!(rt; are_done(worked(&rt, rt.alloc(), 3, 2, 1000, &Open)));
    assert!(rt; are_done(worked(&rt, rt.alloc(), 3, 16, 1000, &Open)));
}

// Holds each seat's first call until the other's has begun, and then seat 1's until a commit of seat 2 was answered.
#[derive(Drop)]
struct Meeting {
    // The id of each seat's first call, or 0.
    first: [AtomicU64; 2],
    answered: AtomicU64,
    // How often a seat gave up.
    missed: AtomicU64,
}

impl Meeting {
    fn new() -> Meeting {
        Meeting {
            first: [AtomicU64::new(0), AtomicU64::new(0)],
            answered: AtomicU64::new(0),
            missed: AtomicU64::new(0),
        }
    }

    fn wait_for(&self, word: &AtomicU64) {
        for _turn in 0..LIMIT {
            if word.load(Ordering::SeqCst) != 0 {
                return;
            }
        }
        self.missed.fetch_add(1, Ordering::SeqCst);
    }
}

impl Gate for Meeting {
    fn before(&self, seat: u16, id: u16, _count: u32) {
        let (mine, other) = if seat == 1 {
            (&self.first[0], &self.first[1])
        } else {
            (&self.first[1], &self.first[0])
        };
        if mine.load(Ordering::SeqCst) == 0 {
            mine.store(u64::from(id), Ordering::SeqCst);
            self.wait_for(other);
            if seat == 1 {
                self.wait_for(&self.answered);
            }
        }
    }

    fn after(&self, seat: u16, _id: u16, _outcome: CommitOutcome) {
        if seat == 2 {
            self.answered.store(1, Ordering::SeqCst);
        }
    }
}

// Whether there were more than four events, and the two seats met at two procedures.
fn are_met(engine: Option<Engine>, gate: &Meeting) -> bool {
    let [one, two] = &gate.first;
    let is_met = gate.missed.load(Ordering::SeqCst) == 0
        && one.load(Ordering::SeqCst) != two.load(Ordering::SeqCst);
    match engine {
        Some(engine) => is_met && engine.events() > 4,
        None => false,
    }
}

#[test]
fn two_workers_run_at_once(rt: HostRuntime) {
    let gate = Meeting::new();
    let engine = worked(&rt, rt.alloc(), 2, 2, 5, &gate);
    assert!(rt; are_met(engine, &gate));
}

// Holds each call until as many have begun as there are seats. Each of these is another seat's, since no seat continues before.
#[derive(Drop)]
struct Gathering {
    seats: u64,
    begun: AtomicU64,
    // How often a seat gave up.
    missed: AtomicU64,
}

impl Gate for Gathering {
    fn before(&self, _seat: u16, _id: u16, _count: u32) {
        self.begun.fetch_add(1, Ordering::SeqCst);
        for _turn in 0..LIMIT {
            if self.begun.load(Ordering::SeqCst) >= self.seats {
                return;
            }
        }
        self.missed.fetch_add(1, Ordering::SeqCst);
    }

    fn after(&self, _seat: u16, _id: u16, _outcome: CommitOutcome) {}
}

// Whether `workers` seats each had a thread of its own.
fn are_gathered<R: Threads + Wait + Sync>(rt: &R, alloc: Global, workers: u16) -> bool
    requires { workers ≤ 64 }
{
    let gate = Gathering {
        seats: u64::from(workers),
        begun: AtomicU64::new(0),
        missed: AtomicU64::new(0),
    };
    worked(rt, alloc, 16, workers, 2, &gate).is_some()
        && gate.begun.load(Ordering::SeqCst) == 2 * u64::from(workers)
        && gate.missed.load(Ordering::SeqCst) == 0
}

#[test]
fn each_seat_has_a_thread_of_its_own(rt: HostRuntime) {
    assert!(rt; are_gathered(&rt, rt.alloc(), 3));
    assert!(rt; are_gathered(&rt, rt.alloc(), 16));
}

#[test]
fn sixteen_workers_with_all_calls_between(rt: HostRuntime) {
    assert!(rt; play(&rt, rt.alloc(), 4_000, 16, Scene::MixCalls) == Some(true));
}

impl<L: Naming + Send + Sync, R: Threads + Wait + Sync> Stage<'_, L, R> {
    // Sixteen seats, each with a thread that makes turns and all other calls between them; then all
    // are closed. They leave over 500 entries, and the machines that these have.
    pub(crate) fn mix_calls(self) -> Option<bool> {
        let Stage { rt, alloc, book } = self;
        let shared = SharedEngine::over(book);
        let mut seats = seats_of(rt, alloc, &shared, 16)?;
        thread::for_each_mut(
            rt,
            seats.as_mut_slice(),
            16,
            &|_, seat| calls(rt, alloc, &shared, seat),
        );
        let engine = shared.close(seats).ok()?;
        Some(engine.journal().len() > 500 && are_shown(alloc, &engine))
    }
}

// `count` seats.
pub(crate) fn seats_of<L: Naming, R: Wait>(
    rt: &R,
    alloc: Global,
    shared: &SharedEngine<L>,
    count: u16,
) -> Option<Vec<Seat<L>>> {
    let mut seats = Vec::with_capacity(alloc, usize::from(count)).ok()?;
    for _seat in 0..count {
        seats.push(shared.seat(rt, alloc).ok()?).ok()?;
    }
    Some(seats)
}

// Turns of a seat, each after a call that meets another procedure.
fn calls<L: Naming, R: Wait>(rt: &R, alloc: Global, shared: &SharedEngine<L>, seat: &mut Seat<L>) {
    for round in 0..48 {
        let id = (seat.number().wrapping_add(round) % 16) as u8 + 1;
        let _ = is_called(rt, alloc, shared, seat, round % 10, id);
        shared.turn(rt, alloc, seat, 100, &Open);
    }
}

// A call of one of ten kinds: whether it is answered.
fn is_called<L: Naming, R: Wait>(
    rt: &R,
    alloc: Global,
    shared: &SharedEngine<L>,
    seat: &mut Seat<L>,
    kind: u16,
    id: u8,
) -> bool {
    let procedure = u16::from(id);
    match kind {
        0 => shared.set_break(rt, seat, procedure, 2).is_ok(),
        1 => is_taken(rt, alloc, shared, seat, &STATUS),
        2 => shared.trace(rt, seat, procedure, true).is_ok(),
        3 => shared.slice(rt, seat, procedure, 10).count > 0,
        4 => shared.clear_break(rt, seat, procedure, 2).is_ok(),
        5 => shared.trace(rt, seat, procedure, false).is_ok(),
        6 => is_taken(rt, alloc, shared, seat, &activate_loop(id)),
        7 => is_taken(rt, alloc, shared, seat, &suspend_loop(id)),
        8 => shared.drain(rt, alloc, seat, 0).is_ok(),
        _ => shared.step(rt, seat, procedure) == StepOutcome::Ran,
    }
}

// Whether the machine of each procedure by itself is the one that the engine shows.
fn are_shown(alloc: Global, engine: &Engine) -> bool {
    for id in 1..18 {
        if !is_shown(alloc, engine, id) {
            return false;
        }
    }
    true
}

// Whether the machine of a procedure by itself, from the journal, is the one that the engine shows, or there is none of either.
fn is_shown(alloc: Global, engine: &Engine, id: u16) -> bool {
    match (replay_one(alloc, engine.journal(), id), engine.view(id)) {
        (Ok(Some(machine)), Some(view)) => {
            machine.registers() == view.registers
                && machine.place() == view.place
                && machine.depth() == view.depth
        }
        (Ok(None), None) => true,
        _ => false,
    }
}
