//! Workers: one thread for each seat, and engines that they work on.

ghost use Rattle.std.specs.Prelude.{◌≡◌, ◌≤◌, ◌+◌, [], All, length, IfOk};
ghost use Rattle.ocp_seats.specs.Seats.{Opens};
ghost use Rattle.ocp_slices.specs.Closed.{HasWorked};
ghost use Rattle.ocp_slices.specs.Continuing.{AllContinue};
ghost use Rattle.ocp_slices.specs.Instructing.{IsInstructed};
ghost use Rattle.ocp_slices.specs.declared.crew.WorkFault.TheVariants.{Memory};
ghost use Rattle.ocp_slices.specs.WorkFaults.{fault_of_seat};

use crate::laws::workers_do_instructions_of_running_procedures;
use crate::{Board, Engine, Gate, MAX_SEATS, Naming, Seat, SeatFault, SharedEngine};
use std::alloc::{AllocError, Global};
use std::marker::Brand;
use std::sync::Wait;
use std::sync::ledger::Blank;
use std::thread;
use std::thread::Threads;
use thiserror::Error;

/// Makes `turns` turns in each seat, with one thread for each seat. If no thread can be made, the
/// seats take their turns one after another. A turn that finds no memory is spent.
pub fn workers<
    L: Naming + Send + Sync,
    B: Board<L> + Send,
    R: Threads + Wait + Sync,
    G: Gate + Sync,
>(
    rt: &R,
    alloc: Global,
    shared: &SharedEngine<L, B>,
    seats: &mut [Seat<L>],
    budget: u32,
    turns: u32,
    gate: &G,
)
    ensures { AllContinue turns budget seats.old seats.new }
{
    let threads = seats.len();
    if threads == 0 {
        return;
    }
    thread::for_each_mut(
        rt,
        seats,
        threads,
        &|_, seat| shared.turns(rt, alloc, seat, budget, turns, gate),
    );
}

/// Shares an engine, lets `crew` workers make `turns` turns each with a budget of instructions, and
/// closes it. The engine comes back with its journal followed by new entries, which are one history
/// of `crew` seats: each is instructions of one procedure by one of the workers, at least one and
/// at most the budget, or one if the budget is 0. No worker has more entries than turns. So the new
/// world is the old one after a list of instruction events of running procedures. There are at most
/// 64 workers. Refused if there is no memory for the seats, or if the shared engine was not closed;
/// the engine is then dropped.
pub fn work<R: Threads + Wait + Sync, G: Gate + Sync>(
    rt: &R,
    alloc: Global,
    engine: Engine,
    crew: u16,
    budget: u32,
    turns: u32,
    gate: &G,
) -> Result<Engine, WorkFault>
    requires { crew ≤ 64 }
    ensures worked { IfOk result (λ after. HasWorked engine after crew budget turns) }
    ensures world { IfOk result (λ after. IsInstructed engine after crew) }
{
    workers_do_instructions_of_running_procedures();
    // There are no more entries than the capacity, by the contract of `len`.
    let _length = engine.journal().len();
    let blank = Blank::new(u64::from(MAX_SEATS) + 1);
    work_as::<Brand, R, G>(rt, alloc, engine, blank, crew, budget, turns, gate)
}

// `work`, with a name for the shared engine.
fn work_as<L: Naming + Send + Sync, R: Threads + Wait + Sync, G: Gate + Sync>(
    rt: &R,
    alloc: Global,
    engine: Engine,
    blank: Blank,
    crew: u16,
    budget: u32,
    turns: u32,
    gate: &G,
) -> Result<Engine, WorkFault>
    requires opens { Opens blank.name blank.parts L.name L.parts L.room L.log engine }
    requires crew { crew ≤ 64 }
    ensures { IfOk result (λ after. HasWorked engine after crew budget turns) }
{
    let shared = SharedEngine::<L>::new(engine, blank);
    let mut seats = seats_of(rt, alloc, &shared, crew)?;
    let all = seats.as_mut_slice();
    workers(rt, alloc, &shared, all, budget, turns, gate);
    match shared.close(seats) {
        Ok(engine) => Ok(engine),
        Err(_fault) => Err(WorkFault::NotClosed),
    }
}

/// `crew` seats, with no receipts.
#[tactic(auto, using(crate::proofs::Working::fresh_none, crate::proofs::Working::fresh_more))]
fn seats_of<L: Naming, B: Board<L>, R: Wait>(
    rt: &R,
    alloc: Global,
    shared: &SharedEngine<L, B>,
    crew: u16,
) -> Result<Vec<Seat<L>>, WorkFault>
    ensures count { IfOk result (λ seats. length seats.items ≡ crew) }
    ensures fresh { IfOk result (λ seats. All (λ seat. seat.receipts ≡ []) seats.items) }
{
    let mut seats = Vec::with_capacity(alloc, usize::from(crew))?;
    for _seat in 0..crew {
        seats
            .push(shared.seat(rt, alloc)?)
            .map_err(AllocError::from)?;
    }
    Ok(seats)
}

/// Why an engine does not come back.
#[derive(Clone, Copy, PartialEq, Eq, Debug, Error)]
pub enum WorkFault {
    #[error("there is no memory for the seats")]
    Memory,
    /// A seat was not given out, or the shared engine was not closed. No schedule is known that
    /// leads to this.
    #[error("the shared engine was not closed")]
    NotClosed,
}

impl From<SeatFault> for WorkFault {
    ghost from_gives = { λ fault r. r ≡ fault_of_seat fault };

    fn from(fault: SeatFault) -> Self {
        match fault {
            SeatFault::Memory => WorkFault::Memory,
            SeatFault::SeatsFull => WorkFault::NotClosed,
        }
    }
}

impl From<AllocError> for WorkFault {
    ghost from_gives = { λ _ r. r ≡ Memory };

    fn from(_error: AllocError) -> Self {
        WorkFault::Memory
    }
}
