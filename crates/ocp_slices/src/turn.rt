//! Turns: take a procedure, run it without the lock, and put its work back.

ghost use Rattle.std.specs.Prelude.{◌≡◌, ℕ, IfSome};
ghost use Rattle.ocp_slices.specs.Continuing.{Continues};
ghost use Rattle.ocp_slices.specs.Replies.{TakeReply};
ghost use Rattle.ocp_slices.specs.Turns.{IsWorkOf, IsTurn, turn_without};

use crate::input::Step;
use crate::{
    Board, CommitOutcome, Naming, Seat, SharedEngine, StepOutcome, TakeFault, Ticket, Work,
};
use std::alloc::Global;
use std::sync::Wait;

/// What is called before and after each commit of a turn, with no lock held.
pub trait Gate {
    /// The seat is about to hand in `count` instructions of a procedure.
    fn before(&self, seat: u16, id: u16, count: u32);

    /// They were handed in, with this outcome.
    fn after(&self, seat: u16, id: u16, outcome: CommitOutcome);
}

/// A gate that does nothing.
#[derive(Drop)]
pub struct Open;

impl Gate for Open {
    fn before(&self, _seat: u16, _id: u16, _count: u32) {}

    fn after(&self, _seat: u16, _id: u16, _outcome: CommitOutcome) {}
}

/// What a turn did.
#[derive(Clone, Copy, PartialEq, Eq, Debug)]
pub enum Turn {
    /// No procedure runs.
    Idle,
    /// This many instructions were done without the lock, and are events now.
    Committed(u32),
    /// The procedure could do none by itself, so one instruction was done under the lock, with this
    /// outcome.
    Stepped(StepOutcome),
    /// The procedure had changed meanwhile, and the work was dropped.
    Stale,
    /// There is no room for a further journal entry.
    Full,
    /// There is no memory for a ticket.
    NoMemory,
}

/// Why a turn without a ticket does nothing.
fn turn_without(fault: TakeFault) -> Turn
    ensures { result ≡ turn_without fault }
{
    match fault {
        TakeFault::NoneRunning => Turn::Idle,
        TakeFault::Memory => Turn::NoMemory,
    }
}

/// Hands in the work of a turn, and does one instruction of its procedure if that could do none by
/// itself: the work's outcome, and what the turn answers.
fn put_back<L: Naming, B: Board<L>>(
    board: &mut B,
    seat: &mut Seat<L>,
    work: &mut Work,
) -> (CommitOutcome, Turn)
    ensures turned { (budget : ℕ) → IsWorkOf B.answers budget work.old →
        IsTurn B.answers budget seat.old seat.new result.1 }
{
    let id = work.id();
    let outcome = board.hand_in(seat, work);
    match outcome {
        CommitOutcome::Committed(count) => (outcome, Turn::Committed(count)),
        CommitOutcome::Stale => (outcome, Turn::Stale),
        CommitOutcome::JournalFull => (outcome, Turn::Full),
        CommitOutcome::Empty => match board.apply(seat, Step { id }) {
            StepOutcome::JournalFull => (outcome, Turn::Full),
            answer => (outcome, Turn::Stepped(answer)),
        },
    }
}

impl<L: Naming, B: Board<L>> SharedEngine<L, B> {
    /// Takes the next running procedure, runs it without the lock for up to `budget` instructions,
    /// and commits what it did. If it could do none by itself, one instruction of it is done under
    /// the lock. It answers what the board answered. No lock is held while the procedure runs or
    /// the gate is called.
    pub fn turn<R: Wait, G: Gate>(
        &self,
        rt: &R,
        alloc: Global,
        seat: &mut Seat<L>,
        budget: u32,
        gate: &G,
    ) -> Turn
        ensures turned { IsTurn B.answers budget seat.old seat.new result }
    {
        let taken = self.take(rt, alloc);
        let (turn, _next) = self.turn_by(rt, alloc, seat, budget, gate, taken, &mut None, false);
        turn
    }

    /// A turn that begins with what was taken. If more turns follow, the ticket of the next one is
    /// taken under the same lock, into the memory of a spare ticket if there is one.
    #[tactic(auto, using(crate::proofs::Turning::did, crate::proofs::Turning::idle))]
    fn turn_by<R: Wait, G: Gate>(
        &self,
        rt: &R,
        alloc: Global,
        seat: &mut Seat<L>,
        budget: u32,
        gate: &G,
        taken: Result<Ticket, TakeFault>,
        spare: &mut Option<Ticket>,
        more: bool,
    ) -> (Turn, Option<Result<Ticket, TakeFault>>)
        requires given { B.answers (TakeReply taken) }
        ensures turned { IsTurn B.answers budget seat.old seat.new result.0 }
        ensures given { IfSome result.1 (λ next. B.answers (TakeReply next)) }
    {
        let ticket = match taken {
            Ok(ticket) => ticket,
            Err(fault) if more => {
                let next = self.lock(rt).take(alloc, spare);
                return (turn_without(fault), Some(next));
            }
            Err(fault) => return (turn_without(fault), None),
        };
        let mut work = ticket.run(budget);
        let number = seat.number();
        let id = work.id();
        gate.before(number, id, work.count());
        let mut board = self.lock(rt);
        let (outcome, turn) = put_back(&mut *board, seat, &mut work);
        *spare = Some(work.into_ticket());
        let next = if more {
            Some(board.take(alloc, spare))
        } else {
            None
        };
        drop(board);
        gate.after(number, id, outcome);
        (turn, next)
    }

    /// Makes `turns` turns, one after the other. It takes the lock once between two of them. After
    /// a turn that had a ticket none asks for memory, if all machines have one size, as those of
    /// one engine have.
    pub fn turns<R: Wait, G: Gate>(
        &self,
        rt: &R,
        alloc: Global,
        seat: &mut Seat<L>,
        budget: u32,
        turns: u32,
        gate: &G,
    )
        ensures { Continues turns budget seat.old seat.new }
    {
        let mut spare = None;
        let mut next = None;
        for turn in 0..turns {
            let taken = match next {
                Some(taken) => taken,
                None => self.take(rt, alloc),
            };
            let more = turn + 1 < turns;
            let (_turn, after) = self.turn_by(
                rt, alloc, seat, budget, gate, taken, &mut spare, more,
            );
            next = after;
        }
    }
}
