//! The value behind the lock.

ghost use Rattle.std.specs.Prelude.{◌≡◌, ◌≤◌, [], None, Ok, Err, IfOk, IfErr, OnOk, OnErr};
ghost use Rattle.ocp_core.specs.Clauses.{work_after};
ghost use Rattle.ocp_slices.specs.Replies.{Reply, SeatReply, TakeReply, IsServed, IsSliced, IsHandedIn};

use crate::{Book, CommitOutcome, Input, Naming, Seat, SeatFault, Slice, TakeFault, Ticket, Work};
use std::alloc::Global;

/// What a call under the lock asks of the value behind it. `Book` implements it, and its own calls
/// state their whole meaning. This trait states what a caller of the lock can know: what its own
/// seat gains, and that it gets the board's answer.
pub trait Board<L: Naming> {
    // The answers that it may give. A caller is proved for every such relation, so it knows an
    // answer to be in it only if the board gave that answer.
    ghost answers: { Reply → Type 0 } = { λ _. Unit {0} };

    /// The next seat.
    fn seat(&mut self, alloc: Global) -> Result<Seat<L>, SeatFault>
        ensures given { answers (SeatReply result) }
        ensures receipts { IfOk result (λ seat. (seat.receipts ≡ []) × (seat.share ≡ 0)) }
        ensures number { IfOk result (λ seat. (1 ≤ seat.number) × (seat.number ≤ 64)) };

    /// A ticket for the next running procedure, in turn. A spare ticket becomes it, if there is
    /// one. The spare ticket stays if none runs or there is no memory.
    fn take(&mut self, alloc: Global, spare: &mut Option<Ticket>) -> Result<Ticket, TakeFault>
        ensures given { answers (TakeReply result) }
        ensures used { OnOk result (spare.new ≡ None) }
        ensures kept { OnErr result (spare.new ≡ spare.old) };

    /// Hands in a work, which stays.
    fn hand_in(&mut self, seat: &mut Seat<L>, work: &mut Work) -> CommitOutcome
        ensures handed_in { IsHandedIn answers seat.old seat.new work.old result }
        ensures work { work.new ≡ work_after work.old result };

    /// Asks the engine by the seat's number.
    fn apply<I: Input<Global>>(&mut self, seat: &mut Seat<L>, input: I) -> I::Answer
        ensures served { IsServed answers seat.old seat.new
            (I.event seat.old.number input) (I.answer result) };

    /// Does instructions of a procedure.
    fn slice(&mut self, seat: &mut Seat<L>, id: u16, budget: u32) -> Slice
        requires { 1 ≤ budget }
        ensures sliced { IsSliced answers seat.old seat.new id budget result };
}

impl<L: Naming> Board<L> for Book<L> {
    ghost use Rattle.ocp_seats.specs.Seats.{HandsOut, RefusesSeat, Serves, ServesSlice, ServesWork};
    ghost use Rattle.ocp_seats.specs.Taking.{Takes, RefusesTake};

    fn seat(&mut self, alloc: Global) -> Result<Seat<L>, SeatFault>
        ensures ok { IfOk result (λ seat. HandsOut self.old self.new seat) }
        ensures err { IfErr result (λ why. (self.new ≡ self.old) × RefusesSeat self.old why) }
        ensures receipts { IfOk result (λ seat. (seat.receipts ≡ []) × (seat.share ≡ 0)) }
        ensures number { IfOk result (λ seat. (1 ≤ seat.number) × (seat.number ≤ 64)) }
    {
        Book::seat(self, alloc)
    }

    fn take(&mut self, alloc: Global, spare: &mut Option<Ticket>) -> Result<Ticket, TakeFault>
        ensures ok { IfOk result (λ ticket. Takes self.old self.new ticket) }
        ensures err { IfErr result (λ why. (self.new ≡ self.old) × RefusesTake self.old why) }
        ensures used { OnOk result (spare.new ≡ None) }
        ensures kept { OnErr result (spare.new ≡ spare.old) }
    {
        let Some(mut ticket) = spare.take() else {
            return Book::take(self, alloc);
        };
        if let Err(fault) = self.take_into(alloc, &mut ticket) {
            *spare = Some(ticket);
            return Err(fault);
        }
        Ok(ticket)
    }

    #[tactic(auto, using(crate::proofs::Outcomes::empty_exactly, crate::proofs::Outcomes::committed_all))]
    fn hand_in(&mut self, seat: &mut Seat<L>, work: &mut Work) -> CommitOutcome
        ensures serves { ServesWork self.old self.new seat.old seat.new work.old result }
        ensures handed_in { IsHandedIn (λ _. Unit {0}) seat.old seat.new work.old result }
        ensures work { work.new ≡ work_after work.old result }
    {
        Book::hand_in(self, seat, work)
    }

    fn apply<I: Input<Global>>(&mut self, seat: &mut Seat<L>, input: I) -> I::Answer
        ensures serves { Serves self.old self.new seat.old seat.new
            (I.event seat.old.number input) (I.answer result) }
    {
        Book::apply(self, seat, input)
    }

    fn slice(&mut self, seat: &mut Seat<L>, id: u16, budget: u32) -> Slice
        requires { 1 ≤ budget }
        ensures serves { ServesSlice self.old self.new seat.old seat.new id budget result }
    {
        Book::slice(self, seat, id, budget)
    }
}
