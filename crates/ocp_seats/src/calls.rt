//! The calls of a seat that change the engine.

ghost use Rattle.std.specs.Prelude.{◌≡◌, ◌≤◌};
ghost use Rattle.ocp_core.specs.Clauses.{work_after};
ghost use Rattle.ocp_seats.specs.Seats.{Serves, ServesSlice, ServesWork};

use crate::{Book, CommitOutcome, Entry, Input, Naming, Seat, Slice, StepOutcome, Work};
use std::alloc::Allocator;

impl<L: Naming, A: Allocator> Book<L, A> {
    /// `Engine::apply` with the seat's number: a request, an instruction, a debugger's command, a
    /// drain or a write of a pool word. The seat keeps the receipt of the entry that the journal
    /// gained. The memory of the reports and of what journal and seat keep is taken before anything
    /// is changed.
    pub fn apply<I: Input<A>>(&mut self, seat: &mut Seat<L, A>, input: I) -> I::Answer
        ensures served { Serves self.old self.new seat.old seat.new
            (I.event seat.old.number input) (I.answer result) }
    {
        let (answer, entry) = self.engine.apply(seat.number, input);
        if let Some(entry) = entry {
            seat.gain(&mut self.tally, &self.engine, entry);
        }
        answer
    }

    /// `Engine::slice` with the seat's number: up to `budget` instructions.
    pub fn slice(&mut self, seat: &mut Seat<L, A>, id: u16, budget: u32) -> Slice
        requires { 1 ≤ budget }
        ensures served { ServesSlice self.old self.new seat.old seat.new id budget result }
    {
        let by = seat.number;
        let slice = self.engine.slice(by, id, budget);
        if slice.count != 0 {
            let entry = Entry::Steps {
                by,
                id,
                count: slice.count,
                mark: slice.last,
            };
            seat.gain(&mut self.tally, &self.engine, entry);
        }
        slice
    }

    /// `Engine::commit` with the seat's number.
    pub fn commit(&mut self, seat: &mut Seat<L, A>, mut work: Work<A>) -> CommitOutcome
        ensures served { ServesWork self.old self.new seat.old seat.new work result }
    {
        self.hand_in(seat, &mut work)
    }

    /// `Engine::hand_in` with the seat's number.
    pub fn hand_in(&mut self, seat: &mut Seat<L, A>, work: &mut Work<A>) -> CommitOutcome
        ensures served { ServesWork self.old self.new seat.old seat.new work.old result }
        ensures work { work.new ≡ work_after work.old result }
    {
        let by = seat.number;
        let id = work.id();
        let outcome = self.engine.hand_in(by, work);
        if let CommitOutcome::Committed(count) = outcome {
            let entry = Entry::Steps {
                by,
                id,
                count,
                mark: StepOutcome::Ran,
            };
            seat.gain(&mut self.tally, &self.engine, entry);
        }
        outcome
    }
}
