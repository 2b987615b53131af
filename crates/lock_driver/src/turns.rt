//! Turns, made of calls of the book alone: what a shared engine's turns have to be by one thread.

use crate::gate::Heard;
use ocp_slices::input::Step;
use ocp_slices::{Book, CommitOutcome, Gate, Naming, Seat, StepOutcome, TakeFault, Ticket, Turn};
use std::alloc::Global;

/// How turns are made.
#[derive(Clone, Copy)]
pub(crate) struct Turns<'a> {
    alloc: Global,
    budget: u32,
    /// What the gate hears. It takes a ticket each time it is called.
    heard: &'a Heard,
}

impl<'a> Turns<'a> {
    pub fn new(alloc: Global, budget: u32, heard: &'a Heard) -> Self {
        Turns {
            alloc,
            budget,
            heard,
        }
    }

    pub fn make_one<L: Naming>(&self, book: &mut Book<L>, seat: &mut Seat<L>) -> Turn {
        let taken = book.take(self.alloc);
        let (turn, _next) = self.make_by(book, seat, taken, false);
        turn
    }

    /// Makes `turns` turns.
    pub fn make<L: Naming>(&self, book: &mut Book<L>, seat: &mut Seat<L>, turns: u32) {
        let mut next = None;
        for turn in 0..turns {
            let taken = match next {
                Some(taken) => taken,
                None => book.take(self.alloc),
            };
            let (_turn, after) = self.make_by(book, seat, taken, turn < turns - 1);
            next = after;
        }
    }

    /// A turn that begins with what was taken, and what the next one begins with, if more follow:
    /// it is taken before the gate hears the outcome.
    fn make_by<L: Naming>(
        &self,
        book: &mut Book<L>,
        seat: &mut Seat<L>,
        taken: Result<Ticket, TakeFault>,
        more: bool,
    ) -> (Turn, Option<Result<Ticket, TakeFault>>) {
        let ticket = match taken {
            Ok(ticket) => ticket,
            Err(TakeFault::NoneRunning) => return (Turn::Idle, self.take_if(book, more)),
            Err(TakeFault::Memory) => return (Turn::NoMemory, self.take_if(book, more)),
        };
        let work = ticket.run(self.budget);
        let (number, id) = (seat.number(), work.id());
        self.heard.before(number, id, work.count());
        let _ = book.take(self.alloc);
        let outcome = book.commit(seat, work);
        let turn = turn_of(book, seat, id, outcome);
        let next = self.take_if(book, more);
        self.heard.after(number, id, outcome);
        let _ = book.take(self.alloc);
        (turn, next)
    }

    fn take_if<L: Naming>(
        &self,
        book: &mut Book<L>,
        is_asked: bool,
    ) -> Option<Result<Ticket, TakeFault>> {
        if is_asked {
            Some(book.take(self.alloc))
        } else {
            None
        }
    }
}

/// What a turn answers after this outcome of its work. A procedure that could do nothing by itself
/// does one instruction.
fn turn_of<L: Naming>(
    book: &mut Book<L>,
    seat: &mut Seat<L>,
    id: u16,
    outcome: CommitOutcome,
) -> Turn {
    match outcome {
        CommitOutcome::Committed(count) => Turn::Committed(count),
        CommitOutcome::Stale => Turn::Stale,
        CommitOutcome::JournalFull => Turn::Full,
        CommitOutcome::Empty => match book.apply(seat, Step { id }) {
            StepOutcome::JournalFull => Turn::Full,
            answer => Turn::Stepped(answer),
        },
    }
}
