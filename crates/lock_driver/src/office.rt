//! The calls of seats: those of a book, or the same through the lock of a shared engine.

ghost use Rattle.std.specs.Prelude.{◌≤◌};

use crate::gate::{Heard, Taking};
use crate::turns::Turns;
use driver_lines::{Global, apply_event};
use ocp_core::{Answer, Event};
use ocp_seats::NotClosed;
use ocp_slices::{
    Book, CloseFault, CommitOutcome, Engine, Naming, Seat, SeatFault, SharedEngine, Slice,
    StillShared, TakeFault, Ticket, Turn, Work,
};
use std::sync::Wait;

/// What answers the calls of seats.
#[derive(Drop)]
pub(crate) enum Office<'r, L: Naming, R: Wait> {
    Book(Book<L>),
    Lock(&'r R, SharedEngine<L>),
}

/// An office that was not closed, with its seats, and why.
#[derive(Drop)]
pub(crate) struct StillOpen<'r, L: Naming, R: Wait> {
    pub why: CloseFault,
    pub office: Office<'r, L, R>,
    pub seats: Vec<Seat<L>>,
}

impl<'r, L: Naming, R: Wait> Office<'r, L, R> {
    pub fn seat(&mut self, alloc: Global) -> Result<Seat<L>, SeatFault> {
        match self {
            Office::Book(book) => book.seat(alloc),
            Office::Lock(rt, shared) => shared.seat(*rt, alloc),
        }
    }

    pub fn take(&mut self, alloc: Global) -> Result<Ticket, TakeFault> {
        match self {
            Office::Book(book) => book.take(alloc),
            Office::Lock(rt, shared) => shared.take(*rt, alloc),
        }
    }

    pub fn commit(&mut self, seat: &mut Seat<L>, work: Work) -> CommitOutcome {
        match self {
            Office::Book(book) => book.commit(seat, work),
            Office::Lock(rt, shared) => shared.commit(*rt, seat, work),
        }
    }

    pub fn apply(&mut self, alloc: Global, seat: &mut Seat<L>, event: Event) -> Answer {
        match self {
            Office::Book(book) => apply_event(book, seat, alloc, event),
            Office::Lock(rt, shared) => apply_through(*rt, shared, alloc, seat, event),
        }
    }

    pub fn slice(&mut self, seat: &mut Seat<L>, id: u16, budget: u32) -> Slice
        requires { 1 ≤ budget }
    {
        match self {
            Office::Book(book) => book.slice(seat, id, budget),
            Office::Lock(rt, shared) => shared.slice(*rt, seat, id, budget),
        }
    }

    /// One turn, whose gate tells what it hears, and takes a ticket each time it is called.
    pub fn turn(&mut self, alloc: Global, seat: &mut Seat<L>, budget: u32, heard: &Heard) -> Turn {
        match self {
            Office::Book(book) => Turns::new(alloc, budget, heard).make_one(book, seat),
            Office::Lock(rt, shared) => {
                let gate = Taking::new(*rt, alloc, shared, heard);
                shared.turn(*rt, alloc, seat, budget, &gate)
            }
        }
    }

    /// Makes `turns` such turns.
    pub fn turns(
        &mut self,
        alloc: Global,
        seat: &mut Seat<L>,
        budget: u32,
        turns: u32,
        heard: &Heard,
    ) {
        match self {
            Office::Book(book) => Turns::new(alloc, budget, heard).make(book, seat, turns),
            Office::Lock(rt, shared) => {
                let gate = Taking::new(*rt, alloc, shared, heard);
                shared.turns(*rt, alloc, seat, budget, turns, &gate);
            }
        }
    }

    /// The engine, if all seats are these.
    pub fn close(self, seats: Vec<Seat<L>>) -> Result<Engine, StillOpen<'r, L, R>> {
        let (why, office, seats) = match self {
            Office::Book(book) => match book.close(seats) {
                Ok(engine) => return Ok(engine),
                Err(NotClosed { why, book, seats }) => (why, Office::Book(book), seats),
            },
            Office::Lock(rt, shared) => match shared.close(seats) {
                Ok(engine) => return Ok(engine),
                Err(StillShared { why, shared, seats }) => (why, Office::Lock(rt, shared), seats),
            },
        };
        Err(StillOpen { why, office, seats })
    }
}

/// What an event of a seat is answered through the lock, by the call that it is.
fn apply_through<L: Naming, R: Wait>(
    rt: &R,
    shared: &SharedEngine<L>,
    alloc: Global,
    seat: &mut Seat<L>,
    event: Event,
) -> Answer {
    match event {
        Event::Request { time, octets, .. } => {
            Answer::Requested(shared.request(rt, alloc, seat, time, octets))
        }
        Event::Drain { time, .. } => Answer::Requested(shared.drain(rt, alloc, seat, time)),
        Event::Step { id, .. } => Answer::Stepped(shared.step(rt, seat, id)),
        Event::PutWord { index, value, .. } => {
            Answer::Written(shared.put_word(rt, seat, index, value))
        }
        Event::SetBreak { id, place, .. } => {
            Answer::Commanded(shared.set_break(rt, seat, id, place))
        }
        Event::ClearBreak { id, place, .. } => {
            Answer::Commanded(shared.clear_break(rt, seat, id, place))
        }
        Event::Trace { id, on, .. } => Answer::Commanded(shared.trace(rt, seat, id, on)),
    }
}
