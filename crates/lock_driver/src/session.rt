//! Calls of an office and of its seats.

ghost use Rattle.std.specs.Prelude.{◌<◌, IfOk, length};

use crate::gate::Heard;
use crate::office::{Office, StillOpen};
use crate::runs::Runs;
use crate::seats::seat_answer;
use driver_lines::*;
use ocp_slices::{Engine, Naming, Seat};
use std::alloc::AllocError;
use std::mem;
use std::sync::Wait;

/// An office, its seats, the tickets and works of its lines, what the gate heard, and the engine
/// after a close.
#[derive(Drop)]
pub(crate) struct Session<'r, L: Naming, R: Wait> {
    office: Option<Office<'r, L, R>>,
    seats: Vec<Seat<L>>,
    runs: Runs,
    heard: Heard,
    closed: Option<Engine>,
}

impl<'r, L: Naming, R: Wait> Session<'r, L, R> {
    pub fn new(alloc: Global, office: Office<'r, L, R>) -> Result<Self, AllocError> {
        Ok(Session {
            office: Some(office),
            seats: Vec::new(alloc),
            runs: Runs::new(alloc),
            heard: Heard::new(alloc)?,
            closed: None,
        })
    }

    /// The engine, if it was closed.
    pub fn into_engine(self) -> Option<Engine> {
        self.closed
    }

    /// Closes the office with these seats; refused, it stays open, and they are the seats.
    fn close(&mut self, alloc: Global, seats: Vec<Seat<L>>) -> Result<Reply, Fault> {
        let office = self.office.take().ok_or(Fault::Syntax)?;
        match office.close(seats) {
            Ok(engine) => {
                self.closed = Some(engine);
                Ok(Reply::Last(text_of(alloc, "Ok")?))
            }
            Err(StillOpen { why, office, seats }) => {
                self.office = Some(office);
                self.seats = seats;
                Ok(Reply::Text(name_of(alloc, why)?))
            }
        }
    }

    fn close_all(&mut self, alloc: Global) -> Result<Reply, Fault> {
        let seats = mem::replace(&mut self.seats, Vec::new(alloc));
        self.close(alloc, seats)
    }

    /// Closes the office with all seats but one, which is the last of them from then on.
    fn close_without(&mut self, alloc: Global, number: u16) -> Result<Reply, Fault> {
        let index = index_of(&self.seats, number)?;
        let seat = self.seats.remove(index);
        let seats = mem::replace(&mut self.seats, Vec::new(alloc));
        let reply = self.close(alloc, seats);
        self.seats.push(seat)?;
        reply
    }

    /// The answer of a call that leaves the office open.
    fn text(&mut self, alloc: Global, words: &[&str]) -> Answer {
        let office = self.office.as_mut().ok_or(Fault::Syntax)?;
        table! { alloc, words;
            "seat" => add_seat(office, &mut self.seats, alloc);
            "take" => match office.take(alloc) {
                Ok(ticket) => self.runs.add(alloc, ticket),
                Err(fault) => name_of(alloc, fault),
            };
            "run" which: number budget: number => self.runs.run(alloc, which, budget);
            else match *words {
                [_, number, ..] => {
                    let index = index_of(&self.seats, number_of(number)?)?;
                    let seat = self.seats.get_mut(index).ok_or(Fault::Syntax)?;
                    seat_answer(office, seat, &mut self.runs, &self.heard, alloc, words)
                }
                _ => Err(Fault::Syntax),
            }
        }
    }
}

impl<L: Naming, R: Wait> Calls for Session<'_, L, R> {
    fn answer(&mut self, alloc: Global, words: &[&str]) -> Result<Reply, Fault> {
        table! { alloc, words;
            "close" => self.close_all(alloc);
            "close" without: number => self.close_without(alloc, without);
            else self.text(alloc, words).map(Reply::Text)
        }
    }
}

/// Where the seat with a number is.
fn index_of<L: Naming>(seats: &[Seat<L>], number: u16) -> Result<usize, Fault>
    ensures { IfOk result (λ index. index < length seats.now) }
{
    let found = seats.iter().position(|seat| seat.number() == number);
    found.ok_or(Fault::Syntax)
}

/// The next seat's number.
fn add_seat<L: Naming, R: Wait>(
    office: &mut Office<L, R>,
    seats: &mut Vec<Seat<L>>,
    alloc: Global,
) -> Answer {
    match office.seat(alloc) {
        Ok(seat) => {
            let number = seat.number();
            seats.push(seat)?;
            text_of(alloc, number)
        }
        Err(fault) => name_of(alloc, fault),
    }
}
