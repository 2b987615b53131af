//! Events of seats in words, and what they are applied to.

ghost use Rattle.std.specs.Prelude.{◌≤◌};

use crate::reading::{Fault, flag_of, number_of, octets, or_memory};
use ocp_core::input::{DebuggerCommand, Drain, PutWord, Request, Step};
use ocp_core::{Answer, Command, CommitOutcome, Engine, Event, Input, Slice, Work};
use ocp_profile::{MAX_APID, MAX_CAPACITY, MAX_POOL_WORDS, Profile};
use ocp_seats::{Book, Naming, Seat};
use std::alloc::Global;

/// An engine, if it can have these numbers of pool words and of entries.
pub fn new_engine(
    alloc: Global,
    profile: Profile,
    apid: u16,
    words: u16,
    capacity: u32,
) -> Result<Engine, Fault> {
    if apid > MAX_APID || words == 0 || words > MAX_POOL_WORDS {
        return Err(Fault::Syntax);
    }
    if capacity == 0 || capacity > MAX_CAPACITY {
        return Err(Fault::Syntax);
    }
    or_memory(Engine::new(alloc, profile, apid, words, capacity))
}

/// The name of a call without its library.
fn call_of<'a>(name: &'a str) -> &'a str {
    match name.rsplit_once('.') {
        Some((_library, call)) => call,
        None => name,
    }
}

/// The octets that an event in words carries: those of a request.
pub fn event_octets(alloc: Global, words: &[&str]) -> Result<Vec<u8>, Fault> {
    match *words {
        [name, _, _, packet] if matches!(call_of(name), "request" | "Request") => {
            octets(alloc, packet)
        }
        _ => Ok(Vec::new(alloc)),
    }
}

/// The event in words, with the octets that it carries: the name of its call, alone or with a
/// library, the number of a seat, and one or two arguments.
pub fn event_of<'a>(words: &[&str], octets: &'a [u8]) -> Result<Event<'a>, Fault> {
    match *words {
        [name, by, argument] => event(&[call_of(name), by, argument], octets),
        [name, by, one, other] => event(&[call_of(name), by, one, other], octets),
        _ => Err(Fault::Syntax),
    }
}

fn event<'a>(words: &[&str], octets: &'a [u8]) -> Result<Event<'a>, Fault> {
    table! { (), words;
        "request" | "Request" by: number time: number packet => {
            Ok(Event::Request { by, time, octets })
        };
        "drain" | "Drain" by: number time: number => Ok(Event::Drain { by, time });
        "step" | "Step" by: number id: number => Ok(Event::Step { by, id });
        "put_word" | "PutWord" by: number index: number value: number => {
            Ok(Event::PutWord { by, index, value })
        };
        "set_break" | "SetBreak" by: number id: number place: number => {
            Ok(Event::SetBreak { by, id, place })
        };
        "clear_break" | "ClearBreak" by: number id: number place: number => {
            Ok(Event::ClearBreak { by, id, place })
        };
        "trace" | "Trace" by: number id: number on: flag => Ok(Event::Trace { by, id, on });
    }
}

/// What inputs are applied to, for one who asks: an engine for a number, or a book for a seat.
pub trait Asked {
    type By;

    fn ask<I: Input<Global>>(&mut self, by: &mut Self::By, input: I) -> I::Answer;

    fn ask_slice(&mut self, by: &mut Self::By, id: u16, budget: u32) -> Slice
        requires { 1 ≤ budget };

    fn ask_commit(&mut self, by: &mut Self::By, work: Work) -> CommitOutcome;
}

impl Asked for Engine {
    type By = u16;

    fn ask<I: Input<Global>>(&mut self, by: &mut u16, input: I) -> I::Answer {
        let (answer, _receipt) = self.apply(*by, input);
        answer
    }

    fn ask_slice(&mut self, by: &mut u16, id: u16, budget: u32) -> Slice {
        self.slice(*by, id, budget)
    }

    fn ask_commit(&mut self, by: &mut u16, work: Work) -> CommitOutcome {
        self.commit(*by, work)
    }
}

impl<L: Naming> Asked for Book<L> {
    type By = Seat<L>;

    fn ask<I: Input<Global>>(&mut self, by: &mut Seat<L>, input: I) -> I::Answer {
        self.apply(by, input)
    }

    fn ask_slice(&mut self, by: &mut Seat<L>, id: u16, budget: u32) -> Slice {
        self.slice(by, id, budget)
    }

    fn ask_commit(&mut self, by: &mut Seat<L>, work: Work) -> CommitOutcome {
        self.commit(by, work)
    }
}

/// What an event is answered. It is of the one who asks, not of the seat that it names.
pub fn apply_event<T: Asked>(to: &mut T, by: &mut T::By, alloc: Global, event: Event) -> Answer {
    match event {
        Event::Request { time, octets, .. } => {
            let request = Request {
                alloc,
                time,
                octets,
            };
            Answer::Requested(to.ask(by, request))
        }
        Event::Drain { time, .. } => Answer::Requested(to.ask(by, Drain { alloc, time })),
        Event::Step { id, .. } => Answer::Stepped(to.ask(by, Step { id })),
        Event::PutWord { index, value, .. } => Answer::Written(to.ask(
            by,
            PutWord { index, value },
        )),
        Event::SetBreak { id, place, .. } => apply_command(to, by, id, Command::SetBreak(place)),
        Event::ClearBreak { id, place, .. } => apply_command(
            to,
            by,
            id,
            Command::ClearBreak(place),
        ),
        Event::Trace { id, on, .. } => apply_command(to, by, id, Command::SetTrace(on)),
    }
}

fn apply_command<T: Asked>(to: &mut T, by: &mut T::By, id: u16, command: Command) -> Answer {
    Answer::Commanded(to.ask(by, DebuggerCommand { id, command }))
}
