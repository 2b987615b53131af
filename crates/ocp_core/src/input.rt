//! What a seat asks of an engine, and what it is answered.

ghost use Rattle.std.specs.Prelude.{◌≡◌, ℕ};
ghost use Rattle.ocp_world.specs.World as world;
ghost use Rattle.ocp_world.specs.After as after;
ghost use Rattle.ocp_core.specs.Clauses.{Enters, entries_in, event_entries, full_answer};

use crate::{
    Command, DebugFault, Engine, EngineFault, Entry, Heap, PutFault, Reports, StepOutcome,
};
use std::alloc::{Allocator, Global};

/// What may be asked of an engine: one event, of any seat.
pub trait Input<A: Allocator> {
    /// What it is answered.
    type Answer: Drop;

    // The event that it is, asked by the seat with this number.
    ghost event: { ℕ → Self → world.Event };

    ghost answer: { Self.Answer → after.Answer };

    /// The answer if there is no room for a further journal entry.
    fn full(self) -> Self::Answer
        ensures { (by : ℕ) → answer result ≡ full_answer (event by self) };

    /// `Engine::apply`.
    fn enter(self, engine: &mut Engine<A>, by: u16) -> (Self::Answer, Option<Entry<A>>)
        ensures enters { Enters engine.old engine.new (event by self) (answer result.0) }
        ensures receipt { entries_in result.1 ≡ event_entries (event by self) (answer result.0) };
}

/// The octets of a telecommand packet, at a time in whole seconds.
#[derive(Drop)]
pub struct Request<'a, A: Allocator = Global> {
    pub alloc: A,
    pub time: u32,
    pub octets: &'a [u8],
}

/// One instruction of a procedure.
#[derive(Clone, Copy)]
pub struct Step {
    pub id: u16,
}

/// A debugger's command to a procedure.
#[derive(Clone, Copy)]
pub struct DebuggerCommand {
    pub id: u16,
    pub command: Command,
}

/// The completions that wait are reported, at a time in whole seconds.
#[derive(Drop)]
pub struct Drain<A: Allocator = Global> {
    pub alloc: A,
    pub time: u32,
}

/// The pool word at an index becomes a value.
#[derive(Clone, Copy)]
pub struct PutWord {
    pub index: u64,
    pub value: u64,
}

impl<'a, A: Allocator + Copy> Input<A> for Request<'a, A> {
    type Answer = Result<Reports<A>, EngineFault>;

    ghost event = { λ by r. world.Request by r.time r.octets.now };

    ghost answer = { after.Requested };

    fn full(self) -> Self::Answer {
        Err(EngineFault::JournalFull)
    }

    fn enter(self, engine: &mut Engine<A>, by: u16) -> (Self::Answer, Option<Entry<A>>) {
        let Request {
            alloc,
            time,
            octets,
        } = self;
        match engine.request_in(&mut Heap::new(alloc), by, time, octets) {
            Ok((reports, receipt)) => (Ok(reports), Some(receipt)),
            Err(fault) => (Err(fault), None),
        }
    }
}

impl<A: Allocator> Input<A> for Step {
    type Answer = StepOutcome;

    ghost event = { λ by s. world.Step by s.id };

    ghost answer = { after.Stepped };

    fn full(self) -> StepOutcome {
        StepOutcome::JournalFull
    }

    fn enter(self, engine: &mut Engine<A>, by: u16) -> (StepOutcome, Option<Entry<A>>) {
        let Step { id } = self;
        let mark = engine.step(by, id);
        match mark {
            StepOutcome::NotLoaded | StepOutcome::NotRunning | StepOutcome::JournalFull => {
                (mark, None)
            }
            _ => {
                let receipt = Entry::Steps {
                    by,
                    id,
                    count: 1,
                    mark,
                };
                (mark, Some(receipt))
            }
        }
    }
}

impl<A: Allocator> Input<A> for DebuggerCommand {
    type Answer = Result<(), DebugFault>;

    ghost event = { λ by c. world.Debug by c.id c.command };

    ghost answer = { after.Commanded };

    fn full(self) -> Result<(), DebugFault> {
        Err(DebugFault::JournalFull)
    }

    fn enter(self, engine: &mut Engine<A>, by: u16) -> (Result<(), DebugFault>, Option<Entry<A>>) {
        let DebuggerCommand { id, command } = self;
        match engine.command(by, id, command) {
            Ok(()) => (Ok(()), Some(Entry::of_command(by, id, command))),
            Err(fault) => (Err(fault), None),
        }
    }
}

impl<A: Allocator + Copy> Input<A> for Drain<A> {
    type Answer = Result<Reports<A>, EngineFault>;

    ghost event = { λ by d. world.Drain by d.time };

    ghost answer = { after.Requested };

    fn full(self) -> Self::Answer {
        Err(EngineFault::JournalFull)
    }

    fn enter(self, engine: &mut Engine<A>, by: u16) -> (Self::Answer, Option<Entry<A>>) {
        let Drain { alloc, time } = self;
        match engine.drain_with_receipt(alloc, by, time) {
            Ok((reports, receipt)) => (Ok(reports), Some(receipt)),
            Err(fault) => (Err(fault), None),
        }
    }
}

impl<A: Allocator> Input<A> for PutWord {
    type Answer = Result<(), PutFault>;

    ghost event = { λ by p. world.Put by p.index p.value };

    ghost answer = { after.Written };

    fn full(self) -> Result<(), PutFault> {
        Err(PutFault::JournalFull)
    }

    fn enter(self, engine: &mut Engine<A>, by: u16) -> (Result<(), PutFault>, Option<Entry<A>>) {
        let PutWord { index, value } = self;
        match engine.put_word(by, index, value) {
            Ok(()) => {
                let index = index as u16;
                (Ok(()), Some(Entry::PutWord { by, index, value }))
            }
            Err(fault) => (Err(fault), None),
        }
    }
}
