//! Calls of an engine that change nothing of it.

use crate::answers::show_all;
use crate::output::Output;
use crate::runs::Runs;
use driver_lines::*;
use ocp_core::{Engine, replay_one};
use ocp_table::{Cause, Pending, View};
use std::fmt;

/// The answer of a call.
pub(crate) fn answer(engine: &Engine, runs: &mut Runs, alloc: Global, words: &[&str]) -> Answer {
    calls! { alloc, words;
        "ocp_core.events" -> "number" => text_of(alloc, engine.events());
        "ocp_core.room" -> "number" => text_of(alloc, engine.room());
        "ocp_core.entries" -> "the journal's entries, with their marks" => show_all(alloc, engine.journal().entries());
        "ocp_core.pool_word" index: number -> "number" => text_of(alloc, OrNone(engine.pool_word(index)));
        "ocp_core.memory" id: number address: number before -> "octets" => {
            append!(alloc, before, Octets, out => engine.memory(id, address, out))
        };
        "ocp_core.trace_lines" before -> "text" => {
            append!(alloc, before, Text, out => or_memory(engine.trace_lines(out)))
        };
        "ocp_core.view" id: number -> "status, cause, place, depth, what is pending, what remains" => show_view(alloc, engine.view(id));
        "ocp_core.registers" id: number -> "eleven numbers" => {
            text_of(alloc, Numbers(&some!(alloc, engine.view(id)).registers))
        };
        "ocp_core.replay_one" id: number -> "place, depth and registers of its machine by itself" => replay(engine, alloc, id);
        "ocp_core.ticket" id: number -> "the ticket's number, its procedure" => {
            runs.add_ticket(alloc, some!(alloc, or_memory(engine.ticket(alloc, id))?))
        };
        "ocp_core.run_ticket" ticket: number budget: number -> "the work's number, its procedure, how many" => runs.run(alloc, ticket, budget);
    }
}

/// The place, the depth and the registers of a procedure's machine by itself.
fn replay(engine: &Engine, alloc: Global, id: u16) -> Answer {
    let machine = some!(alloc, or_memory(replay_one(alloc, engine.journal(), id))?);
    text!(alloc; machine.place(), machine.depth(), Numbers(&machine.registers()))
}

/// The status, why it is inactive, the place, the depth, what is pending, and what remains of the
/// budget.
pub(crate) fn show_view(alloc: Global, view: Option<View>) -> Answer {
    let view = some!(alloc, view);
    let (status, why, waiting) = (Named(view.status), Why(view.cause), Waiting(view.pending));
    text!(alloc; status, why, view.place, view.depth, waiting, OrNone(view.remaining))
}

/// Why a procedure is inactive.
#[derive(Clone, Copy)]
struct Why(Cause);

impl fmt::Display for Why {
    fn fmt<W: fmt::Write>(&self, f: &mut fmt::Formatter<W>) -> fmt::Result {
        match self.0 {
            Cause::Fault(fault) => write!(f, "Fault {}", fault.number()),
            cause => write!(f, "{cause:?}"),
        }
    }
}

/// What is pending, without its origin.
#[derive(Clone, Copy)]
struct Waiting(Pending);

impl fmt::Display for Waiting {
    fn fmt<W: fmt::Write>(&self, f: &mut fmt::Formatter<W>) -> fmt::Result {
        match self.0 {
            Pending::Nothing => f.write_str("Nothing"),
            Pending::Stop(step, _) => write!(f, "Stop {step}"),
            Pending::Suspend(step, _) => write!(f, "Suspend {step}"),
        }
    }
}

/// A value, or that there is none.
#[derive(Clone, Copy)]
struct OrNone<D>(Option<D>);

impl<D: fmt::Display> fmt::Display for OrNone<D> {
    fn fmt<W: fmt::Write>(&self, f: &mut fmt::Formatter<W>) -> fmt::Result {
        match self.0 {
            Some(ref value) => value.fmt(f),
            None => f.write_str("None"),
        }
    }
}
