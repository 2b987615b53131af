//! Calls that change an engine: by itself, or by the book of its seats.

ghost use Rattle.std.specs.Prelude.{◌≤◌, IfOk};

use crate::answers::{Shown, show_commit, show_round, show_run, show_slice};
use crate::runs::Runs;
use crate::views;
use driver_lines::*;
use ocp_core::Engine;

/// The answer of a call that asks an engine or a book for a change.
pub(crate) fn answer<T: Asked>(
    to: &mut T,
    by: &mut T::By,
    runs: &mut Runs,
    alloc: Global,
    words: &[&str],
) -> Answer {
    calls! { alloc, words;
        "ocp_core.slice" | "ocp_seats.slice" seat id: number budget: budget_of -> "how many, and the last outcome" => {
            show_slice(alloc, to.ask_slice(by, id, budget))
        };
        "ocp_core.commit" | "ocp_seats.commit" seat work: number -> "outcome" => {
            show_commit(alloc, to.ask_commit(by, runs.work(work)?))
        };
        "ocp_core.request" | "ocp_seats.request" seat time packet -> "packets; or the fault" => {
            apply(to, by, alloc, words)
        };
        "ocp_core.drain" | "ocp_seats.drain" seat time -> "packets; or the fault" => {
            apply(to, by, alloc, words)
        };
        "ocp_core.step" | "ocp_seats.step" seat id -> "outcome" => apply(to, by, alloc, words);
        "ocp_core.put_word" | "ocp_seats.put_word" seat index value -> "`Ok`, or why not" => {
            apply(to, by, alloc, words)
        };
        "ocp_core.set_break" | "ocp_core.clear_break" | "ocp_seats.set_break"
                | "ocp_seats.clear_break" seat id slot -> "`Ok`, or why not" => {
            apply(to, by, alloc, words)
        };
        "ocp_core.trace" | "ocp_seats.trace" seat id on -> "`Ok`, or why not" => {
            apply(to, by, alloc, words)
        };
    }
}

/// Applies the event in words, and shows what it is answered.
fn apply<T: Asked>(to: &mut T, by: &mut T::By, alloc: Global, words: &[&str]) -> Answer {
    let octets = event_octets(alloc, words)?;
    apply_event(to, by, alloc, event_of(words, &octets)?).show(alloc)
}

/// The answer of a call of an engine.
pub(crate) fn engine_answer(
    engine: &mut Engine,
    runs: &mut Runs,
    alloc: Global,
    words: &[&str],
) -> Answer {
    calls! { alloc, words;
        "ocp_core.run" [events] -> "`Ok:`, or the refusal and the index of its event, and the answers" => run(engine, alloc, events);
        "ocp_core.round" seat: number id: number budget: budget_of -> "how many, the last outcome, and the step that ended, if one did" => {
            show_round(alloc, engine.round(seat, id, budget))
        };
        else match *words {
            ["ocp_core.run_ticket" | "ocp_core.memory", ..] | [_] | [_, _] => {
                views::answer(engine, runs, alloc, words)
            }
            [_, by, ..] => answer(engine, &mut number_of(by)?, runs, alloc, words),
            _ => Err(Fault::Syntax),
        }
    }
}

/// Does the events of these words, with commas between them, and shows the answers.
fn run(engine: &mut Engine, alloc: Global, words: &[&str]) -> Answer {
    let mut carried = Vec::new(alloc);
    for group in words.split(|word| *word == ",") {
        carried.push(event_octets(alloc, group)?)?;
    }
    let mut events = Vec::new(alloc);
    for (group, octets) in words.split(|word| *word == ",").zip(carried.iter()) {
        events.push(event_of(group, octets)?)?;
    }
    show_run(alloc, engine.run(alloc, &events))
}

/// The budget of a word: at least one instruction.
fn budget_of(word: &str) -> Result<u32, Fault>
    ensures { IfOk result (λ budget. 1 ≤ budget) }
{
    match number_of::<u32>(word)? {
        0 => Err(Fault::Syntax),
        budget => Ok(budget),
    }
}
