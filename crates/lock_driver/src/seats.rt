//! Calls of one seat.

use crate::answers::show_answer;
use crate::gate::Heard;
use crate::office::Office;
use crate::runs::Runs;
use driver_lines::*;
use ocp_slices::{Naming, Seat};
use std::sync::Wait;

/// The answer of a call of a seat, whose number is the word after the call's name.
pub(crate) fn seat_answer<L: Naming, R: Wait>(
    office: &mut Office<L, R>,
    seat: &mut Seat<L>,
    runs: &mut Runs,
    heard: &Heard,
    alloc: Global,
    words: &[&str],
) -> Answer {
    table! { alloc, words;
        "heard" number => show_heard(alloc, heard, seat.number());
        "commit" number which: number => {
            name_of(alloc, office.commit(seat, some!(alloc, runs.take_work(which))))
        };
        "slice" number id: number budget: number => slice(office, seat, alloc, id, budget);
        "turn" number budget: number => name_of(alloc, office.turn(alloc, seat, budget, heard));
        "turns" number budget: number turns: number => {
            office.turns(alloc, seat, budget, turns, heard);
            text_of(alloc, "Ok")
        };
        else {
            let octets = event_octets(alloc, words)?;
            show_answer(alloc, &office.apply(alloc, seat, event_of(words, &octets)?))
        }
    }
}

/// What the gate heard of a seat.
pub(crate) fn show_heard(alloc: Global, heard: &Heard, seat: u16) -> Answer {
    text_of(alloc, heard.of_seat(seat).ok_or(Fault::Syntax)?)
}

fn slice<L: Naming, R: Wait>(
    office: &mut Office<L, R>,
    seat: &mut Seat<L>,
    alloc: Global,
    id: u16,
    budget: u32,
) -> Answer {
    if budget == 0 {
        return Err(Fault::Syntax);
    }
    let slice = office.slice(seat, id, budget);
    text!(alloc; slice.count, Named(slice.last))
}
