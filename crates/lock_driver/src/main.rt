//! `lock_driver`: calls of the seats of one engine, a line each, and what they answer, a line each.
//! With the word `lock` the calls go through the lock of a shared engine, with the word `book` they
//! are calls of the book itself. By one thread both print the same.
//!
//! `new PROFILE APID WORDS CAPACITY` makes an engine, and its book. The lines after it are calls of
//! the seats: `seat`, `take`, `run WHICH BUDGET`, `commit SEAT WHICH`, `slice SEAT ID BUDGET`,
//! `turn SEAT BUDGET`, `turns SEAT BUDGET TURNS`, `heard SEAT`, and events as in driver_lines, up
//! to a `close` (`close SEAT`: without that seat) that gives the engine back. Then come calls of
//! the engine alone: `entries`, `pool_word INDEX`, `heard SEAT`, `share`, which makes a book of it
//! again, and `work CREW BUDGET TURNS`.
#![tactic(auto)]

mod answers;
mod desk;
mod gate;
mod office;
mod runs;
mod seats;
mod session;
mod turns;

use crate::desk::{Desk, Way};
use driver_lines::*;
use std::env::{self, Env};
use std::io;
use std::process::ExitCode;
use std::sync::Wait;
use std::thread::Threads;

/// What answers, as the one word after the program's name says.
fn read_way(rt: &(impl Env + Alloc<A = Global>)) -> io::Result<Option<Way>> {
    let words: Vec<String> = env::args(rt)?.skip(1).collect(rt.alloc())?;
    Ok(Way::of_words(&words))
}

/// Answers the lines of a script: a desk's, those of the seats that share its engine, and those
/// that ask a crew to work.
fn answer_all<R: Threads + Wait + Sync + Input + Print + Alloc<A = Global>>(
    rt: &R,
    way: Way,
) -> io::Result<End> {
    let mut script = Script::read(rt)?;
    let mut desk = Desk::new(rt, way);
    for _line in 0..script.len() {
        let mut end = answer_lines(rt, &mut script, &mut desk)?;
        if end == End::Others {
            end = match desk.take_asked() {
                Some(asked) => {
                    let reply = match desk.work(rt.alloc(), asked) {
                        Ok(text) => Ok(Some(Reply::Text(text))),
                        Err(fault) => Err(fault),
                    };
                    script.print(rt, reply)?.unwrap_or(End::Others)
                }
                None => share(rt, &mut script, &mut desk)?,
            };
        }
        if end != End::Others {
            return Ok(end);
        }
    }
    Ok(End::Input)
}

fn main(rt: HostRuntime) -> ExitCode {
    let end = match read_way(&rt) {
        Ok(Some(way)) => answer_all(&rt, way),
        Ok(None) => Ok(End::Syntax),
        Err(error) => Err(error),
    };
    exit_code(&rt, end)
}
