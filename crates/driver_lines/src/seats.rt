//! Scripts in which seats share an engine.

ghost use Rattle.ocp_seats.specs.Seats.{Opens};

use crate::script::{Calls, End, Script, answer_lines, exit_code};
use ocp_seats::{Book, Engine, Naming};
use std::alloc::Global;
use std::io;
use std::marker::Brand;
use std::process::ExitCode;
use std::sync::ledger::Blank;

/// What answers lines, and has an engine that seats may share.
pub trait Sharing: Calls {
    /// Takes the engine, if there is one.
    fn take_engine(&mut self) -> Option<Engine>;

    /// Answers the lines of seats of this book, whose engine comes back if they close it.
    fn answer_seats<L: Naming, R: Print + Alloc<A = Global>>(
        &mut self,
        rt: &R,
        script: &mut Script,
        book: Book<L>,
    ) -> io::Result<End>;
}

/// Answers the lines of a book of this engine.
fn share_as<L: Naming, S: Sharing, R: Print + Alloc<A = Global>>(
    rt: &R,
    script: &mut Script,
    desk: &mut S,
    engine: Engine,
    blank: Blank,
) -> io::Result<End>
    requires opens { Opens blank.name blank.parts L.name L.parts L.room L.log engine }
{
    desk.answer_seats(rt, script, Book::<L>::new(engine, blank))
}

/// Answers the lines of a book of the desk's engine.
pub fn share<S: Sharing, R: Print + Alloc<A = Global>>(
    rt: &R,
    script: &mut Script,
    desk: &mut S,
) -> io::Result<End> {
    let Some(engine) = desk.take_engine() else {
        return Ok(End::Syntax);
    };
    let _length = engine.journal().len();
    share_as::<Brand, S, R>(rt, script, desk, engine, Blank::new(65))
}

/// Answers all lines of a script: a desk's, and those of the seats that share its engine.
fn answer_all<S: Sharing, R: Input + Print + Alloc<A = Global>>(
    rt: &R,
    desk: &mut S,
) -> io::Result<End> {
    let mut script = Script::read(rt)?;
    for _line in 0..script.len() {
        let mut end = answer_lines(rt, &mut script, desk)?;
        if end == End::Others {
            end = share(rt, &mut script, desk)?;
        }
        if end != End::Others {
            return Ok(end);
        }
    }
    Ok(End::Input)
}

/// Answers the script that the input has: the exit status.
pub fn answer_script<S: Sharing, R: Input + Print + Eprint + Alloc<A = Global>>(
    rt: &R,
    desk: &mut S,
) -> ExitCode {
    exit_code(rt, answer_all(rt, desk))
}
