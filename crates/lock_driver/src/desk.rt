//! Calls that make an engine, and calls of one that no seats share.

use crate::answers::Entries;
use crate::gate::Heard;
use crate::office::Office;
use crate::seats::show_heard;
use crate::session::Session;
use driver_lines::*;
use ocp_slices::{Book, Engine, MAX_SEATS, Naming, SharedEngine, work};
use std::io;
use std::sync::Wait;
use std::thread::Threads;

/// What answers the calls of seats.
#[derive(Clone, Copy)]
pub(crate) enum Way {
    Book,
    Lock,
}

impl Way {
    /// The way that the one word after the program's name says.
    pub fn of_words(words: &[String]) -> Option<Way> {
        match words {
            [word] if word.as_str() == "book" => Some(Way::Book),
            [word] if word.as_str() == "lock" => Some(Way::Lock),
            _ => None,
        }
    }
}

/// What a line `work` asks: each of a number of workers makes `turns` turns.
#[derive(Clone, Copy)]
pub(crate) struct CrewWork {
    crew: u16,
    budget: u32,
    turns: u32,
}

/// The engine made last, what answers the calls of its seats, the work that a crew was asked for,
/// and what its gate heard last.
#[derive(Drop)]
pub(crate) struct Desk<'r, R: Wait> {
    rt: &'r R,
    way: Way,
    engine: Option<Engine>,
    asked: Option<CrewWork>,
    heard: Option<Heard>,
}

impl<'r, R: Wait> Desk<'r, R> {
    pub fn new(rt: &'r R, way: Way) -> Self {
        Desk {
            rt,
            way,
            engine: None,
            asked: None,
            heard: None,
        }
    }

    /// The work that the line taken last asks for, if it does.
    pub fn take_asked(&mut self) -> Option<CrewWork> {
        self.asked.take()
    }

    /// Has a crew do the work.
    pub fn work(&mut self, alloc: Global, asked: CrewWork) -> Answer
    where
        R: Threads + Sync,
    {
        let CrewWork {
            crew,
            budget,
            turns,
        } = asked;
        let engine = self.engine.take().ok_or(Fault::Syntax)?;
        if crew > MAX_SEATS {
            return Err(Fault::Syntax);
        }
        let heard = Heard::new(alloc)?;
        let worked = work(self.rt, alloc, engine, crew, budget, turns, &heard);
        self.heard = Some(heard);
        match worked {
            Ok(engine) => {
                self.engine = Some(engine);
                text_of(alloc, "Ok")
            }
            Err(fault) => name_of(alloc, fault),
        }
    }

    /// The answer of a call that leaves the engine to the desk.
    fn text(&mut self, alloc: Global, words: &[&str]) -> Answer {
        table! { alloc, words;
            "entries" => {
                let engine = self.engine.as_ref().ok_or(Fault::Syntax)?;
                text_of(alloc, Entries(engine.journal().entries()))
            };
            "pool_word" index: number => {
                let engine = self.engine.as_ref().ok_or(Fault::Syntax)?;
                text_of(alloc, engine.pool_word(index).ok_or(Fault::Syntax)?)
            };
            "heard" seat: number => {
                show_heard(alloc, self.heard.as_ref().ok_or(Fault::Syntax)?, seat)
            };
        }
    }
}

impl<R: Wait> Calls for Desk<'_, R> {
    fn answer(&mut self, alloc: Global, words: &[&str]) -> Result<Reply, Fault> {
        table! { alloc, words;
            "new" profile: profile apid: number words: number capacity: number => {
                self.engine = Some(new_engine(alloc, profile, apid, words, capacity)?);
                Ok(Reply::Last(text_of(alloc, "Ok")?))
            };
            "work" crew: number budget: number turns: number => {
                self.asked = Some(CrewWork { crew, budget, turns });
                Ok(Reply::Later)
            };
            else match *words {
                ["share"] if self.engine.is_some() => Ok(Reply::Last(text_of(alloc, "Ok")?)),
                _ => self.text(alloc, words).map(Reply::Text),
            }
        }
    }
}

impl<R: Wait> Sharing for Desk<'_, R> {
    fn take_engine(&mut self) -> Option<Engine> {
        self.engine.take()
    }

    fn answer_seats<L: Naming, P: Print + Alloc<A = Global>>(
        &mut self,
        rt: &P,
        script: &mut Script,
        book: Book<L>,
    ) -> io::Result<End> {
        let office = match self.way {
            Way::Book => Office::Book(book),
            Way::Lock => Office::Lock(self.rt, SharedEngine::over(book)),
        };
        let mut session = Session::new(rt.alloc(), office)?;
        let end = answer_lines(rt, script, &mut session);
        self.engine = session.into_engine();
        end
    }
}
