//! `lib_driver`: calls of the libraries, a line each, and what they answer, a line each. The form
//! of a line is that of driver_lines.
//!
//! A line makes a thing. Of engines, tables and pools later lines call the one made last, of
//! memories and machines the one whose number they have. `ocp_seats.new` makes a book of the
//! engine; from there on the lines are calls of the book and of what it shows of the engine, up to
//! a `close` that gives the engine back. `help` shows the calls that a line may have, as rows of
//! the page.
#![tactic(auto)]

/// The text of a variant: its name, and values of its fields.
macro_rules! variant {
    ($alloc:expr, $value:expr, $type:ident;
            $($variant:ident { $($field:ident),+ } => $($word:expr),+;)+
            $([$pattern:pat] => $other:expr;)*) => {
        match $value {
            $($type::$variant { $($field),+ } => {
                text!($alloc; stringify!($variant), $($word),+)
            })+
            $($pattern => $other,)*
        }
    };
}

/// Has a call append to the octets of a word, or write over them, and shows how it ended and what
/// the octets are then.
macro_rules! append {
    ($alloc:expr, $before:expr, $form:ident, $out:ident => $done:expr) => {{
        let mut output = Output::before($alloc, $before)?;
        let $out = &mut output.octets;
        let done = $done;
        output.show($alloc, done, $form(&output.octets))
    }};
}

/// A table of calls: as `table!`, and in each row, after an arrow, what the call is answered. The
/// answer of the word `help` is its rows, each after a line feed.
macro_rules! calls {
    ($alloc:expr, $words:expr; $($name:literal $(| $more:literal)* $($word:ident $(: $kind:ident)?)*
            $([$others:ident])? -> $($shown:literal)+ => $answer:expr;)+ $(else $other:expr)?) => {
        match *$words {
            ["help"] => text_of($alloc, concat!($(
                "\n| `", $name, $("`, `", $more,)* "` |", $(" ", stringify!($word),)*
                $(" ", stringify!($others), "..",)? " | ", $($shown,)+ " |"),+)),
            _ => table! { $alloc, $words;
                $($name $(| $more)* $($word $(: $kind)?)* $([$others])? => $answer;)+
                $(else $other)?
            },
        }
    };
}

mod answers;
mod code;
mod command_line;
mod engines;
mod failures;
mod fields;
mod images;
mod machines;
mod output;
mod packets;
mod pools;
mod reports;
mod requests;
mod runs;
mod seats;
mod tables;
mod views;

use crate::pools::Words;
use crate::runs::Runs;
use crate::seats::Seats;
use crate::tables::Tables;
use bpf_step::Machine;
use driver_lines::*;
use ocp_regions::Regions;
use ocp_seats::{Book, Engine, Naming};
use std::io;
use std::process::ExitCode;

/// The libraries whose calls `help` shows; those of an engine follow.
const LIBRARIES: &[&str] = &[
    "space_packet",
    "pus_fields",
    "obcp_types",
    "obcp_messages",
    "bpf_decode",
    "bpf_assembler",
    "ocp_regions",
    "bpf_step",
    "ocp_pool",
    "ocp_words",
    "ocp_table",
    "ocp_debug",
    "ocp_seats",
    "ocp_core",
];

/// What earlier lines made: the engine and the table made last, the engine's tickets and works, and
/// memories and machines, the first of each with the number 0.
#[derive(Drop)]
struct Things {
    engine: Option<Engine>,
    runs: Runs,
    tables: Tables,
    memories: Vec<Regions>,
    machines: Vec<Machine>,
    words: Words,
}

impl Things {
    fn new(alloc: Global) -> Things {
        Things {
            engine: None,
            runs: Runs::new(alloc),
            tables: Tables::new(),
            memories: Vec::new(alloc),
            machines: Vec::new(alloc),
            words: Words::new(),
        }
    }

    /// The answer of a call of a library.
    fn text(&mut self, alloc: Global, library: &str, words: &[&str]) -> Answer {
        match library {
            "space_packet" => packets::answer(alloc, words),
            "pus_fields" => fields::answer(alloc, words),
            "obcp_types" | "verification" => failures::answer(alloc, words),
            "obcp_messages" => requests::answer(alloc, words),
            "bpf_canonical" | "bpf_decode" | "bpf_listing" | "bpf_text" => {
                code::answer(alloc, words)
            }
            "bpf_assembler" | "ocp_loader" => images::answer(alloc, words),
            "ocp_regions" => machines::memory_answer(&mut self.memories, alloc, words),
            "bpf_step" => machines::machine_answer(&mut self.machines, alloc, words),
            "ocp_pool" => pools::answer(&mut self.words, &mut self.machines, alloc, words),
            "ocp_words" => command_line::answer(alloc, words),
            "ocp_table" => tables::table_answer(&mut self.tables, alloc, words),
            "ocp_debug" => tables::debug_answer(&mut self.tables, alloc, words),
            "ocp_core" => self.engine_text(alloc, words),
            "ocp_seats" => self.share_text(alloc, words),
            _ => Err(Fault::Syntax),
        }
    }

    /// The rows of the calls of all libraries, and of the engine if there is one.
    fn help(&mut self, alloc: Global, words: &[&str]) -> Answer {
        let mut text = String::from_str(alloc, "| Call | Arguments | Answer |\n|---|---|---|")?;
        for library in LIBRARIES {
            text.push_str(&self.text(alloc, library, words)?)?;
        }
        if let Some(engine) = &mut self.engine {
            let runs = &mut self.runs;
            text.push_str(&engines::engine_answer(engine, runs, alloc, words)?)?;
            text.push_str(&engines::answer(engine, &mut 0, runs, alloc, words)?)?;
            text.push_str(&views::answer(engine, runs, alloc, words)?)?;
        }
        Ok(text)
    }

    /// The answer of a call of ocp_core. A new engine replaces the one before, with its tickets and
    /// works.
    fn engine_text(&mut self, alloc: Global, words: &[&str]) -> Answer {
        calls! { alloc, words;
            "ocp_core.new" profile: profile apid: number words: number capacity: number
                    -> "`Ok`" => {
                self.engine = Some(new_engine(alloc, profile, apid, words, capacity)?);
                self.runs = Runs::new(alloc);
                text_of(alloc, "Ok")
            };
            else {
                let engine = self.engine.as_mut().ok_or(Fault::Syntax)?;
                engines::engine_answer(engine, &mut self.runs, alloc, words)
            }
        }
    }

    /// The answer of the call that makes a book.
    fn share_text(&self, alloc: Global, words: &[&str]) -> Answer {
        calls! { alloc, words;
            "ocp_seats.new" -> "`Ok`" => match self.engine {
                Some(_) => text_of(alloc, "Ok"),
                None => Err(Fault::Syntax),
            };
        }
    }
}

impl Calls for Things {
    fn answer(&mut self, alloc: Global, words: &[&str]) -> Result<Reply, Fault> {
        match *words {
            ["help"] => self.help(alloc, words).map(Reply::Text),
            [name, ..] => match name.split_once('.') {
                Some(("ocp_seats", _)) => self.share_text(alloc, words).map(Reply::Last),
                Some((library, _)) => self.text(alloc, library, words).map(Reply::Text),
                None => Err(Fault::Syntax),
            },
            [] => Err(Fault::Syntax),
        }
    }
}

impl Sharing for Things {
    fn take_engine(&mut self) -> Option<Engine> {
        self.engine.take()
    }

    fn answer_seats<L: Naming, R: Print + Alloc<A = Global>>(
        &mut self,
        rt: &R,
        script: &mut Script,
        book: Book<L>,
    ) -> io::Result<End> {
        let mut seats = Seats::new(rt.alloc(), book);
        let end = answer_lines(rt, script, &mut seats);
        self.engine = seats.into_engine();
        end
    }
}

fn main(rt: HostRuntime) -> ExitCode {
    answer_script(&rt, &mut Things::new(rt.alloc()))
}
