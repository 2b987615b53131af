//! A script, and its lines answered one after another.

use crate::reading::{Fault, words};
use std::alloc::{AllocError, Global};
use std::io;
use std::process::ExitCode;

/// The exit status of a line that is no call.
const SYNTAX: u8 = 1;

/// The exit status of memory that the program was refused, or of a device that failed.
const MACHINE: u8 = 3;

/// The lines of a script, and how many of them were taken.
#[derive(Drop)]
pub struct Script {
    lines: Vec<String>,
    taken: usize,
}

impl Script {
    /// All lines of the input.
    pub fn read(rt: &(impl Input + Alloc<A = Global>)) -> io::Result<Script> {
        let mut lines = Vec::new(rt.alloc());
        for line in rt.lines(rt.alloc()) {
            lines.push(line?)?;
        }
        Ok(Script { lines, taken: 0 })
    }

    /// How many lines there are.
    pub fn len(&self) -> usize {
        self.lines.len()
    }

    /// The next line.
    fn next_line(&mut self) -> Option<&str> {
        let line = self.lines.get(self.taken)?;
        self.taken = self.taken.saturating_add(1);
        Some(line.as_str())
    }

    /// Prints the answer of the line that was taken last, and says whether the lines end with it.
    pub fn print(
        &self,
        rt: &impl Print,
        reply: Result<Option<Reply>, Fault>,
    ) -> io::Result<Option<End>> {
        match reply {
            Ok(Some(reply)) => print_answer(rt, reply),
            Ok(None) => Ok(None),
            Err(Fault::Syntax) => {
                println!(rt; "error {} Syntax", self.taken)?;
                Ok(Some(End::Syntax))
            }
            Err(Fault::Memory) => {
                println!(rt; "Memory")?;
                Ok(None)
            }
            Err(Fault::Program) => Err(AllocError.into()),
        }
    }
}

/// What a call is answered.
#[derive(Drop)]
pub enum Reply {
    Text(String),
    /// The lines after this one are answered by others.
    Last(String),
    /// This line and those after it are answered by others.
    Later,
}

/// What answers lines.
pub trait Calls {
    /// The answer of a call.
    fn answer(&mut self, alloc: Global, words: &[&str]) -> Result<Reply, Fault>;
}

/// Why lines are no longer answered.
#[derive(Clone, Copy, PartialEq, Eq, Debug)]
pub enum End {
    /// There are none left.
    Input,
    /// A line is no call.
    Syntax,
    /// Those after a call are answered by others.
    Others,
}

/// The answer of a line; none of one that says nothing.
fn answer_line<C: Calls>(calls: &mut C, alloc: Global, line: &str) -> Result<Option<Reply>, Fault> {
    let words = words(alloc, line)?;
    match words.first() {
        Some(word) if !word.starts_with('#') => Ok(Some(calls.answer(alloc, &words)?)),
        _ => Ok(None),
    }
}

/// Answers the lines that are left, up to the first that is no call, or has others answer those
/// after it.
pub fn answer_lines<C: Calls>(
    rt: &(impl Print + Alloc<A = Global>),
    script: &mut Script,
    calls: &mut C,
) -> io::Result<End> {
    for _line in 0..script.len() {
        let Some(line) = script.next_line() else {
            return Ok(End::Input);
        };
        let reply = answer_line(calls, rt.alloc(), line);
        if let Some(end) = script.print(rt, reply)? {
            return Ok(end);
        }
    }
    Ok(End::Input)
}

fn print_answer(rt: &impl Print, reply: Reply) -> io::Result<Option<End>> {
    let (text, end) = match reply {
        Reply::Text(text) => (text, None),
        Reply::Last(text) => (text, Some(End::Others)),
        Reply::Later => return Ok(Some(End::Others)),
    };
    println!(rt; "{text}")?;
    Ok(end)
}

/// The exit status of a script.
pub fn exit_code(rt: &impl Eprint, end: io::Result<End>) -> ExitCode {
    match end {
        Ok(End::Syntax) => ExitCode::from(SYNTAX),
        Ok(_) => ExitCode::SUCCESS,
        Err(error) => {
            let _ = eprintln!(rt; "fault {error}");
            ExitCode::from(MACHINE)
        }
    }
}
