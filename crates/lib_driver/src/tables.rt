//! Calls of ocp_table and of ocp_debug, on the table that an earlier line made.

use crate::answers::{Outcome, Shown, show_all};
use crate::code::encoding_of;
use crate::machines::few;
use crate::output::Output;
use crate::pools::pool_of;
use crate::views::show_view;
use bpf_moves::{REGISTERS, Registers};
use driver_lines::*;
use ocp_core::StepOutcome;
use ocp_debug::{Trace, clear_break, set_break, set_trace, trace_text, view, view_text};
use ocp_table::{PendingOrigin, Pool, Profile, StartFailure, StatusRow, Table};

/// A table, and the pool of its procedures.
#[derive(Drop)]
pub(crate) struct Tables {
    table: Option<Table>,
    pool: Option<Pool>,
}

impl Tables {
    pub fn new() -> Tables {
        Tables {
            table: None,
            pool: None,
        }
    }

    fn table(&mut self) -> Result<&mut Table, Fault> {
        self.table.as_mut().ok_or(Fault::Syntax)
    }

    /// Makes a table, and a pool of this number of words.
    fn begin(&mut self, alloc: Global, profile: Profile, count: u16) -> Answer {
        let pool = pool_of(alloc, count)?;
        self.table = Some(or_memory(Table::new(alloc, profile))?);
        self.pool = Some(pool);
        text_of(alloc, "Ok")
    }

    /// The outcome of an instruction.
    fn instruction(&mut self, alloc: Global, id: u16) -> Answer {
        let table = self.table.as_mut().ok_or(Fault::Syntax)?;
        let pool = self.pool.as_mut().ok_or(Fault::Syntax)?;
        text_of(alloc, Outcome(table.instruction(id, pool)))
    }
}

/// The answer of a call of ocp_table.
pub(crate) fn table_answer(tables: &mut Tables, alloc: Global, words: &[&str]) -> Answer {
    calls! { alloc, words;
        "ocp_table.new" profile: profile words: number -> "`Ok`" => tables.begin(alloc, profile, words);
        "ocp_table.instruction" id: number -> "outcome" => tables.instruction(alloc, id);
        "ocp_table.load" id: number image: octets -> "`Ok`, or why not" => {
            show_start(alloc, tables.table()?.load(id, &image))
        };
        "ocp_table.unload" id: number -> "`Ok`, or why not" => show_start(alloc, tables.table()?.unload(id));
        "ocp_table.activate" id: number budget: number arguments: octets -> "`Ok`, or why not" => {
            activate(alloc, tables.table()?, id, budget, &arguments)
        };
        "ocp_table.stop" id: number step: number -> "`Ok`, or why not" => {
            show_start(alloc, tables.table()?.stop(id, step, PendingOrigin::default()))
        };
        "ocp_table.suspend" id: number step: number -> "`Ok`, or why not" => {
            show_start(alloc, tables.table()?.suspend(id, step, PendingOrigin::default()))
        };
        "ocp_table.resume" id: number -> "`Ok`, or why not" => show_start(alloc, tables.table()?.resume(id));
        "ocp_table.communicate" id: number [numbers] -> "`Ok`, or why not" => {
            let numbers = numbers_of(alloc, numbers)?;
            show_start(alloc, tables.table()?.communicate(id, &numbers))
        };
        "ocp_table.abort" id: number -> "`Ok`, or why not" => show_start(alloc, tables.table()?.abort(id));
        "ocp_table.statuses" -> "procedure and status of each" => show_all(alloc, tables.table()?.statuses().as_slice());
        "ocp_table.outbox" -> "how many completions wait" => text_of(alloc, tables.table()?.outbox().len());
    }
}

/// The answer of a call of ocp_debug.
pub(crate) fn debug_answer(tables: &mut Tables, alloc: Global, words: &[&str]) -> Answer {
    calls! { alloc, words;
        "ocp_debug.set_break" id: number slot: number -> "`Ok`, or why not" => {
            show_done(alloc, set_break(tables.table()?, id, slot))
        };
        "ocp_debug.clear_break" id: number slot: number -> "`Ok`, or why not" => {
            show_done(alloc, clear_break(tables.table()?, id, slot))
        };
        "ocp_debug.set_trace" id: number on: flag -> "`Ok`, or why not" => {
            show_done(alloc, set_trace(tables.table()?, id, on))
        };
        "ocp_debug.view" id: number -> "as `ocp_core.view`" => show_view(alloc, view(tables.table()?, id));
        "ocp_debug.view_text" id: number before -> "text" => {
            let view = view(tables.table()?, id);
            append!(alloc, before, Text, out => or_memory(view_text(id, view, out)))
        };
        "ocp_debug.trace_text" before [record] -> "text" => write_trace(alloc, before, record);
    }
}

/// Appends the line of the trace record that words say to the octets.
fn write_trace(alloc: Global, before: &str, words: &[&str]) -> Answer {
    match record_of(alloc, words) {
        Ok(record) => show_record(alloc, before, &record),
        Err(fault) => Err(fault),
    }
}

fn show_record(alloc: Global, before: &str, record: &Trace) -> Answer {
    append!(alloc, before, Text, out => or_memory(trace_text(record, out)))
}

/// The record of these words: its procedure, place and outcome, the octets of its instruction, and
/// eleven registers.
fn record_of(alloc: Global, words: &[&str]) -> Result<Trace, Fault> {
    let [id, place, outcome, code, registers @ ..] = words else {
        return Err(Fault::Syntax);
    };
    Ok(Trace {
        id: number_of(id)?,
        place: number_of(place)?,
        outcome: outcome_of(outcome)?,
        registers: registers_of(alloc, registers)?,
        line: encoding_of(&octets(alloc, code)?)?,
    })
}

fn activate(alloc: Global, table: &mut Table, id: u16, budget: u32, arguments: &[u8]) -> Answer {
    if budget != 0 && table.profile() == Profile::One {
        return Err(Fault::Syntax);
    }
    show_start(alloc, table.activate(id, budget, few(arguments)?))
}

fn show_start(alloc: Global, done: Result<(), StartFailure>) -> Answer {
    match done {
        Err(StartFailure::BadCode { fault, slot }) => text!(alloc; "BadCode", fault, slot),
        done => show_done(alloc, done),
    }
}

impl Shown for StatusRow {
    fn show(&self, alloc: Global) -> Answer {
        text!(alloc; self.id, Named(self.status))
    }
}

/// The outcome of a traced instruction: one without a number.
fn outcome_of(word: &str) -> Result<StepOutcome, Fault> {
    value_of(names!(StepOutcome: Ran, Called, Ended), word)
}

/// The registers of these words.
fn registers_of(alloc: Global, words: &[&str]) -> Result<Registers, Fault> {
    let numbers = numbers_of(alloc, words)?;
    let mut registers = [0; REGISTERS];
    if numbers.len() != registers.len() {
        return Err(Fault::Syntax);
    }
    registers.copy_from_slice(&numbers);
    Ok(registers)
}
