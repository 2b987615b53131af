//! A debugger's commands: which are refused, and what the others change.
ghost use Rattle.std.specs.Prelude.{◌≡◌, Some, Ok, Err, IfOk, IfErr};
ghost use Rattle.ocp_debug.specs.Clauses.{Decides, command_result, fault_on, get, table_by_setting, table_by_command};

use crate::breakpoints::{is_set, with_breakpoint, without_breakpoint};
use crate::{Command, DebugFault, MAX_BREAKPOINTS};
use arrayvec::ArrayVec;
use ocp_table::{Place, Table};
use std::alloc::Allocator;

/// What a command sets at its procedure.
#[derive(Drop)]
pub enum Setting {
    /// These are its breakpoints.
    Breakpoints(ArrayVec<u16, MAX_BREAKPOINTS>),
    /// Whether each instruction leaves a trace record.
    Traced(bool),
}

/// What was decided of a command, and where its record was found.
#[derive(Drop)]
pub struct Decided {
    pub setting: Setting,
    pub(crate) place: Place,
}

/// Decides what a command sets, or why it is refused. It is NotLoaded if no procedure has the id.
/// Then a breakpoint is refused as NotAnInstruction, AlreadySet and BreaksFull, in this order, and
/// a clearing as NotSet.
pub fn decide<A: Allocator>(
    table: &Table<A>,
    id: u16,
    command: Command,
) -> Result<Decided, DebugFault>
    ensures ok { IfOk result (λ decided. Decides table.now id command decided.setting) }
    ensures err { IfErr result (λ fault. fault_on command (get table.now.records id) ≡ Some fault) }
{
    let found = table.place(id);
    let Some(record) = table.record_at(id, found) else {
        return Err(DebugFault::NotLoaded);
    };
    let breakpoints = record.breakpoints.as_slice();
    let setting = match command {
        Command::SetBreak(place) if record.execution.program().line_at(place).is_none() => {
            return Err(DebugFault::NotAnInstruction);
        }
        Command::SetBreak(place) if is_set(place, breakpoints) => {
            return Err(DebugFault::AlreadySet);
        }
        Command::SetBreak(_) if breakpoints.len() >= MAX_BREAKPOINTS => {
            return Err(DebugFault::BreaksFull);
        }
        Command::ClearBreak(place) if !is_set(place, breakpoints) => {
            return Err(DebugFault::NotSet);
        }
        Command::SetBreak(place) => Setting::Breakpoints(with_breakpoint(place, breakpoints)),
        Command::ClearBreak(place) => Setting::Breakpoints(without_breakpoint(place, breakpoints)),
        Command::SetTrace(on) => Setting::Traced(on),
    };
    Ok(Decided {
        setting,
        place: found,
    })
}

/// Sets what was decided. If no procedure has this id, nothing changes.
pub fn enact<A: Allocator>(table: &mut Table<A>, id: u16, decided: Decided)
    ensures { table.new ≡ table_by_setting decided.setting id table.old }
{
    let Decided { setting, place } = decided;
    match setting {
        Setting::Breakpoints(places) => table.set_breakpoints(id, place, places),
        Setting::Traced(on) => table.set_traced(id, place, on),
    }
}

/// Does a command. If it is refused, nothing changes.
pub fn apply<A: Allocator>(
    table: &mut Table<A>,
    id: u16,
    command: Command,
) -> Result<(), DebugFault>
    ensures answer { result ≡ command_result command id table.old.records }
    ensures table { table.new ≡ table_by_command command id table.old }
{
    let decided = decide(table, id, command)?;
    enact(table, id, decided);
    Ok(())
}

/// Sets a breakpoint at the slot of an instruction. Refused as NotLoaded, NotAnInstruction,
/// AlreadySet and BreaksFull, in this order, and then nothing changes.
pub fn set_break<A: Allocator>(table: &mut Table<A>, id: u16, place: u16) -> Result<(), DebugFault>
    ensures answer { result ≡ command_result (Command.SetBreak place) id table.old.records }
    ensures table { table.new ≡ table_by_command (Command.SetBreak place) id table.old }
{
    apply(table, id, Command::SetBreak(place))
}

/// Clears the breakpoint at a slot. Refused as NotLoaded and NotSet, in this order, and then
/// nothing changes.
pub fn clear_break<A: Allocator>(
    table: &mut Table<A>,
    id: u16,
    place: u16,
) -> Result<(), DebugFault>
    ensures answer { result ≡ command_result (Command.ClearBreak place) id table.old.records }
    ensures table { table.new ≡ table_by_command (Command.ClearBreak place) id table.old }
{
    apply(table, id, Command::ClearBreak(place))
}

/// Sets whether each instruction of a procedure leaves a trace record. Refused as NotLoaded, and
/// then nothing changes.
pub fn set_trace<A: Allocator>(table: &mut Table<A>, id: u16, on: bool) -> Result<(), DebugFault>
    ensures answer { result ≡ command_result (Command.SetTrace on) id table.old.records }
    ensures table { table.new ≡ table_by_command (Command.SetTrace on) id table.old }
{
    apply(table, id, Command::SetTrace(on))
}
