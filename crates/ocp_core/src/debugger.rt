//! The debugger's calls of the engine.

ghost use Rattle.std.specs.Prelude.{◌≡◌, ◌<◌};
ghost use Rattle.ocp_debug.specs.Memory.{Reads};
ghost use Rattle.ocp_debug.specs.Appending.{Appends};
ghost use Rattle.ocp_core.specs.Clauses.{Commanded, Debug, answer_in, flat_map, get, last_traces, log_after, trace_line, world_of};

use crate::{Command, DebugFault, Engine, calls};
use std::alloc::{AllocError, Allocator};

impl<A: Allocator> Engine<A> {
    /// Does a debugger's command of a seat. Refused as the command is, and after that if the
    /// journal is full; then nothing is changed.
    pub(crate) fn command(&mut self, by: u16, id: u16, command: Command) -> Result<(), DebugFault>
        ensures answer { Commanded result ≡ answer_in self.old (Debug by id command) }
        ensures journal { self.new ≡ log_after self.old (Debug by id command) }
    {
        calls::command(&mut self.journal, &mut self.state, by, id, command)
    }

    /// Sets a breakpoint at the slot of an instruction. Refused, in this order, if the procedure is
    /// not loaded, if no instruction begins at the slot, if it has a breakpoint, if eight are set,
    /// and if the journal is full; then nothing is changed.
    pub fn set_break(&mut self, by: u16, id: u16, place: u16) -> Result<(), DebugFault>
        ensures answer { Commanded result ≡
            answer_in self.old (Debug by id (Command.SetBreak place)) }
        ensures journal { self.new ≡ log_after self.old (Debug by id (Command.SetBreak place)) }
    {
        self.command(by, id, Command::SetBreak(place))
    }

    /// Clears the breakpoint at a slot. Refused, in this order, if the procedure is not loaded, if
    /// the slot has none, and if the journal is full; then nothing is changed.
    pub fn clear_break(&mut self, by: u16, id: u16, place: u16) -> Result<(), DebugFault>
        ensures answer { Commanded result ≡
            answer_in self.old (Debug by id (Command.ClearBreak place)) }
        ensures journal { self.new ≡ log_after self.old (Debug by id (Command.ClearBreak place)) }
    {
        self.command(by, id, Command::ClearBreak(place))
    }

    /// Sets whether each instruction of a procedure leaves a trace record. Refused, in this order,
    /// if the procedure is not loaded, and if the journal is full; then nothing is changed.
    pub fn trace(&mut self, by: u16, id: u16, on: bool) -> Result<(), DebugFault>
        ensures answer { Commanded result ≡ answer_in self.old (Debug by id (Command.SetTrace on)) }
        ensures journal { self.new ≡ log_after self.old (Debug by id (Command.SetTrace on)) }
    {
        self.command(by, id, Command::SetTrace(on))
    }

    /// Fills the slice with octets of a procedure's memory, from an address on. Refused, in this
    /// order, if the procedure is not loaded, and if one of the octets is not in its memory; the
    /// slice then keeps its octets.
    pub fn memory(&self, id: u16, address: u64, octets: &mut [u8]) -> Result<(), DebugFault>
        ensures { Reads (get (world_of self.now).records id) address octets.old octets.new result }
    {
        ocp_debug::memory(&self.state.table, id, address, octets)
    }

    /// Appends the lines of the last 256 trace records, the oldest first. It is refused only for
    /// memory, and only if the lines do not fit into the capacity that the output has; the output
    /// then stays as it was.
    pub fn trace_lines<B: Allocator>(&self, output: &mut Vec<u8, B>) -> Result<(), AllocError>
        ensures { Appends (flat_map trace_line (last_traces (world_of self.now).traces))
            output.old output.new result }
    {
        self.state.ring.write_lines(output)
    }
}
