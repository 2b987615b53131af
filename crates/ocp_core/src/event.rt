//! The events of a run, and the journal entries that they leave.

use crate::{Command, Octets, Reports, StepOutcome};
use std::alloc::{Allocator, Global};

/// An event of a run. The octets of a request are borrowed. `by` is the number of the seat that it
/// comes from, and the time is in whole seconds.
#[derive(Clone, Copy)]
pub enum Event<'a> {
    Request {
        by: u16,
        time: u32,
        octets: &'a [u8],
    },
    /// One instruction of the procedure.
    Step {
        by: u16,
        id: u16,
    },
    /// A breakpoint at the slot of an instruction of the procedure.
    SetBreak {
        by: u16,
        id: u16,
        place: u16,
    },
    /// No breakpoint at this slot of the procedure.
    ClearBreak {
        by: u16,
        id: u16,
        place: u16,
    },
    /// Whether each instruction of the procedure leaves a trace record.
    Trace {
        by: u16,
        id: u16,
        on: bool,
    },
    /// The completions that wait are reported, at this time.
    Drain {
        by: u16,
        time: u32,
    },
    /// The pool word at the index becomes the value.
    PutWord {
        by: u16,
        index: u64,
        value: u64,
    },
}

/// What the journal keeps: a request, a number of instructions of one procedure, done one after the
/// other, a debugger's command, a drain, or a write of a pool word. The mark of an entry is the
/// answer that was given to it.
#[derive(Drop)]
pub enum Entry<A: Allocator = Global> {
    /// Its mark is a copy of the reports that were answered.
    Request {
        by: u16,
        time: u32,
        octets: Octets<A>,
        mark: Reports<A>,
    },
    /// Their mark is the outcome of the last one.
    Steps {
        by: u16,
        id: u16,
        count: u32,
        mark: StepOutcome,
    },
    SetBreak {
        by: u16,
        id: u16,
        place: u16,
    },
    ClearBreak {
        by: u16,
        id: u16,
        place: u16,
    },
    Trace {
        by: u16,
        id: u16,
        on: bool,
    },
    /// Its mark is a copy of the reports that were answered.
    Drain {
        by: u16,
        time: u32,
        mark: Reports<A>,
    },
    PutWord {
        by: u16,
        index: u16,
        value: u64,
    },
}

impl<'a> Event<'a> {
    ghost use Rattle.std.specs.Prelude.{◌≡◌};
    ghost use Rattle.ocp_core.specs.Clauses.{Debug, event_of};

    /// A seat's debugger's command.
    pub(crate) fn of_command(by: u16, id: u16, command: Command) -> Self
        ensures { event_of result ≡ Debug by id command }
    {
        match command {
            Command::SetBreak(place) => Event::SetBreak { by, id, place },
            Command::ClearBreak(place) => Event::ClearBreak { by, id, place },
            Command::SetTrace(on) => Event::Trace { by, id, on },
        }
    }
}

impl<A: Allocator> Entry<A> {
    ghost use Rattle.std.specs.Prelude.{◌≡◌, ◌↔◌, ◌<◌, ◌^◌, IsTrue, Ok, length};
    ghost use Rattle.ocp_core.specs.Clauses.{Commanded, Debugged, by_of, command_of, entry_of, entry_with_mark, events_of, mark_of};

    /// The entry of a seat's debugger's command.
    pub(crate) fn of_command(by: u16, id: u16, command: Command) -> Self
        ensures entry { entry_of result ≡ Debugged by id command }
        ensures mark { mark_of result ≡ Commanded (Ok tt) }
    {
        match command {
            Command::SetBreak(place) => Entry::SetBreak { by, id, place },
            Command::ClearBreak(place) => Entry::ClearBreak { by, id, place },
            Command::SetTrace(on) => Entry::Trace { by, id, on },
        }
    }

    /// The seat that it came from.
    pub fn by(&self) -> u16
        ensures { result ≡ by_of (entry_of self.now) }
    {
        match self {
            Entry::Request { by, .. } => *by,
            Entry::Steps { by, .. } => *by,
            Entry::SetBreak { by, .. } => *by,
            Entry::ClearBreak { by, .. } => *by,
            Entry::Trace { by, .. } => *by,
            Entry::Drain { by, .. } => *by,
            Entry::PutWord { by, .. } => *by,
        }
    }

    /// How many single events the entry is.
    pub fn events(&self) -> u64
        ensures value { result ≡ length (events_of (entry_of self.now)) }
        ensures bound { result < 2 ^ 32 }
    {
        match self {
            Entry::Steps { count, .. } => u64::from(*count),
            _ => 1,
        }
    }

    /// The debugger's command that it is, if it is one, with the id of its procedure.
    pub(crate) fn command(&self) -> Option<(u16, Command)>
        ensures { result ≡ command_of (entry_of self.now) }
    {
        match self {
            Entry::SetBreak { id, place, .. } => Some((*id, Command::SetBreak(*place))),
            Entry::ClearBreak { id, place, .. } => Some((*id, Command::ClearBreak(*place))),
            Entry::Trace { id, on, .. } => Some((*id, Command::SetTrace(*on))),
            Entry::Request { .. }
            | Entry::Steps { .. }
            | Entry::Drain { .. }
            | Entry::PutWord { .. } => None,
        }
    }

    /// Whether they are the same entry with the same mark, by value.
    pub fn is_same(&self, other: &Self) -> bool
        ensures { IsTrue result ↔ (entry_with_mark self.now ≡ entry_with_mark other.now) }
    {
        if self.by() != other.by() {
            return false;
        }
        if let (Some(asked), Some(other_asked)) = (self.command(), other.command()) {
            return asked == other_asked;
        }
        match (self, other) {
            (
                Entry::Request {
                    time,
                    octets,
                    mark,
                    ..
                },
                Entry::Request {
                    time: other_time,
                    octets: other_octets,
                    mark: other_mark,
                    ..
                },
            ) => time == other_time && octets.is_same(other_octets) && mark.is_same(other_mark),
            (
                Entry::Steps {
                    id,
                    count,
                    mark,
                    ..
                },
                Entry::Steps {
                    id: other_id,
                    count: other_count,
                    mark: other_mark,
                    ..
                },
            ) => id == other_id && count == other_count && mark == other_mark,
            (
                Entry::Drain { time, mark, .. },
                Entry::Drain {
                    time: other_time,
                    mark: other_mark,
                    ..
                },
            ) => time == other_time && mark.is_same(other_mark),
            (
                Entry::PutWord { index, value, .. },
                Entry::PutWord {
                    index: other_index,
                    value: other_value,
                    ..
                },
            ) => index == other_index && value == other_value,
            _ => false,
        }
    }
}
