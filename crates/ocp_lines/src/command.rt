//! The command of a line.

ghost use Rattle.std.specs.Prelude.{◌<◌, ◌≤◌};

use obcp_messages::Request;
use pus_fields::MAX_TELECOMMAND_DATA;

/// The most octets that a word gives: the most code that a telecommand carries, whose identifier
/// and length take four octets before it.
pub const MAX_OCTETS_LENGTH: usize = MAX_TELECOMMAND_DATA - 4;

/// The most instructions of a `step` or a `round` line.
pub const MAX_STEPS: u32 = 1_000_000;

/// The most octets of a `mem` line.
pub const MAX_MEMORY_LENGTH: u32 = 256;

/// The most workers of a `work` line.
pub const MAX_WORKERS: u32 = 16;

/// The greatest budget of a `work` line.
pub const MAX_BUDGET: u32 = 1_000_000;

/// The most turns of a `work` line.
pub const MAX_TURNS: u32 = 1_000_000;

/// Acknowledgement flags as one number: 1 acceptance, 2 start, 4 progress, 8 completion.
#[derive(Clone, Copy)]
pub struct Flags {
    pub number: u8,
    pub ghost in_range: { number < 16 },
}

/// A number from 1 to `MOST`.
#[derive(Clone, Copy)]
pub struct Count<const MOST: u32> {
    pub number: u32,
    pub ghost some: { 1 ≤ number },
    pub ghost in_range: { number ≤ MOST },
}

/// What a `work` line asks for: the number of workers, the turns that each of them takes, and the
/// budget of a turn in instructions.
#[derive(Clone, Copy)]
pub struct Shift {
    pub workers: Count<MAX_WORKERS>,
    pub budget: Count<MAX_BUDGET>,
    pub turns: Count<MAX_TURNS>,
}

/// The command of a line.
#[derive(Drop)]
pub enum Command<'a> {
    /// A blank line or a comment: nothing.
    Nothing,
    /// `up [<hex>]`: these octets reach the engine.
    Up(&'a [u8]),
    /// `send <ack> <verb> ..`: a telecommand of this request with these acknowledgement flags.
    Send {
        flags: Flags,
        request: Request<'a>,
    },
    /// `time <u32>`: the time of later requests and drains.
    Time(u32),
    /// `step <id> <n>`: up to n instructions of a procedure.
    Step {
        id: u16,
        steps: Count<MAX_STEPS>,
    },
    /// `round <id> <n>`: up to n instructions of a procedure. One that ends its step is the last.
    Round {
        id: u16,
        steps: Count<MAX_STEPS>,
    },
    /// `break <id> <place>`: a breakpoint at the slot of an instruction.
    Break {
        id: u16,
        place: u16,
    },
    /// `unbreak <id> <place>`: no breakpoint at this slot.
    Unbreak {
        id: u16,
        place: u16,
    },
    /// `trace <id> on` and `trace <id> off`: whether each instruction leaves a trace record.
    Trace {
        id: u16,
        on: bool,
    },
    /// `trace`: the trace records that are kept.
    Traces,
    /// `view <id>`: a procedure's registers and status.
    View(u16),
    /// `mem <id> <address> <length>`: octets of a procedure's memory, from an address on.
    Memory {
        id: u16,
        address: u64,
        length: Count<MAX_MEMORY_LENGTH>,
    },
    /// `pool <index>`: a word of the pool.
    Pool(u64),
    /// `put <index> <value>`: a word of the pool gets a value from outside.
    Put {
        index: u64,
        value: u64,
    },
    /// `journal`: the number of events.
    Journal,
    /// `drain`: the reports of the completions that are due.
    Drain,
    /// `work <workers> <budget> <turns>`: workers take turns at the running procedures.
    Work(Shift),
}
