//! Trace records.

use bpf_decode::EncodedLine;
use bpf_moves::Registers;
use ocp_table::StepOutcome;

/// How many trace records are kept, the last ones.
pub const TRACE_RECORDS: usize = 256;

/// What is kept of one instruction of a traced procedure.
#[derive(Clone, Copy)]
pub struct Trace {
    /// R0 to R10 after the instruction.
    pub registers: Registers,
    /// The instruction, which is decoded if the record is printed.
    pub line: EncodedLine,
    pub id: u16,
    /// The slot of the instruction.
    pub place: u16,
    pub outcome: StepOutcome,
}
