//! What is shown of a procedure.
use crate::{Cause, Pending};
use bpf_moves::Registers;
use obcp_types::Status;

/// What is shown of a procedure.
#[derive(Clone, Copy)]
pub struct View {
    pub status: Status,
    pub cause: Cause,
    /// The slot of the next instruction.
    pub place: u16,
    /// How many local calls have not returned.
    pub depth: usize,
    pub pending: Pending,
    pub registers: Registers,
    /// How many instructions are left of the budget, if one is set.
    pub remaining: Option<u32>,
}
