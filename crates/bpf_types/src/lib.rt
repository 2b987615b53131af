//! The instructions of RFC 9669, typed: each line of code is one row of the instruction table, with
//! its fields in their ranges.
#![tactic(auto)]

mod halves;
mod line;
mod reg;

pub use halves::{from_halves, high_half, low_half};
pub use line::{
    Comparison, Extension, Fields, Line, Operand, Operation, Order, SignedSize, Size, SwapWidth,
    Width, lines_are_in_range,
};
pub use reg::Reg;
