//! The memory of a machine: 5,376 octets in three regions, or 8,448 under profile Two.
//!
//! | Region | First address | Octets | Use |
//! |---|---|---|---|
//! | stack | 0x10000000 | 4,096 | 8 frames of 512, open to each frame |
//! | arguments | 0x20000000 | 256 | read only |
//! | work | 0x30000000 | 1,024, or 4,096 under profile Two | read and write |
#![tactic(auto)]

mod access;
mod extent;
mod fault;
pub mod laws;
mod regions;

pub use fault::AccessFault;
pub use regions::{ARGUMENT_OCTETS, ARGUMENTS, Parts, Regions, STACK, STACK_OCTETS, WORK};
