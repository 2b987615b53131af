//! The assembler: assembly text to the image of the instructions that it means.
#![tactic(auto)]

mod assembling;
mod canonical;
mod collecting;
mod fault;
pub mod laws;
pub mod listings;
mod resolving;
mod table;

pub use assembling::{Image, assemble};
pub use canonical::write_canonical;
pub use fault::{AsmFault, Why};
