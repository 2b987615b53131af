//! The loader: which images may be run, their lines by slot, and the first fault of the others.
#![tactic(auto)]

mod check;
mod fault;
pub mod laws;
mod lines;
mod listing;
mod ops;
mod program;
mod read;

pub use fault::LoadFault;
pub use lines::Lines;
pub use program::{MAX_SLOTS, Program, approve, load};
