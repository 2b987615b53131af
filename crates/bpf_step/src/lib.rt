//! The machine that runs procedure code: what each instruction does, one step at a time.
#![tactic(auto)]

mod answer;
mod frame;
pub mod laws;
mod machine;

pub use answer::{Local, MachineFault, Need};
pub use frame::{FRAME_OCTETS, FRAME_POINTER, Frame, MAX_LOCAL_CALLS};
pub use machine::{Machine, breaks_at};
pub use ocp_loader::MAX_SLOTS;
