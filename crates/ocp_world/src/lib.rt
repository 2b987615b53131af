//! The world of an engine: what each event does in it and what is answered, the replay of events,
//! and the state that represents it.
#![tactic(auto)]

mod answers;
mod drain;
mod keeping;
pub mod laws;
mod settle;
mod slice;
mod state;
mod turns;

pub use answers::{EngineFault, PutFault, discard_of};
pub use keeping::{Keeps, Nothing};
pub use ocp_debug::{Command, DebugFault};
pub use ocp_table::{Extent, Round, Slice, StepOutcome};
pub use settle::instructions_done_alone_are_events;
pub use state::State;
