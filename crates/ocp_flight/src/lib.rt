//! An engine whose journal is handed down: it holds the last entries in a bounded store, and drops
//! the oldest when it is told to. Its state is the replay of all entries since it was opened.
#![tactic(auto)]

mod faults;
mod flight;
mod history;
pub mod laws;
mod octets;
mod store;
mod tape;

pub use faults::{EntryFault, ReleaseFault};
pub use flight::Flight;
pub use ocp_core::{Command, DebugFault, EngineFault, PutFault, Round, Slice, StepOutcome};
pub use store::{BoundedStore, MAX_OCTETS, MOST_EVENTS, Room};
