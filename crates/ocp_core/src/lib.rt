//! The engine: requests as telecommand packets, instructions of the procedures that they load, a
//! debugger's commands, drains of the completions that wait, writes of pool words from outside, and
//! a journal whose replay is the engine's state.
#![tactic(auto)]

mod answers;
pub mod calls;
mod commit;
mod debugger;
mod engine;
mod event;
mod heap;
pub mod input;
mod journal;
pub mod laws;
mod replay;
mod run;
mod store;
mod ticket;

pub use answers::{Answer, CommitOutcome, RunFault, RunRefusal};
pub use engine::Engine;
pub use event::{Entry, Event};
pub use heap::Heap;
pub use input::Input;
pub use journal::Journal;
pub use ocp_reports::{Octets, Reports};
pub use ocp_world::{Command, DebugFault, EngineFault, PutFault, Round, Slice, StepOutcome};
pub use replay::replay_one;
pub use store::{RequestStore, Store};
pub use ticket::{Ticket, Work};
