//! One engine behind a lock, for the threads of a caller: each change is one call under the lock,
//! and slices run without it. Also the crew of threads for a console's `work` lines.
#![tactic(auto)]

mod board;
mod close;
mod crew;
pub mod laws;
mod shared;
mod threaded;
mod turn;

pub use board::Board;
pub use close::StillShared;
pub use crew::{WorkFault, work, workers};
pub use ocp_seats::{
    Book, CloseFault, Command, CommitOutcome, DebugFault, Engine, EngineFault, Entry, Input,
    MAX_SEATS, Naming, PutFault, Reports, Seat, SeatFault, Slice, StepOutcome, TakeFault, Ticket,
    Work, input,
};
pub use shared::SharedEngine;
pub use threaded::Threaded;
pub use turn::{Gate, Open, Turn};
