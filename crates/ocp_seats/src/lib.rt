//! One engine for several seats: a book that counts its entries, and seats that keep a receipt for
//! each entry of their own.
#![tactic(auto)]

mod book;
mod calls;
mod close;
mod seat;

pub use book::{Book, TakeFault};
pub use close::{CloseFault, NotClosed};
pub use ocp_core::{
    Command, CommitOutcome, DebugFault, Engine, EngineFault, Entry, Input, Octets, PutFault,
    Reports, Slice, StepOutcome, Ticket, Work, input,
};
pub use seat::{MAX_SEATS, Naming, Seat, SeatFault};
