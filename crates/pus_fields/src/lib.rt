//! The fields of telecommand and telemetry packets (ECSS-E-ST-70-41C), with their error control.
#![tactic(auto)]

mod ack;
mod error_control;
mod fault;
pub mod laws;
mod reading;
mod rejecting;
mod telecommand;
mod telemetry;
mod writing;

pub use ack::Ack;
pub use error_control::crc16;
pub use fault::{Discard, Rejection, TcFault, TmFault, WriteFault};
pub use reading::{read_tc, read_tm};
pub use telecommand::Tc;
pub use telemetry::Tm;
pub use writing::{MAX_TELECOMMAND_DATA, MAX_TELEMETRY_DATA, write_tc, write_tm};
