//! The space packet of CCSDS 133.0-B: a primary header of six octets, and a data field of 1 to
//! 65,536 octets.
//!
//! `read` takes one packet apart and `write` appends one; both are the relation `IsPacket`, in
//! which the header is one number of 48 bits.
#![tactic(auto)]

mod fault;
pub mod laws;
mod primary;
mod range;
mod reading;
mod writing;

pub use fault::{PacketFault, WriteFault};
pub use primary::{Primary, SequenceFlags};
pub use range::{APIDS, Apid, IDLE_APID, SEQUENCE_COUNTS, SequenceCount};
pub use reading::{HEADER_LENGTH, read};
pub use writing::{MAX_DATA_LENGTH, write};
