//! The reports of requests and drains, octet for octet: where they go, what they contain, and their
//! packets.
#![tactic(auto)]

mod buffer;
mod octets;
mod origin;
mod sender;

pub use buffer::{MAX_PACKET_OCTETS, MAX_PACKETS, PacketBuffer, PacketList};
pub use octets::{Octets, Packet, Reports, SharedReports};
pub use origin::Origin;
pub use sender::{Sender, count_after};
