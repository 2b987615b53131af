//! Why octets are no packet, and why a packet was not written.

ghost use Rattle.std.specs.Prelude.{◌≡◌};
ghost use Rattle.space_packet.specs.declared.fault.WriteFault.TheVariants.{Memory};

use std::alloc::AllocError;
use thiserror::Error;

/// The first thing that is wrong with octets that are no packet (CCSDS 133.0-B), in this order.
#[derive(Clone, Copy, PartialEq, Eq, Debug, Error)]
pub enum PacketFault {
    #[error("under 7 octets: no room for a header and a data field")]
    Short,
    #[error("the packet version number is not 0")]
    Version,
    #[error("the length of the data field is not the one in the header")]
    Length,
}

/// Why a packet was not written, in this order.
#[derive(Clone, Copy, PartialEq, Eq, Debug, Error)]
pub enum WriteFault {
    #[error("the data field has no octet")]
    NoData,
    #[error("the data field has over 65,536 octets")]
    TooLong,
    #[error("out of memory")]
    Memory,
}

impl From<AllocError> for WriteFault {
    ghost from_gives = { λ _ r. r ≡ Memory };

    fn from(_error: AllocError) -> Self {
        WriteFault::Memory
    }
}
