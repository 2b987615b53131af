//! The fields of a primary header.

ghost use Rattle.std.specs.Prelude.{◌≡◌, ◌<◌};
ghost use Rattle.space_packet.specs.Packet.{flags_number};

use crate::range::{Apid, SequenceCount};

/// The position of a packet's data field among the segments of a group (CCSDS 133.0-B, sequence
/// flags).
#[derive(Clone, Copy, PartialEq, Eq, Debug)]
pub enum SequenceFlags {
    /// 00: a continuation segment.
    Continuation,
    /// 01: the first segment.
    First,
    /// 10: the last segment.
    Last,
    /// 11: unsegmented.
    Unsegmented,
}

/// The fields of a primary header (CCSDS 133.0-B, packet primary header) except the version
/// number, which is 0, and the packet data length, which the data field gives.
#[derive(Clone, Copy, PartialEq, Eq, Debug)]
pub struct Primary {
    /// The packet type: true for a telecommand, false for telemetry.
    pub telecommand: bool,
    /// Whether the data field begins with a secondary header.
    pub secondary: bool,
    pub apid: Apid,
    pub flags: SequenceFlags,
    pub count: SequenceCount,
}

impl SequenceFlags {
    /// The flags as a number of two bits.
    pub(crate) fn number(self) -> u16
        ensures value { result ≡ flags_number self }
        ensures in_range { result < 4 }
    {
        match self {
            SequenceFlags::Continuation => 0,
            SequenceFlags::First => 1,
            SequenceFlags::Last => 2,
            SequenceFlags::Unsegmented => 3,
        }
    }

    /// The flags of a number of two bits.
    pub(crate) fn of_number(number: u16) -> Self
        requires { number < 4 }
        ensures { flags_number result ≡ number }
    {
        match number {
            0 => SequenceFlags::Continuation,
            1 => SequenceFlags::First,
            2 => SequenceFlags::Last,
            _ => SequenceFlags::Unsegmented,
        }
    }
}
