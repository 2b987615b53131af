//! Reading a packet.

ghost use Rattle.std.specs.Prelude.{◌≡◌, ◌%◌, ℕ, List, IfOk, IfErr, IsOkAnd, MatchResult, Ok, Err};
ghost use Rattle.space_packet.specs.Packet.{IsPacket, IsFirstFault, packet_in};

use crate::fault::PacketFault;
use crate::primary::{Primary, SequenceFlags};
use crate::range::{APIDS, Apid, SEQUENCE_COUNTS, SequenceCount};
use byteorder::{BigEndian, ByteOrder};

/// How many octets a primary header has.
pub const HEADER_LENGTH: usize = 6;

/// The header of the packet that these octets are, and its data field: all octets after the header.
///
/// Refusals, in this order: `Short` (under 7 octets), `Version` (not 0), `Length` (the number of
/// octets is not the one that the header gives).
pub fn read(octets: &[u8]) -> Result<(Primary, &[u8]), PacketFault>
    ensures ok { IfOk result (λ found. IsPacket octets.now found.0 found.1.now) }
    ensures only { (header : Primary) (payload : List ℕ) → IsPacket octets.now header payload →
        IsOkAnd result (λ found. (found.0 ≡ header) × (found.1.now ≡ payload)) }
    ensures value { MatchResult result
        (λ found. packet_in octets.now ≡ Ok (found.0, found.1.now))
        (λ fault. packet_in octets.now ≡ Err fault) }
    ensures err { IfErr result (IsFirstFault octets.now) }
{
    if octets.len() <= HEADER_LENGTH {
        return Err(PacketFault::Short);
    }
    let identification = BigEndian::read_u16(octets);
    let sequence_control = BigEndian::read_u16(&octets[2..]);
    let data_length = BigEndian::read_u16(&octets[4..]);
    let payload = &octets[HEADER_LENGTH..];
    if identification >> 13 != 0 {
        return Err(PacketFault::Version);
    }
    if payload.len() != data_length as usize + 1 {
        return Err(PacketFault::Length);
    }
    let header = Primary {
        telecommand: (identification >> 12) % 2 == 1,
        secondary: (identification >> 11) % 2 == 1,
        apid: Apid::new(identification % APIDS).unwrap(),
        flags: SequenceFlags::of_number(sequence_control >> 14),
        count: SequenceCount::new(sequence_control % SEQUENCE_COUNTS).unwrap(),
    };
    Ok((header, payload))
}
