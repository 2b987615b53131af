//! Writing a packet.

ghost use Rattle.std.specs.Prelude.{◌≡◌, ◌<◌, ◌≤◌, ◌+◌, ◌*◌, ◌↔◌, ℕ, List, [], ◌++◌, length, OnOk, OnErr, IsErrOf, vec_len, vec_capacity};
ghost use Rattle.space_packet.specs.Packet.{IsPacket, packet_octets};

use crate::fault::WriteFault;
use crate::primary::Primary;
use crate::reading::HEADER_LENGTH;
use byteorder::{BigEndian, ByteOrder};
use std::alloc::Allocator;

/// The most octets of a data field: the packet data length is one less, and has 16 bits.
pub const MAX_DATA_LENGTH: usize = 65_536;

/// Appends the packet with this header and this data field.
///
/// Refusals, in this order: `NoData` (an empty data field), `TooLong` (over 65,536 octets),
/// `Memory`. A refusal leaves the vector and its capacity as they were. The capacity never shrinks.
pub fn write<A: Allocator>(
    header: &Primary,
    payload: &[u8],
    out: &mut Vec<u8, A>,
) -> Result<(), WriteFault>
    ensures ok { OnOk result ((packet : List ℕ) × IsPacket packet header.now payload.now
        × (out.new.items ≡ out.old.items ++ packet)) }
    ensures octets { OnOk result
        (out.new.items ≡ out.old.items ++ packet_octets header.now payload.now) }
    ensures no_data { IsErrOf result WriteFault.NoData ↔ (payload.now ≡ []) }
    ensures too_long { IsErrOf result WriteFault.TooLong ↔ (MAX_DATA_LENGTH < length payload.now) }
    // Memory is answered only if the vector had to grow.
    ensures memory { IsErrOf result WriteFault.Memory →
        vec_capacity out.old < vec_len out.old + (HEADER_LENGTH + length payload.now) }
    ensures err { OnErr result (out.new.items ≡ out.old.items) }
    ensures same_capacity { OnErr result (vec_capacity out.new ≡ vec_capacity out.old) }
    ensures capacity { vec_capacity out.old ≤ vec_capacity out.new }
{
    if payload.is_empty() {
        return Err(WriteFault::NoData);
    }
    if payload.len() > MAX_DATA_LENGTH {
        return Err(WriteFault::TooLong);
    }
    let identification = u16::from(header.telecommand) * 4096
        + u16::from(header.secondary) * 2048
        + header.apid.number();
    let sequence_control = header.flags.number() * 16384 + header.count.number();
    let mut head = [0u8; HEADER_LENGTH];
    BigEndian::write_u16(&mut head, identification);
    BigEndian::write_u16(&mut head[2..], sequence_control);
    BigEndian::write_u16(&mut head[4..], (payload.len() - 1) as u16);
    out.reserve(HEADER_LENGTH + payload.len())?;
    out.extend_from_slice(&head).unwrap();
    out.extend_from_slice(payload).unwrap();
    Ok(())
}
