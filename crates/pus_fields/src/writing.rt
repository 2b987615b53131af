//! Writing packets.

ghost use Rattle.std.specs.Prelude.{◌≡◌, ◌<◌, ◌≤◌, ◌+◌, ◌↔◌, ℕ, List, ◌++◌, length, drop, OnOk, OnErr, IsErrOf, vec_len, vec_capacity};
ghost use Rattle.byteorder.specs.Endian.{big_bytes};
ghost use Rattle.pus_fields.specs.ErrorControl.{error_control};
ghost use Rattle.pus_fields.specs.Telecommand.{IsTelecommand, telecommand_octets};
ghost use Rattle.pus_fields.specs.Telemetry.{IsTelemetry, telemetry_octets};

use crate::error_control::crc16;
use crate::fault::WriteFault;
use crate::telecommand::Tc;
use crate::telemetry::Tm;
use bitflags::Flags;
use space_packet::laws::written_octets_are_the_packet;
use std::alloc::Allocator;

/// The first octet of a secondary header: version number 2 in its higher four bits.
const VERSION_OCTET: u8 = 0x20;

/// The most octets of a telecommand's payload: a data field has at most 65,536, of which 5 are the
/// secondary header and 2 the error control.
pub const MAX_TELECOMMAND_DATA: usize = 65_529;

/// The most octets of a telemetry packet's payload: its secondary header has 11 octets.
pub const MAX_TELEMETRY_DATA: usize = 65_523;

/// Appends the error control of the octets from `start` on.
fn append_error_control<A: Allocator>(out: &mut Vec<u8, A>, start: usize)
    requires place { start ≤ vec_len out.old }
    requires room { vec_len out.old + 2 ≤ vec_capacity out.old }
    ensures items { out.new.items ≡
        out.old.items ++ big_bytes 2 (error_control (drop start out.old.items)) }
    ensures capacity { vec_capacity out.old ≤ vec_capacity out.new }
{
    let control = crc16(&out[start..]);
    out.extend_from_slice(&control.to_be_bytes()).unwrap();
}

/// Appends the packet of a telecommand (CCSDS 133.0-B, 4.1; ECSS-E-ST-70-41C, 7.4.4): 13 octets
/// more than its payload has. Refused, with the vector and its capacity unchanged, if 1. the
/// payload has over 65,529 octets; 2. memory runs out. The capacity never shrinks.
pub fn write_tc<A: Allocator>(tc: &Tc, out: &mut Vec<u8, A>) -> Result<(), WriteFault>
    ensures written { OnOk result ((packet : List ℕ) × IsTelecommand packet tc.now
        × (out.new.items ≡ out.old.items ++ packet)) }
    ensures octets { OnOk result (out.new.items ≡ out.old.items ++ telecommand_octets tc.now) }
    ensures too_long { IsErrOf result WriteFault.TooLong ↔
        (MAX_TELECOMMAND_DATA < length tc.now.payload) }
    // Memory is answered only if the vector had to grow.
    ensures memory { IsErrOf result WriteFault.Memory →
        vec_capacity out.old < vec_len out.old + (13 + length tc.now.payload) }
    ensures err { OnErr result (out.new.items ≡ out.old.items) }
    ensures same_capacity { OnErr result (vec_capacity out.new ≡ vec_capacity out.old) }
    ensures capacity { vec_capacity out.old ≤ vec_capacity out.new }
{
    let (service, subtype, payload) = (tc.service, tc.subtype, tc.payload);
    if payload.len() > MAX_TELECOMMAND_DATA {
        return Err(WriteFault::TooLong);
    }
    out.reserve(13 + payload.len())?;
    written_octets_are_the_packet();
    let start = out.len();
    out.extend_from_slice(&tc.id).unwrap();
    out.extend_from_slice(&((payload.len() + 6) as u16).to_be_bytes())
        .unwrap();
    out.extend_from_slice(&[VERSION_OCTET + tc.ack.bits(), service, subtype])
        .unwrap();
    out.extend_from_slice(&tc.source.to_be_bytes()).unwrap();
    out.extend_from_slice(payload).unwrap();
    append_error_control(out, start);
    Ok(())
}

/// Appends the packet of telemetry (CCSDS 133.0-B, 4.1; ECSS-E-ST-70-41C, 7.4.3): 19 octets more
/// than its payload has. Refused, with the vector and its capacity unchanged, if 1. the payload has
/// over 65,523 octets; 2. memory runs out. The capacity never shrinks.
pub fn write_tm<A: Allocator>(tm: &Tm, out: &mut Vec<u8, A>) -> Result<(), WriteFault>
    ensures written { OnOk result ((packet : List ℕ) × IsTelemetry packet tm.now
        × (out.new.items ≡ out.old.items ++ packet)) }
    ensures octets { OnOk result (out.new.items ≡ out.old.items ++ telemetry_octets tm.now) }
    ensures too_long { IsErrOf result WriteFault.TooLong ↔
        (MAX_TELEMETRY_DATA < length tm.now.payload) }
    // Memory is answered only if the vector had to grow.
    ensures memory { IsErrOf result WriteFault.Memory →
        vec_capacity out.old < vec_len out.old + (19 + length tm.now.payload) }
    ensures err { OnErr result (out.new.items ≡ out.old.items) }
    ensures same_capacity { OnErr result (vec_capacity out.new ≡ vec_capacity out.old) }
    ensures capacity { vec_capacity out.old ≤ vec_capacity out.new }
{
    let (service, subtype) = (tm.service, tm.subtype);
    let (destination, time, payload) = (tm.destination, tm.time, tm.payload);
    if payload.len() > MAX_TELEMETRY_DATA {
        return Err(WriteFault::TooLong);
    }
    out.reserve(19 + payload.len())?;
    written_octets_are_the_packet();
    let start = out.len();
    out.extend_from_slice(&((1 << 11) + tm.apid.number()).to_be_bytes())
        .unwrap();
    out.extend_from_slice(&((3 << 14) + tm.count.number()).to_be_bytes())
        .unwrap();
    out.extend_from_slice(&((payload.len() + 12) as u16).to_be_bytes())
        .unwrap();
    out.extend_from_slice(&[VERSION_OCTET, service, subtype, 0, 0])
        .unwrap();
    out.extend_from_slice(&destination.to_be_bytes()).unwrap();
    out.extend_from_slice(&time.to_be_bytes()).unwrap();
    out.extend_from_slice(payload).unwrap();
    append_error_control(out, start);
    Ok(())
}
