//! Reading packets.

ghost use Rattle.std.specs.Prelude.{◌≡◌, ◌<◌, ◌%◌, IfOk, IfErr, Ok};
ghost use Rattle.pus_fields.specs.Telecommand.{IsTelecommand, Telecommand};
ghost use Rattle.pus_fields.specs.TelecommandFaults.{HasTcFault, telecommand_of};
ghost use Rattle.pus_fields.specs.Telemetry.{IsTelemetry, Telemetry};
ghost use Rattle.pus_fields.specs.TelemetryFaults.{HasTmFault, telemetry_of};
ghost use Rattle.space_packet.specs.declared.range.TheConstants.{IDLE_APID};

use crate::ack::Ack;
use crate::fault::{Discard, TcFault, TmFault};
use crate::rejecting::rejection;
use crate::telecommand::Tc;
use crate::telemetry::Tm;
use bitflags::Flags;
use byteorder::{BigEndian, ByteOrder};
use space_packet::{Apid, Primary};

/// The telecommand for this application process that the octets are (CCSDS 133.0-B, 4.1;
/// ECSS-E-ST-70-41C, 7.4.4). Refusals, in this order: the packet is discarded as Short, Version,
/// Length, NotTelecommand, OtherApid; it is rejected, with the request identifier, as Segmented,
/// NoSecondary, NoRoom, Pec, PusVersion.
pub fn read_tc<'a>(apid: Apid, octets: &'a [u8]) -> Result<Tc<'a>, TcFault>
    requires { apid < IDLE_APID }
    ensures ok { IfOk result (λ tc. IsTelecommand octets.now tc × (tc.apid ≡ apid)) }
    ensures only { (tc : Telecommand) → IsTelecommand octets.now tc → tc.apid ≡ apid →
        result ≡ Ok tc }
    ensures err { IfErr result (HasTcFault apid octets.now) }
    ensures value { result ≡ telecommand_of apid octets.now }
{
    let (header, field) = match space_packet::read(octets) {
        Ok(found) => found,
        Err(fault) => return Err(fault.into()),
    };
    if !header.telecommand {
        return Err(TcFault::Discarded(Discard::NotTelecommand));
    }
    if header.apid != apid {
        return Err(TcFault::Discarded(Discard::OtherApid));
    }
    let id = [octets[0], octets[1], octets[2], octets[3]];
    if let Some(why) = rejection(7, octets, &header, field) {
        return Err(TcFault::Rejected(why, id));
    }
    let (count, ack) = (header.count, Ack::from_bits_retain(field[0] % 16));
    let (service, subtype) = (field[1], field[2]);
    Ok(Tc {
        id,
        apid,
        count,
        ack,
        service,
        subtype,
        source: BigEndian::read_u16(&field[3..]),
        payload: &field[5..field.len() - 2],
    })
}

/// The telemetry that the octets are (CCSDS 133.0-B, 4.1; ECSS-E-ST-70-41C, 7.4.3). Refusals, in
/// this order: Short, Version, Length, NotTelemetry, Segmented, NoSecondary, NoRoom, Pec,
/// PusVersion, NotProfile.
pub fn read_tm(octets: &[u8]) -> Result<Tm, TmFault>
    ensures ok { IfOk result (IsTelemetry octets.now) }
    ensures only { (tm : Telemetry) → IsTelemetry octets.now tm → result ≡ Ok tm }
    ensures err { IfErr result (HasTmFault octets.now) }
    ensures value { result ≡ telemetry_of octets.now }
{
    let (header, field) = match space_packet::read(octets) {
        Ok(found) => found,
        Err(fault) => return Err(fault.into()),
    };
    if header.telecommand {
        return Err(TmFault::NotTelemetry);
    }
    if let Some(why) = rejection(13, octets, &header, field) {
        return Err(why.into());
    }
    let time_reference_status = field[0] % 16;
    if time_reference_status != 0 {
        return Err(TmFault::NotProfile);
    }
    let message_type_counter = BigEndian::read_u16(&field[3..]);
    if message_type_counter != 0 {
        return Err(TmFault::NotProfile);
    }
    Ok(Tm {
        apid: header.apid,
        count: header.count,
        service: field[1],
        subtype: field[2],
        destination: BigEndian::read_u16(&field[5..]),
        time: BigEndian::read_u32(&field[7..]),
        payload: &field[11..field.len() - 2],
    })
}
