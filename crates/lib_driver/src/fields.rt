//! Calls of pus_fields.

use crate::output::Output;
use crate::packets::{apid_of, count_of};
use bitflags::Flags;
use driver_lines::*;
use pus_fields::{Ack, Tc, TcFault, Tm, crc16, read_tc, read_tm, write_tc, write_tm};
use space_packet::{Apid, IDLE_APID};

/// The answer of a call.
pub(crate) fn answer(alloc: Global, words: &[&str]) -> Answer {
    calls! { alloc, words;
        "pus_fields.crc16" data: octets -> "four digits" => show_control(alloc, crc16(&data));
        "pus_fields.read_tc" apid: apid_of packet: octets -> "first four octets, application process, count, flags, service, subtype, source, data" => read_telecommand(alloc, apid, &packet);
        "pus_fields.write_tc" before apid: apid_of count: count_of ack: ack_of
                service: number subtype: number source: number data: octets -> "octets" => {
            let tc = some!(alloc, Tc::new(apid, count, ack, service, subtype, source, &data));
            append!(alloc, before, Octets, out => write_tc(&tc, out))
        };
        "pus_fields.read_tm" packet: octets -> "application process, count, service, subtype, destination, time, data" => read_telemetry(alloc, &packet);
        "pus_fields.write_tm" before apid: apid_of count: count_of
                service: number subtype: number destination: number time: number data: octets -> "octets" => {
            let payload = data.as_slice();
            let tm = Tm { apid, count, service, subtype, destination, time, payload };
            append!(alloc, before, Octets, out => write_tm(&tm, out))
        };
    }
}

/// The acknowledgement flags of a word.
pub(crate) fn ack_of(word: &str) -> Result<Ack, Fault> {
    Ok(Ack::from_bits_retain(number_of(word)?))
}

fn show_control(alloc: Global, control: u16) -> Answer {
    Ok(format!(in alloc; "{control:04x}")?)
}

fn read_telecommand(alloc: Global, apid: Apid, packet: &[u8]) -> Answer {
    if apid.number() >= IDLE_APID {
        return Err(Fault::Syntax);
    }
    match read_tc(apid, packet) {
        Ok(tc) => show_telecommand(alloc, &tc),
        Err(TcFault::Discarded(fault)) => text!(alloc; "Discarded", Named(fault)),
        Err(TcFault::Rejected(fault, id)) => text!(alloc; "Rejected", Named(fault), Octets(&id)),
    }
}

fn show_telecommand(alloc: Global, tc: &Tc) -> Answer {
    let (id, apid, count) = (Octets(&tc.id), tc.apid.number(), tc.count.number());
    let (ack, service, subtype) = (tc.ack.bits(), tc.service, tc.subtype);
    let (source, data) = (tc.source, Octets(tc.payload));
    text!(alloc; "Ok", id, apid, count, ack, service, subtype, source, data)
}

fn read_telemetry(alloc: Global, packet: &[u8]) -> Answer {
    match read_tm(packet) {
        Ok(tm) => show_telemetry(alloc, &tm),
        Err(fault) => name_of(alloc, fault),
    }
}

fn show_telemetry(alloc: Global, tm: &Tm) -> Answer {
    let (apid, count) = (tm.apid.number(), tm.count.number());
    let (service, subtype, destination) = (tm.service, tm.subtype, tm.destination);
    let (time, data) = (tm.time, Octets(tm.payload));
    text!(alloc; "Ok", apid, count, service, subtype, destination, time, data)
}
