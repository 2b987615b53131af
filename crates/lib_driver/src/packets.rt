//! Calls of space_packet.

use crate::output::Output;
use driver_lines::*;
use space_packet::{Apid, Primary, SequenceCount, SequenceFlags, read, write};

/// The answer of a call.
pub(crate) fn answer(alloc: Global, words: &[&str]) -> Answer {
    calls! { alloc, words;
        "space_packet.apid" number: number -> "the number" =>
            text_of(alloc, some!(alloc, Apid::new(number)).number());
        "space_packet.count" number: number -> "the number" => {
            text_of(alloc, some!(alloc, SequenceCount::new(number)).number())
        };
        "space_packet.next" count: count_of -> "the next one" => text_of(alloc, count.next().number());
        "space_packet.read" packet: octets -> "`tc` or `tm`, secondary header, application process, flags, count, data" => read_packet(alloc, &packet);
        "space_packet.write" before telecommand: kind_of
                secondary: flag apid: apid_of flags: flags_of count: count_of data: octets -> "octets" => {
            let header = Primary { telecommand, secondary, apid, flags, count };
            append!(alloc, before, Octets, out => write(&header, &data, out))
        };
    }
}

/// The application process identifier of a word.
pub(crate) fn apid_of(word: &str) -> Result<Apid, Fault> {
    Apid::new(number_of(word)?).ok_or(Fault::Syntax)
}

/// The sequence count of a word.
pub(crate) fn count_of(word: &str) -> Result<SequenceCount, Fault> {
    SequenceCount::new(number_of(word)?).ok_or(Fault::Syntax)
}

/// Whether a packet of this kind is a telecommand.
fn kind_of(kind: &str) -> Result<bool, Fault> {
    value_of(&[("tc", true), ("tm", false)], kind)
}

fn flags_of(word: &str) -> Result<SequenceFlags, Fault> {
    value_of(
        names!(SequenceFlags: Continuation, First, Last, Unsegmented),
        word,
    )
}

fn read_packet(alloc: Global, packet: &[u8]) -> Answer {
    match read(packet) {
        Ok((header, data)) => show_packet(alloc, header, data),
        Err(fault) => name_of(alloc, fault),
    }
}

fn show_packet(alloc: Global, header: Primary, data: &[u8]) -> Answer {
    let kind = if header.telecommand { "tc" } else { "tm" };
    let (secondary, apid) = (header.secondary, header.apid.number());
    let (flags, count) = (header.flags, header.count.number());
    text!(alloc; "Ok", kind, secondary, apid, Named(flags), count, Octets(data))
}
