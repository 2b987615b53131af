//! How answers are shown.

use driver_lines::*;
use ocp_slices::{Entry, Reports};
use std::fmt;

/// Octets as hexadecimal digits.
#[derive(Clone, Copy)]
struct Digits<'a>(&'a [u8]);

impl fmt::Display for Digits<'_> {
    fn fmt<W: fmt::Write>(&self, f: &mut fmt::Formatter<W>) -> fmt::Result {
        for octet in self.0 {
            write!(f, "{octet:02x}")?;
        }
        Ok(())
    }
}

/// The packets of reports, each after a space.
#[derive(Clone, Copy)]
struct Packets<'a>(&'a Reports);

impl fmt::Display for Packets<'_> {
    fn fmt<W: fmt::Write>(&self, f: &mut fmt::Formatter<W>) -> fmt::Result {
        for packet in self.0.packets() {
            write!(f, " {}", Digits(packet.as_slice()))?;
        }
        Ok(())
    }
}

/// An entry with its mark.
#[derive(Clone, Copy)]
struct OfEntry<'a>(&'a Entry);

impl fmt::Display for OfEntry<'_> {
    fn fmt<W: fmt::Write>(&self, f: &mut fmt::Formatter<W>) -> fmt::Result {
        match self.0 {
            Entry::Request {
                by,
                time,
                octets,
                mark,
            } => {
                let octets = Digits(octets.as_slice());
                write!(f, "Request {by} {time} {octets}{}", Packets(mark))
            }
            Entry::Steps {
                by,
                id,
                count,
                mark,
            } => write!(f, "Steps {by} {id} {count} {mark:?}"),
            Entry::SetBreak { by, id, place } => write!(f, "SetBreak {by} {id} {place}"),
            Entry::ClearBreak { by, id, place } => write!(f, "ClearBreak {by} {id} {place}"),
            Entry::Trace { by, id, on } => write!(f, "Trace {by} {id} {on}"),
            Entry::Drain { by, time, mark } => { write!(f, "Drain {by} {time}{}", Packets(mark)) }
            Entry::PutWord { by, index, value } => write!(f, "PutWord {by} {index} {value}"),
        }
    }
}

/// Entries, with commas between them.
#[derive(Clone, Copy)]
pub(crate) struct Entries<'a>(pub &'a [Entry]);

impl fmt::Display for Entries<'_> {
    fn fmt<W: fmt::Write>(&self, f: &mut fmt::Formatter<W>) -> fmt::Result {
        let mut before = "";
        for entry in self.0 {
            write!(f, "{before}{}", OfEntry(entry))?;
            before = ", ";
        }
        Ok(())
    }
}

/// What an event was answered: `Ok` and the packets, an outcome, or the fault.
pub(crate) fn show_answer(alloc: Global, answer: &ocp_core::Answer) -> Answer {
    match answer {
        ocp_core::Answer::Requested(Ok(reports)) => {
            Ok(format!(in alloc; "Ok{}", Packets(reports))?)
        }
        ocp_core::Answer::Requested(Err(fault)) => name_of(alloc, *fault),
        ocp_core::Answer::Stepped(outcome) => name_of(alloc, *outcome),
        ocp_core::Answer::Commanded(done) => show_done(alloc, *done),
        ocp_core::Answer::Written(done) => show_done(alloc, *done),
    }
}
