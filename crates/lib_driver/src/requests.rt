//! Calls of obcp_messages, and requests in words.

use crate::output::Output;
use crate::reports;
use arrayvec::ArrayVec;
use bitflags::Flags;
use driver_lines::*;
use obcp_messages::{
    Arguments, Code, MAX_WORDS, Request, Words, read_request, write_report, write_request,
};
use ocp_profile::Profile;
use pus_fields::{Ack, Tc};
use space_packet::{Apid, SequenceCount};

/// The answer of a call.
pub(crate) fn answer(alloc: Global, words: &[&str]) -> Answer {
    calls! { alloc, words;
        "obcp_messages.read_request"
                profile: profile service: number subtype: number data: octets -> "subtype, request" => {
            read(alloc, profile, telecommand(service, subtype, &data)?)
        };
        "obcp_messages.write_request" profile: profile before [request] -> "octets" => {
            let carried = payload_of(alloc, request)?;
            write(alloc, profile, before, &some!(alloc, request_of(request, &carried)?))
        };
        "obcp_messages.has_fitting_budget" profile: profile [request] -> "flag" => {
            let carried = payload_of(alloc, request)?;
            let request = some!(alloc, request_of(request, &carried)?);
            text_of(alloc, request.has_fitting_budget(profile))
        };
        "obcp_messages.read_report" service: number subtype: number data: octets
                -> "service, subtype, report" => {
            reports::read(alloc, service, subtype, &data)
        };
        "obcp_messages.write_report" before [report] -> "octets" => {
            let report = some!(alloc, reports::report_of(alloc, report)?);
            append!(alloc, before, Octets, out => or_memory(write_report(&report, out)))
        };
    }
}

/// A telecommand with this data, of application process 291, with the count 0 and no flags.
fn telecommand<'a>(service: u8, subtype: u8, data: &'a [u8]) -> Result<Tc<'a>, Fault> {
    let apid = Apid::new(291).ok_or(Fault::Syntax)?;
    let count = SequenceCount::new(0).ok_or(Fault::Syntax)?;
    Tc::new(apid, count, Ack::empty(), service, subtype, 0, data).ok_or(Fault::Syntax)
}

fn read(alloc: Global, profile: Profile, tc: Tc) -> Answer {
    match read_request(profile, &tc) {
        Ok(request) => {
            let text = show(alloc, &request)?;
            text!(alloc; "Ok", request.subtype(), text.as_str())
        }
        Err(fault) => name_of(alloc, fault),
    }
}

fn show(alloc: Global, request: &Request) -> Answer {
    variant! { alloc, request, Request;
        Load { id, code } => *id, Octets(code.octets());
        Unload { id } => *id;
        Activate { id, budget, arguments } => *id, *budget, Octets(arguments.octets());
        Stop { id, step } => *id, *step;
        Suspend { id, step } => *id, *step;
        Resume { id } => *id;
        Communicate { id, words } => *id, Numbers(words.as_slice());
        Abort { id } => *id;
        [Request::Status] => text_of(alloc, "Status");
    }
}

/// The octets that a request in words carries.
fn payload_of(alloc: Global, words: &[&str]) -> Result<Vec<u8>, Fault> {
    match *words {
        ["Load", _, data] | ["Activate", _, _, data] => octets(alloc, data),
        _ => Ok(Vec::new(alloc)),
    }
}

/// The request in words, with the octets that it carries. None if these are too many, or its words
/// are no message.
fn request_of<'a>(words: &[&str], carried: &'a [u8]) -> Result<Option<Request<'a>>, Fault> {
    table! { (), words;
        "Load" id: number code => Ok(load(id, carried));
        "Unload" id: number => Ok(Some(Request::Unload { id }));
        "Activate" id: number budget: number arguments => Ok(activation(id, budget, carried));
        "Stop" id: number step: number => Ok(Some(Request::Stop { id, step }));
        "Suspend" id: number step: number => Ok(Some(Request::Suspend { id, step }));
        "Resume" id: number => Ok(Some(Request::Resume { id }));
        "Communicate" id: number [words] => message(id, words);
        "Status" => Ok(Some(Request::Status));
        "Abort" id: number => Ok(Some(Request::Abort { id }));
    }
}

fn load(id: u16, octets: &[u8]) -> Option<Request<'_>> {
    let code = Code::new(octets)?;
    Some(Request::Load { id, code })
}

fn activation(id: u16, budget: u32, octets: &[u8]) -> Option<Request<'_>> {
    let arguments = Arguments::new(octets)?;
    Some(Request::Activate {
        id,
        budget,
        arguments,
    })
}

fn message<'a>(id: u16, numbers: &[&str]) -> Result<Option<Request<'a>>, Fault> {
    let mut words: ArrayVec<u64, MAX_WORDS> = ArrayVec::new();
    for word in numbers {
        if words.try_push(number_of(word)?).is_err() {
            return Ok(None);
        }
    }
    match Words::new(words) {
        Some(words) => Ok(Some(Request::Communicate { id, words })),
        None => Ok(None),
    }
}

/// Writes a request whose budget fits after the octets.
fn write(alloc: Global, profile: Profile, before: &str, request: &Request) -> Answer {
    if !request.has_fitting_budget(profile) {
        return Err(Fault::Syntax);
    }
    append!(alloc, before, Octets, out => or_memory(write_request(profile, request, out)))
}
