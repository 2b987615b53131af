//! Calls of bpf_assembler and ocp_loader.

use crate::output::Output;
use bpf_assembler::{AsmFault, Why, assemble, write_canonical};
use driver_lines::*;
use ocp_loader::{LoadFault, Program, load};
use ocp_profile::Profile;

/// The answer of a call.
pub(crate) fn answer(alloc: Global, words: &[&str]) -> Answer {
    calls! { alloc, words;
        "bpf_assembler.assemble" profile: profile text: octets -> "octets; or the line, and the fault" => image_of(alloc, profile, &text);
        "bpf_assembler.write_canonical" profile: profile before text: octets -> "text; or the line, and the fault" => {
            canonical(alloc, profile, before, &text)
        };
        "ocp_loader.load" profile: profile image: octets -> "slots, octets; or the number of the fault, and its slot" => show_load(alloc, profile, &image);
        "ocp_loader.slots" profile: profile image: octets -> "number" => {
            text_of(alloc, program_of(alloc, profile, &image)?.slots())
        };
        "ocp_loader.listing" profile: profile before image: octets -> "text" => {
            listing(alloc, before, &program_of(alloc, profile, &image)?)
        };
        "ocp_loader.line_at" profile: profile image: octets slot: number -> "instruction" => {
            line_at(alloc, &program_of(alloc, profile, &image)?, slot)
        };
        "ocp_loader.is_same" profile: profile image: octets other: octets -> "flag" => {
            let (image, other) =
                (program_of(alloc, profile, &image)?, program_of(alloc, profile, &other)?);
            text_of(alloc, image.is_same(&other))
        };
    }
}

fn image_of(alloc: Global, profile: Profile, text: &[u8]) -> Answer {
    match assemble(alloc, profile, text) {
        Ok(image) => text!(alloc; "Ok", Octets(image.octets())),
        Err(fault) => show_fault(alloc, fault),
    }
}

fn show_fault(alloc: Global, fault: AsmFault) -> Answer {
    match fault {
        AsmFault::At {
            line,
            why: Why::Load(fault),
        } => text!(alloc; line, "Load", fault.number()),
        AsmFault::At { line, why } => text!(alloc; line, Named(why)),
        AsmFault::Memory => Err(Fault::Memory),
    }
}

fn canonical(alloc: Global, profile: Profile, before: &str, text: &[u8]) -> Answer {
    let mut output = Output::before(alloc, before)?;
    match write_canonical(alloc, profile, text, &mut output.octets) {
        Err(AsmFault::At { line, why }) => show_fault(alloc, AsmFault::At { line, why }),
        done => output.show(alloc, done, Text(&output.octets)),
    }
}

fn show_load(alloc: Global, profile: Profile, image: &[u8]) -> Answer {
    match load(alloc, profile, image) {
        Ok(program) => text!(alloc; "Ok", program.slots(), Octets(program.octets())),
        Err(LoadFault::Memory) => Err(Fault::Memory),
        Err(fault) => text!(alloc; fault.number(), fault.slot()),
    }
}

/// The program of an image that is admitted.
fn program_of(alloc: Global, profile: Profile, image: &[u8]) -> Result<Program, Fault> {
    match load(alloc, profile, image) {
        Ok(program) => Ok(program),
        Err(LoadFault::Memory) => Err(Fault::Memory),
        Err(_) => Err(Fault::Syntax),
    }
}

fn line_at(alloc: Global, program: &Program, slot: u16) -> Answer {
    name_of(alloc, Some(some!(alloc, program.line_at(slot))))
}

fn listing(alloc: Global, before: &str, program: &Program) -> Answer {
    append!(alloc, before, Text, out => or_memory(program.listing(out)))
}
