//! The command `check`.

ghost use Rattle.std.specs.Prelude.{◌≡◌, List, ℕ, ◌<◌, ◌-◌, ◌^◌, IfOk, IfErr, IfSome, IsTrue, MatchOption, length, string_bytes};
ghost use Rattle.ocp_profile.specs.declared.profile.Profile.{Profile};
ghost use Rattle.ocp_loader.specs.Admitted.{IsAdmitted};
ghost use Rattle.ocp_check.specs.Never.{NeverFaults, AsksWell};
ghost use Rattle.ocp_check.specs.Rounds.{IsWithin};
ghost use Rattle.ocp_ports.specs.Outcomes.{TellsReads, TellsWrites};
ghost use Rattle.ocp_ports.specs.Reading.{max_input, IsShort, LeavesWhile};
ghost use Rattle.ocp_commands.specs.Commands.{Writes, IsMachineFault};
ghost use Rattle.ocp_commands.specs.Listings.{HasImage};
ghost use Rattle.ocp_commands.specs.Checks.{check_fault_line, HasCheckFault, Checks};

use crate::listing::digits;
use crate::output::{Output, numbered_text, write_output};
use crate::verdict::{push_places, push_verdict};
use ocp_check::{Findings, examine};
use ocp_loader::{LoadFault, Program, load};
use ocp_ports::{ConsoleFault, Sink, Source, error_text, read_whole};
use ocp_profile::Profile;
use std::alloc::{AllocError, Allocator};
use text_lines::octets_of;

/// Why an input is not checked, in the order in which faults are looked for.
#[derive(Clone, Copy)]
pub(crate) enum CheckFault {
    /// The input has over 1,048,576 octets.
    TooLong,
    /// The input is not an even number of hexadecimal digits, with spaces and newlines after them.
    Hex,
    /// The image may not be loaded under the profile.
    Load(LoadFault),
}

/// The line of a fault.
fn fault_line<A: Allocator>(alloc: A, fault: CheckFault) -> Result<String<A>, AllocError>
    ensures { IfOk result (λ line. string_bytes line ≡ check_fault_line fault) }
{
    match fault {
        CheckFault::TooLong => error_text(alloc, 0, "TooLong"),
        CheckFault::Hex => error_text(alloc, 0, "Hex"),
        CheckFault::Load(why) => {
            numbered_text(alloc, u64::from(why.slot()), "Load", why.number())
        }
    }
}

/// The output if the input has a fault.
#[tactic(auto, unfolding(crate::specs::Checks::Checks))]
fn output_of_fault<A: Allocator>(alloc: A, fault: CheckFault) -> Result<Output<A>, AllocError>
    ensures { (profile : Profile) (pool : ℕ) (input : List ℕ) → HasCheckFault profile input fault →
        IfOk result (λ output. Checks profile pool input output.text.items output.done) }
{
    let line = fault_line(alloc, fault)?;
    Ok(Output::of_fault(line))
}

/// The output for an image that may be run, with what was found of it.
fn output_of_findings<A: Allocator + Copy>(
    alloc: A,
    program: &Program<A>,
    findings: &Findings<A>,
    pool_words: u16,
) -> Result<Output<A>, AllocError>
    requires never { IsTrue findings.now.never_faults → NeverFaults program.now }
    requires words { IfSome findings.now.words (AsksWell program.now) }
    requires round { IfSome findings.now.round (IsWithin program.now) }
    ensures { (profile : Profile) (input : List ℕ) → HasImage input program.now →
        IsAdmitted profile program.now →
        IfOk result (λ output. Checks profile pool_words input output.text.items output.done) }
{
    let mut text = Vec::new(alloc);
    if findings.never_faults {
        if let (Some(words), Some(most)) = (findings.words, findings.round) {
            if words <= pool_words {
                push_verdict(words, most, &mut text)?;
                return Ok(Output { text, done: true });
            }
        }
    }
    push_places(alloc, program, findings, pool_words, &mut text)?;
    Ok(Output { text, done: false })
}

/// The output for an image that may be run.
fn output_of_program<A: Allocator + Copy>(
    alloc: A,
    program: &Program<A>,
    pool_words: u16,
) -> Result<Output<A>, AllocError>
    ensures { (profile : Profile) (input : List ℕ) → HasImage input program.now →
        IsAdmitted profile program.now →
        IfOk result (λ output. Checks profile pool_words input output.text.items output.done) }
{
    let findings = examine(alloc, program, pool_words)?;
    output_of_findings(alloc, program, &findings, pool_words)
}

/// The output for an image.
fn output_of_image<A: Allocator + Copy>(
    alloc: A,
    profile: Profile,
    pool_words: u16,
    image: &[u8],
) -> Result<Output<A>, AllocError>
    ensures { (input : List ℕ) → HasImage input image.now →
        IfOk result (λ output. Checks profile pool_words input output.text.items output.done) }
{
    match load(alloc, profile, image) {
        Ok(program) => output_of_program(alloc, &program, pool_words),
        Err(LoadFault::Memory) => Err(AllocError),
        Err(fault) => output_of_fault(alloc, CheckFault::Load(fault)),
    }
}

/// The output for an input, which is none if it is too long.
fn output_of<A: Allocator + Copy>(
    alloc: A,
    profile: Profile,
    pool_words: u16,
    input: Option<Vec<u8, A>>,
) -> Result<Output<A>, AllocError>
    requires { IfSome input (λ octets. IsShort octets.items) }
    ensures { (whole : List ℕ) →
        MatchOption input (max_input < length whole) (λ octets. octets.items ≡ whole) →
        IfOk result (λ output. Checks profile pool_words whole output.text.items output.done) }
{
    let Some(input) = input else {
        return output_of_fault(alloc, CheckFault::TooLong);
    };
    let mut image = Vec::new(alloc);
    match octets_of(&mut image, digits(&input))? {
        Some(image) => output_of_image(alloc, profile, pool_words, image),
        None => output_of_fault(alloc, CheckFault::Hex),
    }
}

/// Reads an image in hexadecimal digits of both cases, and writes what no run of it ever does,
/// under the profile and with a pool of this many words; spaces and newlines after the digits are
/// ignored. If all is shown there are three lines: faults 1 to 3 never come, the words of pool with
/// which fault 4 never comes, and the most instructions of a round.
///
/// False if not all is shown: then there is a line for each place that may fault, and one if no
/// bound of a round is shown. False too if the output is the line of a fault of the input:
/// `error 0 TooLong` (over 1,048,576 octets), `error 0 Hex`, or `error <slot> Load <number>` with
/// the loader's fault, looked for in this order. Only `Read`, `Write` and `Memory` are refused. The
/// output is made whole before it is written, so that nothing is written after `Read` and
/// `Memory`, and a prefix of it after `Write`.
pub fn check<R: Source, W: Sink, A: Allocator + Copy>(
    alloc: A,
    profile: Profile,
    pool_words: u16,
    reader: &mut R,
    writer: &mut W,
) -> Result<bool, ConsoleFault>
    requires reads { R.failed_reads reader.old < 2 ^ 64 - 1 }
    requires writes { W.failed_writes writer.old < 2 ^ 64 - 1 }
    ensures checks { IfSome (R.remaining reader.old)
        (λ input. Writes (Checks profile pool_words input)
        (W.contents writer.old) (W.contents writer.new) result) }
    ensures machine { IfErr result IsMachineFault }
    ensures reads { LeavesWhile IsShort (R.remaining reader.old) (R.remaining reader.new) }
    ensures read { TellsReads (R.failed_reads reader.old) (R.failed_reads reader.new) result }
    ensures write { TellsWrites (W.failed_writes writer.old) (W.failed_writes writer.new) result }
{
    let input = read_whole(alloc, reader)?;
    let output = output_of(alloc, profile, pool_words, input)?;
    write_output(writer, &output)
}
