//! The command `asm`.

ghost use Rattle.std.specs.Prelude.{◌≡◌, List, ℕ, ◌<◌, ◌-◌, ◌^◌, length, IfOk, IfErr, IfSome, MatchOption, string_bytes};
ghost use Rattle.ocp_profile.specs.declared.profile.Profile.{Profile};
ghost use Rattle.bpf_assembler.specs.Faults.{IsFault};
ghost use Rattle.bpf_assembler.specs.Assembling.{IsImageOfText};
ghost use Rattle.ocp_ports.specs.Outcomes.{TellsReads, TellsWrites};
ghost use Rattle.ocp_ports.specs.Reading.{max_input, IsShort, LeavesWhile};
ghost use Rattle.ocp_commands.specs.Commands.{Writes, IsMachineFault};
ghost use Rattle.ocp_commands.specs.Assembly.{image_line, why_name, Assembles};

use crate::output::{Output, write_output};
use bpf_assembler::{AsmFault, Why, assemble};
use ocp_ports::{ConsoleFault, Sink, Source, error_text, read_whole};
use ocp_profile::Profile;
use std::alloc::{AllocError, Allocator};

/// The line of an image.
fn image_text<A: Allocator>(alloc: A, image: &[u8]) -> Result<String<A>, AllocError>
    ensures { IfOk result (λ text. string_bytes text ≡ image_line image.now) }
{
    let mut text = hex::encode(alloc, image)?;
    text.push_str("\n")?;
    Ok(text)
}

/// What follows the line number in the line of a fault.
fn name_of_why<A: Allocator>(alloc: A, why: Why) -> Result<String<A>, AllocError>
    ensures { IfOk result (λ text. string_bytes text ≡ why_name why) }
{
    match why {
        Why::Syntax => String::from_str(alloc, "Syntax"),
        Why::Range => String::from_str(alloc, "Range"),
        Why::DuplicateLabel => String::from_str(alloc, "DuplicateLabel"),
        Why::UnknownLabel => String::from_str(alloc, "UnknownLabel"),
        Why::Load(fault) => {
            let number = fault.number();
            format!(in alloc; "Load {number}")
        }
    }
}

/// The output if the text has a fault in this line.
fn output_of_fault<A: Allocator + Copy>(
    alloc: A,
    line: u64,
    why: Why,
) -> Result<Output<A>, AllocError>
    ensures { (profile : Profile) (input : List ℕ) → IsShort input →
        IsFault profile input line why →
        IfOk result (λ output. Assembles profile input output.text.items output.done) }
{
    let name = name_of_why(alloc, why)?;
    let text = error_text(alloc, line, name.as_str())?;
    Ok(Output::of_fault(text))
}

/// The output if the text means this image.
fn output_of_image<A: Allocator>(alloc: A, image: &[u8]) -> Result<Output<A>, AllocError>
    ensures { (profile : Profile) (input : List ℕ) → IsShort input →
        IsImageOfText profile input image.now →
        IfOk result (λ output. Assembles profile input output.text.items output.done) }
{
    let text = image_text(alloc, image)?;
    Ok(Output {
        text: text.into_bytes(),
        done: true,
    })
}

/// The output for an input, which is none if it is too long.
fn output_of<A: Allocator + Copy>(
    alloc: A,
    profile: Profile,
    input: Option<Vec<u8, A>>,
) -> Result<Output<A>, AllocError>
    requires { IfSome input (λ octets. IsShort octets.items) }
    ensures { (whole : List ℕ) →
        MatchOption input (max_input < length whole) (λ octets. octets.items ≡ whole) →
        IfOk result (λ output. Assembles profile whole output.text.items output.done) }
{
    let Some(input) = input else {
        let text = error_text(alloc, 0, "TooLong")?;
        return Ok(Output::of_fault(text));
    };
    match assemble(alloc, profile, &input) {
        Ok(image) => output_of_image(alloc, image.octets()),
        Err(AsmFault::At { line, why }) => output_of_fault(alloc, line, why),
        Err(AsmFault::Memory) => Err(AllocError),
    }
}

/// Reads assembly text, and writes the image that it means under the profile as one line of
/// lower-case hexadecimal digits.
///
/// False if the output is the line of a fault of the input: `error 0 TooLong` (over 1,048,576
/// octets), which is found first, or `error <line> <name>` with the name of the assembler's fault,
/// which is `Load <number>` for a fault of the image. Only `Read`, `Write` and `Memory` are
/// refused. The output is made whole before it is written, so that nothing is written after `Read`
/// and `Memory`, and a prefix of it after `Write`.
pub fn asm<R: Source, W: Sink, A: Allocator + Copy>(
    alloc: A,
    profile: Profile,
    reader: &mut R,
    writer: &mut W,
) -> Result<bool, ConsoleFault>
    requires reads { R.failed_reads reader.old < 2 ^ 64 - 1 }
    requires writes { W.failed_writes writer.old < 2 ^ 64 - 1 }
    ensures assembles { IfSome (R.remaining reader.old)
        (λ input. Writes (Assembles profile input)
        (W.contents writer.old) (W.contents writer.new) result) }
    ensures machine { IfErr result IsMachineFault }
    ensures reads { LeavesWhile IsShort (R.remaining reader.old) (R.remaining reader.new) }
    ensures read { TellsReads (R.failed_reads reader.old) (R.failed_reads reader.new) result }
    ensures write { TellsWrites (W.failed_writes writer.old) (W.failed_writes writer.new) result }
{
    let input = read_whole(alloc, reader)?;
    let output = output_of(alloc, profile, input)?;
    write_output(writer, &output)
}
