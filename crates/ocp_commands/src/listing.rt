//! The command `list`.

ghost use Rattle.std.specs.Prelude.{◌≡◌, List, ℕ, ◌<◌, ◌-◌, ◌^◌, IfOk, IfErr, IfSome, MatchOption, length, string_bytes};
ghost use Rattle.ocp_ports.specs.Outcomes.{TellsReads, TellsWrites};
ghost use Rattle.ocp_ports.specs.Reading.{max_input, IsShort, LeavesWhile};
ghost use Rattle.ocp_commands.specs.Commands.{Writes, IsMachineFault};
ghost use Rattle.ocp_commands.specs.Listings.{is_blank, digits_of, list_fault_line, HasImage, HasListFault, Lists};

use crate::output::{Output, numbered_text, write_output};
use bpf_canonical::MAX_TEXT_LENGTH;
use bpf_decode::DecodeFault;
use bpf_listing::{DisassembleFault, disassemble};
use ocp_ports::{ConsoleFault, Sink, Source, error_text, read_whole};
use std::alloc::{AllocError, Allocator};
use text_lines::octets_of;

/// Why an input has no listing, in the order in which faults are looked for.
#[derive(Clone, Copy)]
pub(crate) enum ListFault {
    /// The input has over 1,048,576 octets.
    TooLong,
    /// The input is not an even number of hexadecimal digits with spaces and newlines after them.
    Hex,
    /// The image is not whole slots of 8 octets.
    Ragged,
    /// The octets from this slot on begin with no instruction that may be loaded.
    Decode(DecodeFault, usize),
}

/// The line of a fault.
fn fault_line<A: Allocator>(alloc: A, fault: ListFault) -> Result<String<A>, AllocError>
    ensures { IfOk result (λ line. string_bytes line ≡ list_fault_line fault) }
{
    match fault {
        ListFault::TooLong => error_text(alloc, 0, "TooLong"),
        ListFault::Hex => error_text(alloc, 0, "Hex"),
        ListFault::Ragged => error_text(alloc, 0, "Ragged"),
        ListFault::Decode(why, slot) => numbered_text(alloc, slot as u64, "Decode", why.number()),
    }
}

/// The output if the input has a fault.
fn output_of_fault<A: Allocator>(alloc: A, fault: ListFault) -> Result<Output<A>, AllocError>
    ensures { (input : List ℕ) → HasListFault input fault →
        IfOk result (λ output. Lists input output.text.items output.done) }
{
    let line = fault_line(alloc, fault)?;
    Ok(Output::of_fault(line))
}

fn is_blank(octet: u8) -> bool
    ensures { result ≡ is_blank octet }
{
    octet == b' ' || octet == b'\n'
}

/// The text without the spaces and newlines at its end.
pub(crate) fn digits(text: &[u8]) -> &[u8]
    ensures { result.now ≡ digits_of text.now }
{
    let mut digits = text;
    while let [start @ .., last] = digits {
        if !is_blank(*last) {
            break;
        }
        digits = start;
    }
    digits
}

/// No line is longer, with its newline, so a listing is written in one pass.
const LONGEST_LINE: usize = MAX_TEXT_LENGTH + 1;

/// The output for an image. The listing is written into a vector that is no longer needed.
fn output_of_image<A: Allocator + Copy>(
    alloc: A,
    image: &[u8],
    mut place: Vec<u8, A>,
) -> Result<Output<A>, AllocError>
    ensures { (input : List ℕ) → HasImage input image.now →
        IfOk result (λ output. Lists input output.text.items output.done) }
{
    place.clear();
    place.reserve((image.len() / 8).saturating_mul(LONGEST_LINE))?;
    match disassemble(image, &mut place) {
        Ok(()) => Ok(Output {
            text: place,
            done: true,
        }),
        Err(DisassembleFault::Ragged) => output_of_fault(alloc, ListFault::Ragged),
        Err(DisassembleFault::Decode(why, slot)) => output_of_fault(
            alloc,
            ListFault::Decode(why, slot),
        ),
        Err(DisassembleFault::Memory) => Err(AllocError),
    }
}

/// The output for an input, which is none if it is too long.
fn output_of<A: Allocator + Copy>(
    alloc: A,
    input: Option<Vec<u8, A>>,
) -> Result<Output<A>, AllocError>
    requires { IfSome input (λ octets. IsShort octets.items) }
    ensures { (whole : List ℕ) →
        MatchOption input (max_input < length whole) (λ octets. octets.items ≡ whole) →
        IfOk result (λ output. Lists whole output.text.items output.done) }
{
    let Some(input) = input else {
        return output_of_fault(alloc, ListFault::TooLong);
    };
    let mut image = Vec::new(alloc);
    match octets_of(&mut image, digits(&input))? {
        Some(image) => output_of_image(alloc, image, input),
        None => output_of_fault(alloc, ListFault::Hex),
    }
}

/// Reads an image in hexadecimal digits of both cases, and writes its listing; spaces and newlines
/// after the digits are ignored. The empty input has the empty listing. It does no more than
/// decode: an image that no loader would take has its listing too.
///
/// False if the output is the line of a fault of the input: `error 0 TooLong` (over 1,048,576
/// octets), `error 0 Hex`, `error 0 Ragged`, `error <slot> Decode <number>`, found in this order.
/// Only `Read`, `Write` and `Memory` are refused. The output is made whole before it is written, so
/// that nothing is written after `Read` and `Memory`, and a prefix of it after `Write`.
pub fn list<R: Source, W: Sink, A: Allocator + Copy>(
    alloc: A,
    reader: &mut R,
    writer: &mut W,
) -> Result<bool, ConsoleFault>
    requires reads { R.failed_reads reader.old < 2 ^ 64 - 1 }
    requires writes { W.failed_writes writer.old < 2 ^ 64 - 1 }
    ensures lists { IfSome (R.remaining reader.old)
        (λ input. Writes (Lists input) (W.contents writer.old) (W.contents writer.new) result) }
    ensures machine { IfErr result IsMachineFault }
    ensures reads { LeavesWhile IsShort (R.remaining reader.old) (R.remaining reader.new) }
    ensures read { TellsReads (R.failed_reads reader.old) (R.failed_reads reader.new) result }
    ensures write { TellsWrites (W.failed_writes writer.old) (W.failed_writes writer.new) result }
{
    let input = read_whole(alloc, reader)?;
    let output = output_of(alloc, input)?;
    write_output(writer, &output)
}
