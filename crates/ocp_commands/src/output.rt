//! What a command writes.

ghost use Rattle.std.specs.Prelude.{◌≡◌, ◌<◌, ◌-◌, ◌^◌, ◌++◌, IfOk, codes, false, string_bytes};
ghost use Rattle.std.specs.Fmt.{decimal};
ghost use Rattle.ocp_ports.specs.Outcomes.{CountsFailure, PrintsText};
ghost use Rattle.ocp_ports.specs.Printing.{error_line};

use ocp_ports::{ConsoleFault, Sink, write_whole};
use std::alloc::{AllocError, Allocator, Global};

/// What a command writes: what was asked for, or else why not: places, or a fault of the input.
#[derive(Drop)]
pub(crate) struct Output<A: Allocator = Global> {
    pub text: Vec<u8, A>,
    pub done: bool,
}

impl<A: Allocator> Output<A> {
    /// The output if the input has a fault.
    pub fn of_fault(line: String<A>) -> Output<A>
        ensures { (result.text.items ≡ string_bytes line) × (result.done ≡ false) }
    {
        Output {
            text: line.into_bytes(),
            done: false,
        }
    }
}

/// The line of a fault of a slot, with the fault's number after its name.
pub(crate) fn numbered_text<A: Allocator>(
    alloc: A,
    slot: u64,
    name: &str,
    number: u8,
) -> Result<String<A>, AllocError>
    ensures { IfOk result (λ line. string_bytes line ≡
        error_line slot (name.now ++ codes " " ++ decimal number)) }
{
    let line = format!(in alloc; "error {slot} {name} {number}\n")?;
    Ok(line)
}

/// Writes an output, and answers whether it is what was asked for.
pub(crate) fn write_output<W: Sink, A: Allocator>(
    writer: &mut W,
    output: &Output<A>,
) -> Result<bool, ConsoleFault>
    requires { W.failed_writes writer.old < 2 ^ 64 - 1 }
    ensures done { IfOk result (λ done. done ≡ output.now.done) }
    ensures octets { PrintsText (W.contents writer.old) (W.contents writer.new)
        output.now.text.items result }
    ensures count { CountsFailure (W.failed_writes writer.old)
        (W.failed_writes writer.new) result }
{
    write_whole(writer, output.text.as_slice())?;
    Ok(output.done)
}
