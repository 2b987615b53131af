//! Writing a whole output.

ghost use Rattle.std.specs.Prelude.{◌≡◌, ◌<◌, ◌-◌, ◌^◌, IfOk, string_bytes};
ghost use Rattle.ocp_ports.specs.Outcomes.{CountsFailure, PrintsText};
ghost use Rattle.ocp_ports.specs.Printing.{error_line};

use crate::fault::ConsoleFault;
use crate::ports::Sink;
use std::alloc::{AllocError, Allocator};

/// Writes all of the octets. The only refusal is `Write`, if a write failed; then a prefix of
/// them was written.
pub fn write_whole<W: Sink>(writer: &mut W, octets: &[u8]) -> Result<(), ConsoleFault>
    requires { W.failed_writes writer.old < 2 ^ 64 - 1 }
    ensures octets { PrintsText (W.contents writer.old) (W.contents writer.new) octets.now result }
    ensures count { CountsFailure (W.failed_writes writer.old)
        (W.failed_writes writer.new) result }
{
    let mut rest = octets;
    while !rest.is_empty() {
        match writer.write(rest) {
            Some(count) => rest = &rest[count..],
            None => return Err(ConsoleFault::Write),
        }
    }
    Ok(())
}

/// The line of a fault.
pub fn error_text<A: Allocator>(alloc: A, number: u64, name: &str) -> Result<String<A>, AllocError>
    ensures { IfOk result (λ line. string_bytes line ≡ error_line number name.now) }
{
    let text = format!(in alloc; "error {number} {name}\n")?;
    Ok(text)
}
