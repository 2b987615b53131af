//! Reading a whole input.

ghost use Rattle.std.specs.Prelude.{◌≡◌, ◌<◌, ◌-◌, ◌^◌, ◌⊎◌, length, IfOk, IfErr, IfSome, MatchOption};
ghost use Rattle.ocp_ports.specs.Outcomes.{TellsReads};
ghost use Rattle.ocp_ports.specs.Reading.{max_input, IsShort, LeavesWhile};

use crate::fault::ConsoleFault;
use crate::ports::Source;
use std::alloc::Allocator;

/// The most octets that one read takes.
pub const CHUNK: usize = 4096;

/// The most octets of an input that is read whole.
pub const MAX_INPUT: usize = 1_048_576;

/// The whole input, or `None` if it has too many octets. It begins a read only while what it has
/// read is within the limit. A failed read is refused as `Read`; else only `Memory` is refused.
pub fn read_whole<R: Source, A: Allocator>(
    alloc: A,
    reader: &mut R,
) -> Result<Option<Vec<u8, A>>, ConsoleFault>
    requires { R.failed_reads reader.old < 2 ^ 64 - 1 }
    ensures whole { IfOk result (λ read. IfSome (R.remaining reader.old) (λ input.
        MatchOption read (max_input < length input) (λ octets. octets.items ≡ input))) }
    ensures few { IfOk result (λ read. IfSome read (λ octets. IsShort octets.items)) }
    ensures reads { LeavesWhile IsShort (R.remaining reader.old) (R.remaining reader.new) }
    ensures read { TellsReads (R.failed_reads reader.old) (R.failed_reads reader.new) result }
    ensures err { IfErr result (λ e. (e ≡ ConsoleFault.Read) ⊎ (e ≡ ConsoleFault.Memory)) }
{
    let mut input = Vec::new(alloc);
    let mut chunk = [0u8; CHUNK];
    loop {
        let Some(count) = reader.read(&mut chunk) else {
            return Err(ConsoleFault::Read);
        };
        if count == 0 {
            return Ok(Some(input));
        }
        if input.len() + count > MAX_INPUT {
            return Ok(None);
        }
        input.extend_from_slice(&chunk[..count])?;
    }
}
