//! A whole run.

ghost use Rattle.std.specs.Prelude.{◌≡◌, ◌≢◌, ◌<◌, ◌^◌, ◌-◌, ◌++◌, ◌↔◌, List, [], ℕ, Result, Ok, Err, None, false, IfSome, IsErrOf, MatchResult};
ghost use Rattle.std.specs.Io.KnownBytes.{Appends};
ghost use Rattle.ocp_ports.specs.declared.fault.ConsoleFault.{ConsoleFault};
ghost use Rattle.ocp_ports.specs.Faults.{fault_line};
ghost use Rattle.ocp_console.specs.Mirror.Replies.{Refuses};
ghost use Rattle.ocp_ports.specs.Outcomes.{TellsReads, TellsWrites};
ghost use Rattle.ocp_ports.specs.Reading.{LeavesWhile};
ghost use Rattle.ocp_lines.specs.Lines.{octets_left, lines_read, is_at_end};
ghost use Rattle.ocp_lines.specs.Reading.{IsWithin};
ghost use Rattle.ocp_console.specs.Script.{IsWorkless, Prints, PrintsBy, WritesScript, transcript};

use crate::console::Console;
use ocp_core::Engine;
use ocp_lines::Lines;
use ocp_ports::{ConsoleFault, Crew, Sink, Source, error_text, write_whole};
use ocp_words::Settings;
use std::alloc::Allocator;

/// Writes the line of a fault of the script, and returns why the run ends.
fn refuse<W: Sink, A: Allocator + Copy>(
    alloc: A,
    writer: &mut W,
    fault: ConsoleFault,
) -> ConsoleFault
    requires { fault_line fault ≢ None → W.failed_writes writer.old < 2 ^ 64 - 1 }
    ensures prints { PrintsBy (W.contents writer.old) (W.contents writer.new)
        (Refuses fault) (Err result) }
    ensures read { (result ≡ ConsoleFault.Read) ↔ (fault ≡ ConsoleFault.Read) }
    ensures kept { fault_line fault ≡ None →
        (result ≡ fault) × (W.failed_writes writer.new ≡ W.failed_writes writer.old) }
    ensures write { fault_line fault ≢ None →
        (result ≡ ConsoleFault.Write) ↔ (W.failed_writes writer.old < W.failed_writes writer.new) }
{
    let Some(number) = fault.line() else {
        return fault;
    };
    let Ok(text) = error_text(alloc, u64::from(number), fault.name()) else {
        return ConsoleFault::Memory;
    };
    match write_whole(writer, text.as_bytes()) {
        Ok(()) => fault,
        Err(failure) => failure,
    }
}

/// Does each line of a script in turn, and writes what it prints. No line was read before.
fn do_lines<R: Source, W: Sink, C: Crew<Engine<A>>, A: Allocator + Copy>(
    alloc: A,
    settings: Settings,
    crew: &C,
    lines: &mut Lines<A>,
    reader: &mut R,
    writer: &mut W,
) -> Result<(), ConsoleFault>
    requires ready { C.ready crew.now }
    requires held { octets_left lines.old ≡ [] }
    requires number { lines_read lines.old ≡ 0 }
    requires is_over { is_at_end lines.old ≡ false }
    requires reads { R.failed_reads reader.old < 2 ^ 64 - 1 }
    requires writes { W.failed_writes writer.old < 2 ^ 64 - 1 }
    ensures run { IfSome (R.remaining reader.old) (λ script.
        (sent : List ℕ) × Appends (W.contents writer.old) (W.contents writer.new) sent
        × MatchResult result
        (λ _. WritesScript (C.answers crew.now) settings script sent (Ok tt))
        (λ fault. (later : List ℕ) (ending : Result Unit ConsoleFault) →
        Refuses fault later ending →
        WritesScript (C.answers crew.now) settings script (sent ++ later) ending)) }
    ensures reads { LeavesWhile IsWithin (R.remaining reader.old) (R.remaining reader.new) }
    ensures read { TellsReads (R.failed_reads reader.old) (R.failed_reads reader.new) result }
    ensures write { IsErrOf result ConsoleFault.Write →
        W.failed_writes writer.old < W.failed_writes writer.new }
    ensures no_write { (IsErrOf result ConsoleFault.Write → ⊥) →
        W.failed_writes writer.new ≡ W.failed_writes writer.old }
{
    let mut console = Console::new(alloc, settings)?;
    while let Some(number) = lines.next(reader)? {
        if let Some(shift) = console.answer(alloc, number, lines.text())? {
            console = console.work(crew, shift)?;
        }
        write_whole(writer, console.output.as_slice())?;
    }
    Ok(())
}

/// Reads a script, and writes its transcript and nothing else, on a new engine of these settings.
/// It begins a read only while what it has read is at most 100,000 lines of at most 40,000 octets
/// each.
///
/// For each line in turn and in this order it answers `TooManyLines` (over 100,000), `LineTooLong`
/// (over 40,000 octets, a carriage return included and the newline not) and `Syntax`; `Read`
/// exactly if a read failed, `Write` exactly if a write failed, and `Memory`. After these three a
/// prefix of the transcript was written.
///
/// A `work` line is one call of the crew, which gets the engine. The lines after it use the engine
/// that the crew gives back. If the crew refuses, the run ends with its refusal, `Memory` or
/// `Workers`, and with the transcript so far.
pub fn run<R: Source, W: Sink, C: Crew<Engine<A>>, A: Allocator + Copy>(
    alloc: A,
    settings: Settings,
    crew: &C,
    reader: &mut R,
    writer: &mut W,
) -> Result<(), ConsoleFault>
    requires ready { C.ready crew.now }
    requires reads { R.failed_reads reader.old < 2 ^ 64 - 1 }
    requires writes { W.failed_writes writer.old < 2 ^ 64 - 1 }
    ensures transcript { IfSome (R.remaining reader.old) (λ script. IsWorkless script →
        Prints (W.contents writer.old) (W.contents writer.new)
        (transcript settings script) result) }
    ensures work { IfSome (R.remaining reader.old) (λ script.
        PrintsBy (W.contents writer.old) (W.contents writer.new)
        (WritesScript (C.answers crew.now) settings script) result) }
    ensures reads { LeavesWhile IsWithin (R.remaining reader.old) (R.remaining reader.new) }
    ensures read { TellsReads (R.failed_reads reader.old) (R.failed_reads reader.new) result }
    ensures write { TellsWrites (W.failed_writes writer.old) (W.failed_writes writer.new) result }
{
    let mut lines = Lines::new(alloc);
    match do_lines(alloc, settings, crew, &mut lines, reader, writer) {
        Ok(()) => Ok(()),
        Err(fault) => Err(refuse(alloc, writer, fault)),
    }
}
