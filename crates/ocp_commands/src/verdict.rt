//! What the command `check` writes for an image.

ghost use Rattle.std.specs.Prelude.{◌≡◌, ◌++◌, OnOk};
ghost use Rattle.ocp_commands.specs.Checks.{verdict, words_line, round_line};

use bpf_canonical::Text;
use bpf_types::Reg;
use ocp_check::{Findings, Range, Refusal, Why};
use ocp_loader::Program;
use std::alloc::{AllocError, Allocator};

/// Appends the line of fault 4 for an image for which this many words of pool suffice.
fn push_words<A: Allocator>(words: u16, text: &mut Vec<u8, A>) -> Result<(), AllocError>
    ensures { OnOk result (text.new.items ≡ text.old.items ++ words_line words) }
{
    if words <= 1 {
        return text.extend_from_slice(b"fault 4        never\n");
    }
    let mut line = Text::<64>::new();
    line.push_all(b"fault 4        never, with ");
    line.push_integer(words);
    line.push_all(b" words of pool or more\n");
    text.extend_from_slice(line.as_slice())
}

/// Appends the line of a round of which a bound is shown.
fn push_round<A: Allocator>(most: u32, text: &mut Vec<u8, A>) -> Result<(), AllocError>
    ensures { OnOk result (text.new.items ≡ text.old.items ++ round_line most) }
{
    let mut line = Text::<128>::new();
    line.push_all(b"round          at most ");
    line.push_integer(most);
    line.push_all(b" instructions from a start or a step end to the next step end or the exit\n");
    text.extend_from_slice(line.as_slice())
}

/// Appends the lines of an image of which all is shown.
pub(crate) fn push_verdict<A: Allocator>(
    words: u16,
    most: u32,
    text: &mut Vec<u8, A>,
) -> Result<(), AllocError>
    ensures { OnOk result (text.new.items ≡ text.old.items ++ verdict words most) }
{
    text.extend_from_slice(b"faults 1 2 3   never\n")?;
    push_words(words, text)?;
    push_round(most, text)
}

/// What may happen at an access, by what is known of its base register.
fn access_text<A: Allocator>(
    alloc: A,
    fault: &str,
    base: Reg,
    known: Option<Range>,
) -> Result<String<A>, AllocError> {
    let number = base.number();
    match known {
        Some(range) => {
            let low = range.low;
            let high = range.high;
            format!(in alloc; "may be {fault}: r{number} is 0x{low:x} to 0x{high:x}")
        }
        None => format!(in alloc; "may be {fault}: r{number} is any number"),
    }
}

/// What may happen at a place.
fn why_text<A: Allocator>(alloc: A, why: Why) -> Result<String<A>, AllocError> {
    match why {
        Why::Outside(base, known) => access_text(alloc, "AccessOutside", base, known),
        Why::Arguments(base, known) => access_text(alloc, "WriteToArguments", base, known),
        Why::Index(known) => access_text(alloc, "BadPoolIndex", Reg::one(), known),
        Why::Depth => String::from_str(alloc, "may be CallDepth: seven local calls may be open"),
        Why::Unsettled => String::from_str(alloc, "not shown: what is known there did not settle"),
    }
}

/// Appends the line of a place that is not shown.
fn push_refusal<A: Allocator + Copy>(
    alloc: A,
    program: &Program<A>,
    refusal: &Refusal,
    text: &mut Vec<u8, A>,
) -> Result<(), AllocError> {
    let mut start = Text::<64>::new();
    start.push_all(b"slot ");
    start.push_integer(refusal.slot);
    start.push_all(b"   ");
    if let Some(line) = program.line_at(refusal.slot) {
        start.push_line(&line);
    }
    start.push_all(b"   ");
    text.extend_from_slice(start.as_slice())?;
    let why = why_text(alloc, refusal.why)?;
    text.extend_from_slice(why.as_bytes())?;
    text.push(b'\n')?;
    Ok(())
}

/// Appends the lines of places that are not shown.
fn push_refusals<A: Allocator + Copy>(
    alloc: A,
    program: &Program<A>,
    refusals: &[Refusal],
    text: &mut Vec<u8, A>,
) -> Result<(), AllocError> {
    for refusal in refusals {
        push_refusal(alloc, program, refusal, text)?;
    }
    Ok(())
}

/// Appends the line of a round of which no bound is shown.
fn push_unbounded<A: Allocator>(cycle: &[u16], text: &mut Vec<u8, A>) -> Result<(), AllocError> {
    if cycle.is_empty() {
        return text.extend_from_slice(b"round   not bounded, since a fault may come\n");
    }
    text.extend_from_slice(b"round   not bounded: slots")?;
    for slot in cycle {
        let mut number = Text::<64>::new();
        number.push_all(b" ");
        number.push_integer(*slot);
        text.extend_from_slice(number.as_slice())?;
    }
    text.extend_from_slice(b" repeat without a step end\n")
}

/// Appends the lines of an image of which not all is shown: what is shown, and each place that is
/// not.
pub(crate) fn push_places<A: Allocator + Copy>(
    alloc: A,
    program: &Program<A>,
    findings: &Findings<A>,
    pool_words: u16,
    text: &mut Vec<u8, A>,
) -> Result<(), AllocError> {
    if findings.never_faults {
        text.extend_from_slice(b"faults 1 2 3   never\n")?;
    }
    push_refusals(alloc, program, &findings.faults, text)?;
    match findings.words {
        Some(words) if words <= pool_words => push_words(words, text)?,
        _ => push_refusals(alloc, program, &findings.asks, text)?,
    }
    match findings.round {
        Some(most) => push_round(most, text),
        None => push_unbounded(&findings.cycle, text),
    }
}
