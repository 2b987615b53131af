//! What is printed of reports, steps, rounds, the pool and the journal.

ghost use Rattle.std.specs.Prelude.{◌≡◌, ◌≢◌, ◌≤◌, ◌+◌, ◌++◌, Err, codes, length, OnOk};
ghost use Rattle.std.specs.List.{flat_map};
ghost use Rattle.ocp_world.specs.After.{Requested};
ghost use Rattle.ocp_console.specs.Answering.{answer_text};
ghost use Rattle.ocp_console.specs.Texts.{report_line, step_line, step_end_text, round_line, pool_line, put_line, journal_line, work_line};

use crate::text::{Text, push_octets, push_parts};
use ocp_core::{EngineFault, PutFault, Reports, Round, Slice};
use ocp_debug::{push_outcome, push_spaced_word};
use pus_fields::read_tm;
use std::alloc::{AllocError, Allocator};

/// Appends the line of a report.
fn push_report<A: Allocator>(packet: &[u8], output: &mut Vec<u8, A>) -> Result<(), AllocError>
    ensures { OnOk result (output.new.items ≡ output.old.items ++ report_line packet.now) }
{
    let Ok(tm) = read_tm(packet) else {
        return Ok(());
    };
    let count = tm.count.number();
    let mut front = Text::new();
    push_parts!(
        front; b"tm " => tm.service, b" " => tm.subtype, b" seq " => count,
        b" dest " => tm.destination; b" data "
    );
    output.extend_from_slice(front.as_slice())?;
    push_octets(tm.payload, output)
}

/// Appends the lines of reports.
fn push_reports<A: Allocator>(
    reports: &Reports<A>,
    output: &mut Vec<u8, A>,
) -> Result<(), AllocError>
    ensures { OnOk result
        (output.new.items ≡ output.old.items ++ flat_map report_line reports.now) }
{
    for packet in reports.packets() {
        push_report(packet.as_slice(), output)?;
    }
    Ok(())
}

/// Appends the line of a packet that is discarded, or of a request or a drain that is refused, for
/// the reason with this name.
fn push_reason<A: Allocator>(
    front: &[u8],
    name: &str,
    output: &mut Vec<u8, A>,
) -> Result<(), AllocError>
    requires { length front.now + length name.now ≤ 63 }
    ensures { OnOk result
        (output.new.items ≡ output.old.items ++ front.now ++ name.now ++ codes "\n") }
{
    let mut text = Text::new();
    text.push_all(front);
    text.push_all(name.as_bytes());
    text.push_all(b"\n");
    output.extend_from_slice(text.as_slice())
}

/// Appends the lines of a request or a drain with this answer.
pub(crate) fn answer_text<A: Allocator>(
    answer: Result<Reports<A>, EngineFault>,
    output: &mut Vec<u8, A>,
) -> Result<(), AllocError>
    ensures lines { OnOk result
        (output.new.items ≡ output.old.items ++ answer_text (Requested answer)) }
    ensures memory { OnOk result (answer ≢ Err EngineFault.Memory) }
{
    match answer {
        Ok(reports) => push_reports(&reports, output),
        Err(EngineFault::Discarded(why)) => push_reason(b"discarded ", why.name(), output),
        Err(EngineFault::Memory) => Err(AllocError),
        Err(fault) => push_reason(b"refused ", fault.name(), output),
    }
}

/// Appends the line of some steps.
pub(crate) fn step_text<A: Allocator>(
    id: u16,
    slice: Slice,
    output: &mut Vec<u8, A>,
) -> Result<(), AllocError>
    ensures { OnOk result
        (output.new.items ≡ output.old.items ++ step_line id slice.count slice.last) }
{
    let mut text = Text::new();
    push_parts!(text; b"step " => id, b" " => slice.count; b" ");
    push_outcome(&mut text, slice.last);
    text.push_all(b"\n");
    output.extend_from_slice(text.as_slice())
}

/// Appends the number of the step that ended, if one did.
fn push_step_end(text: &mut Text, step: Option<u16>)
    requires { length text.old + 11 ≤ 64 }
    ensures items { text.new ≡ text.old ++ step_end_text step }
    ensures len { length text.new ≤ length text.old + 11 }
{
    if let Some(step) = step {
        text.push_all(b" step ");
        text.push_integer(step);
    }
}

/// Appends the line of a round.
pub(crate) fn round_text<A: Allocator>(
    id: u16,
    round: Round,
    output: &mut Vec<u8, A>,
) -> Result<(), AllocError>
    ensures { OnOk result (output.new.items ≡ output.old.items ++ round_line id round) }
{
    let mut text = Text::new();
    push_parts!(text; b"round " => id, b" " => round.count; b" ");
    push_outcome(&mut text, round.last);
    push_step_end(&mut text, round.step);
    text.push_all(b"\n");
    output.extend_from_slice(text.as_slice())
}

/// Appends the line of a `put` command.
pub(crate) fn put_text<A: Allocator>(
    index: u64,
    value: u64,
    answer: Result<(), PutFault>,
    output: &mut Vec<u8, A>,
) -> Result<(), AllocError>
    ensures { OnOk result (output.new.items ≡ output.old.items ++ put_line index value answer) }
{
    let end = match answer {
        Ok(()) => "set",
        Err(fault) => fault.name(),
    };
    let mut text = Text::new();
    push_parts!(text; b"put " => index, b" " => value; b" "; end.as_bytes(); b"\n");
    output.extend_from_slice(text.as_slice())
}

/// Appends the line of a word of the pool.
pub(crate) fn pool_text<A: Allocator>(
    index: u64,
    word: Option<u64>,
    output: &mut Vec<u8, A>,
) -> Result<(), AllocError>
    ensures { OnOk result (output.new.items ≡ output.old.items ++ pool_line index word) }
{
    let mut text = Text::new();
    push_parts!(text; b"pool " => index);
    match word {
        None => text.push_all(b" BadPoolIndex\n"),
        Some(word) => {
            push_spaced_word(&mut text, word);
            text.push_all(b"\n");
        }
    }
    output.extend_from_slice(text.as_slice())
}

/// Appends the line of a journal with this many events.
pub(crate) fn journal_text<A: Allocator>(
    events: u64,
    output: &mut Vec<u8, A>,
) -> Result<(), AllocError>
    ensures { OnOk result (output.new.items ≡ output.old.items ++ journal_line events) }
{
    let mut text = Text::new();
    push_parts!(text; b"journal " => events; b"\n");
    output.extend_from_slice(text.as_slice())
}

/// Appends the line of workers whose work was closed.
pub(crate) fn work_text<A: Allocator>(
    workers: u32,
    output: &mut Vec<u8, A>,
) -> Result<(), AllocError>
    ensures { OnOk result (output.new.items ≡ output.old.items ++ work_line workers) }
{
    let mut text = Text::new();
    push_parts!(text; b"work " => workers; b" closed\n");
    output.extend_from_slice(text.as_slice())
}
