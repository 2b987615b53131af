//! What is printed of the debugger's commands.

ghost use Rattle.std.specs.Prelude.{◌≡◌, ◌≤◌, ◌++◌, length, Ok, Err, OnOk};
ghost use Rattle.ocp_console.specs.Texts.{ending_text, place_line, switch_line, memory_line};

use crate::text::{Text, push_octets, push_parts};
use ocp_debug::DebugFault;
use std::alloc::{AllocError, Allocator};

/// This word if a command was done, else the name of its refusal.
fn ending(word: &'static str, answer: Result<(), DebugFault>) -> &'static str
    ensures { result.now ≡ ending_text word.now answer }
{
    match answer {
        Ok(()) => word,
        Err(fault) => fault.name(),
    }
}

/// Appends the line of a command at a place: it begins with `front`, and has this word if it was
/// done.
pub(crate) fn place_text<A: Allocator>(
    front: &[u8],
    id: u16,
    place: u16,
    word: &'static str,
    answer: Result<(), DebugFault>,
    output: &mut Vec<u8, A>,
) -> Result<(), AllocError>
    requires front { length front.now ≤ 8 }
    requires word { length word.now ≤ 16 }
    ensures { OnOk result
        (output.new.items ≡ output.old.items
        ++ place_line front.now id place (ending_text word.now answer)) }
{
    let end = ending(word, answer).as_bytes();
    let mut text = Text::new();
    push_parts!(text; front => id, b" " => place; b" "; end; b"\n");
    output.extend_from_slice(text.as_slice())
}

/// Appends the line of a `trace` command that sets or clears a trace flag.
pub(crate) fn switch_text<A: Allocator>(
    id: u16,
    on: bool,
    answer: Result<(), DebugFault>,
    output: &mut Vec<u8, A>,
) -> Result<(), AllocError>
    ensures { OnOk result (output.new.items ≡ output.old.items ++ switch_line id on answer) }
{
    let word = ending(if on { "on" } else { "off" }, answer);
    let mut text = Text::new();
    push_parts!(text; b"trace " => id; b" "; word.as_bytes(); b"\n");
    output.extend_from_slice(text.as_slice())
}

/// Appends the line of a procedure's octets from an address on.
pub(crate) fn octets_text<A: Allocator>(
    id: u16,
    address: u64,
    octets: &[u8],
    output: &mut Vec<u8, A>,
) -> Result<(), AllocError>
    ensures { OnOk result
        (output.new.items ≡ output.old.items ++ memory_line id address (Ok octets.now)) }
{
    let mut text = Text::new();
    push_parts!(text; b"mem " => id; b" 0x");
    text.push_hex(address);
    text.push_all(b" ");
    output.extend_from_slice(text.as_slice())?;
    push_octets(octets, output)
}

/// Appends the line of octets that cannot be read.
pub(crate) fn no_octets_text<A: Allocator>(
    id: u16,
    address: u64,
    fault: DebugFault,
    output: &mut Vec<u8, A>,
) -> Result<(), AllocError>
    ensures { OnOk result
        (output.new.items ≡ output.old.items ++ memory_line id address (Err fault)) }
{
    let mut text = Text::new();
    push_parts!(text; b"mem " => id; b" "; fault.name().as_bytes(); b"\n");
    output.extend_from_slice(text.as_slice())
}
