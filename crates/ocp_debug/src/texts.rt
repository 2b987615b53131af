//! What is printed of procedures and of trace records.
ghost use Rattle.std.specs.Prelude.{◌≡◌, ◌≤◌, ◌<◌, ◌+◌, ◌*◌, ◌++◌, length, codes};
ghost use Rattle.std.specs.Fmt.{decimal};
ghost use Rattle.ocp_debug.specs.Clauses.{Appends, register_line, register_lines, trace_line, view_line, view_lines, words_text};

use crate::text::{
    TEXT_OCTETS, Text, append_to, push_cause, push_outcome, push_pending, push_spaced_word,
    push_status,
};
use crate::{Trace, View};
use bpf_moves::Registers;
use std::alloc::{AllocError, Allocator};

/// Appends the line of a procedure's status.
fn push_head(text: &mut Text, id: u16, view: &View)
    requires { length text.old + 90 ≤ TEXT_OCTETS }
    ensures items { text.new ≡ text.old ++ view_line id view.now }
    ensures len { length text.new ≤ length text.old + 90 }
{
    text.push_all(b"view ");
    text.push_integer(id);
    text.push_all(b" ");
    push_status(text, view.status);
    text.push_all(b" ");
    push_cause(text, view.cause);
    text.push_all(b" place ");
    text.push_integer(view.place);
    text.push_all(b" depth ");
    text.push_integer(view.depth);
    text.push_all(b" pending ");
    push_pending(text, view.pending);
    text.push_all(b"\n");
}

/// Appends the name of a register.
fn push_name(text: &mut Text, index: u8)
    requires { length text.old + 4 ≤ TEXT_OCTETS }
    ensures items { text.new ≡ text.old ++ codes "r" ++ decimal index }
    ensures len { length text.new ≤ length text.old + 4 }
{
    if index < 10 {
        text.push_all(&[b'r', b'0' + index]);
    } else {
        text.push_all(b"r");
        text.push_integer(index);
    }
}

/// Appends the line of a register.
fn push_register(text: &mut Text, index: u8, register: u64)
    requires { length text.old + 22 ≤ TEXT_OCTETS }
    ensures items { text.new ≡ text.old ++ register_line index register }
    ensures len { length text.new ≤ length text.old + 22 }
{
    push_name(text, index);
    push_spaced_word(text, register);
    text.push_all(b"\n");
}

/// Appends the lines of the registers.
fn push_registers(text: &mut Text, registers: &Registers)
    requires { length text.old + 242 ≤ TEXT_OCTETS }
    ensures { text.new ≡ text.old ++ register_lines 0 registers.now }
{
    let mut index = 0;
    for register in registers {
        push_register(text, index, *register);
        index += 1;
    }
}

/// Appends the lines of a view: the status and the eleven registers, or that the procedure is not
/// loaded.
///
/// It is refused only for memory, and only if the text does not fit into the capacity that `output`
/// has. Then `output` stays as it was.
pub fn view_text<B: Allocator>(
    id: u16,
    view: Option<View>,
    output: &mut Vec<u8, B>,
) -> Result<(), AllocError>
    ensures { Appends (view_lines id view) output.old output.new result }
{
    let mut text = Text::new();
    match &view {
        Some(view) => {
            push_head(&mut text, id, view);
            push_registers(&mut text, &view.registers);
        }
        None => {
            text.push_all(b"view ");
            text.push_integer(id);
            text.push_all(b" NotLoaded\n");
        }
    }
    append_to(&text, output)
}

/// The line of a trace record.
pub(crate) fn line_of(trace: &Trace) -> Text
    ensures items { result ≡ trace_line trace.now }
    ensures len { length result ≤ 266 }
{
    let mut text = Text::new();
    text.push_all(b"trace ");
    text.push_integer(trace.id);
    text.push_all(b" ");
    text.push_integer(trace.place);
    text.push_all(b" ");
    push_outcome(&mut text, trace.outcome);
    push_words(&mut text, &trace.registers);
    text.push_all(b" ");
    text.push_all(bpf_canonical::text_of(&trace.line.line()).as_slice());
    text.push_all(b"\n");
    text
}

/// Appends words, each after a space.
fn push_words(text: &mut Text, words: &[u64])
    requires { length text.old + 17 * length words.now ≤ TEXT_OCTETS }
    ensures items { text.new ≡ text.old ++ words_text words.now }
    ensures len { length text.new ≤ length text.old + 17 * length words.now }
{
    for word in words {
        push_spaced_word(text, *word);
    }
}

/// Appends the line of a trace record.
///
/// It is refused only for memory, and only if the text does not fit into the capacity that `output`
/// has. Then `output` stays as it was.
pub fn trace_text<B: Allocator>(trace: &Trace, output: &mut Vec<u8, B>) -> Result<(), AllocError>
    ensures { Appends (trace_line trace.now) output.old output.new result }
{
    append_to(&line_of(trace), output)
}
