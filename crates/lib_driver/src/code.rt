//! Calls of bpf_canonical, bpf_decode, bpf_listing and bpf_text.

ghost use Rattle.std.specs.Prelude.{◌+◌, ◌*◌, ◌≤◌, length, IsTrue};

use crate::output::Output;
use bpf_canonical::{Mnemonic, Stem, read_mnemonic};
use bpf_decode::{EncodedLine, decode_at, encode};
use bpf_listing::{disassemble, line_text};
use bpf_text::TextLine;
use bpf_types::Line;
use driver_lines::*;

/// The octets of a slot.
const SLOT: usize = 8;

/// The answer of a call.
pub(crate) fn answer(alloc: Global, words: &[&str]) -> Answer {
    calls! { alloc, words;
        "bpf_canonical.read_mnemonic" text: octets -> "its kind" => {
            text_of(alloc, mnemonic_name(some!(alloc, read_mnemonic(&text))))
        };
        "bpf_decode.decode_at" image: octets slot: number -> "instruction, as Rust's `Debug` shows it" => decode(alloc, &image, slot);
        "bpf_decode.encode" image: octets -> "the octets of its first instruction" => spell(alloc, &image);
        "bpf_listing.disassemble" before image: octets -> "text" => {
            append!(alloc, before, Text, out => disassemble(&image, out))
        };
        "bpf_listing.read_line" text: octets -> "the canonical text of what it says" => read_canonical(alloc, "-", &text);
        "bpf_listing.read_line" before text: octets -> "the canonical text of what it says" => read_canonical(alloc, before, &text);
        "bpf_text.read_line" text: octets -> "label, octets of the instruction" => read_line(alloc, &text);
    }
}

/// Whether the code has a slot of this number.
fn has_slot(code: &[u8], slot: usize) -> bool
    ensures { IsTrue result → 8 * slot + 8 ≤ length code.now }
{
    slot < code.len() / SLOT
}

fn decode(alloc: Global, code: &[u8], slot: usize) -> Answer {
    if !has_slot(code, slot) {
        return Err(Fault::Syntax);
    }
    match decode_at(code, slot) {
        Ok(line) => text!(alloc; "Ok", Named(line)),
        Err(fault) => name_of(alloc, fault),
    }
}

/// The instruction that these octets begin with, not decoded.
pub(crate) fn encoding_of(code: &[u8]) -> Result<EncodedLine, Fault> {
    if !has_slot(code, 0) || decode_at(code, 0).is_err() {
        return Err(Fault::Syntax);
    }
    Ok(EncodedLine::at(code, 0))
}

/// The instruction that these octets begin with.
fn line_of(code: &[u8]) -> Result<Line, Fault> {
    Ok(encoding_of(code)?.line())
}

fn spell(alloc: Global, code: &[u8]) -> Answer {
    match line_of(code) {
        Ok(line) => show_spelling(alloc, line),
        Err(fault) => Err(fault),
    }
}

fn show_spelling(alloc: Global, line: Line) -> Answer {
    let slots = encode(line);
    text_of(alloc, Octets(slots.as_slice()))
}

/// Reads a canonical text, and writes the line that it means after the octets.
fn read_canonical(alloc: Global, before: &str, text: &[u8]) -> Answer {
    let line = some!(alloc, bpf_listing::read_line(text));
    append!(alloc, before, Text, out => or_memory(line_text(line, out)))
}

fn mnemonic_name(mnemonic: Mnemonic) -> &'static str {
    match mnemonic {
        Mnemonic::Classed(Stem::Arithmetic(_), _) => "Arithmetic",
        Mnemonic::Classed(Stem::Negate, _) => "Negate",
        Mnemonic::Classed(Stem::MoveExtended, _) => "MoveExtended",
        Mnemonic::Classed(Stem::JumpIf(_), _) => "Jump If",
        Mnemonic::ByteOrder(_) => "ByteOrder",
        Mnemonic::LoadWide => "LoadWide",
        Mnemonic::Load(_)
        | Mnemonic::LoadExtended(_)
        | Mnemonic::Store(_)
        | Mnemonic::StoreImmediate(_) => "Access",
        Mnemonic::Jump => "Jump Short",
        Mnemonic::LongJump => "Jump Long",
        Mnemonic::Call => "Jump Call",
        Mnemonic::Exit => "Jump Exit",
    }
}

/// The label of a line, and the octets of its instruction; `-` for one that it does not have.
fn read_line(alloc: Global, text: &[u8]) -> Answer {
    match bpf_text::read_line(text) {
        Ok(TextLine { label, body }) => {
            let label = Text(label.unwrap_or(&[]));
            match body {
                Some(statement) => {
                    text!(alloc; "Ok", label, Octets(encode(statement.line).as_slice()))
                }
                None => text!(alloc; "Ok", label, "-"),
            }
        }
        Err(fault) => name_of(alloc, fault),
    }
}
