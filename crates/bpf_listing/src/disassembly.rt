//! The listing of an image.
ghost use Rattle.std.specs.Prelude.{◌≡◌, ◌≢◌, ◌≤◌, ◌<◌, ◌+◌, ◌%◌, ◌++◌, ◌↔◌, length, [], IfOk, IfErr, OnOk, OnErr, vec_capacity, List, IsTrue, IsFalse, MatchResult};
ghost use Rattle.std.specs.Result.{IsErrOf};
ghost use Rattle.bpf_types.specs.declared.line.Line.{Line};
ghost use Rattle.bpf_decode.specs.Images.{IsImageOf, NoneWritesFramePointer};
ghost use Rattle.bpf_canonical.specs.Canonical.{listing};
ghost use Rattle.bpf_listing.specs.Listing.{IsListed, IsRefusal};
ghost use Rattle.bpf_listing.specs.Mirror.Written.{Continues, IsFaultOf, IsFlushed, IsWritten};

use bpf_canonical::{MAX_TEXT_LENGTH, Text};
use bpf_decode::laws::{faults_of_images_are_unique, images_are_unique, images_are_whole_slots};
use bpf_decode::{DecodeFault, decode_at};
use core::mem::replace_with;
use std::alloc::Allocator;
use thiserror::Error;

/// Why an image has no listing, in the order in which faults are looked for.
#[derive(Clone, Copy, PartialEq, Eq, Debug, Error)]
pub enum DisassembleFault {
    #[error("the length is no multiple of 8")]
    Ragged,
    /// The octets from this slot on begin with no instruction that may be loaded. A slot has 8
    /// octets, and the first is slot 0.
    #[error("slot {1}: {0}")]
    Decode(DecodeFault, usize),
    #[error("out of memory")]
    Memory,
}

/// The most octets of lines that are gathered before they are appended: some eighty lines, so that
/// the vector is rarely asked for room.
const BUFFER_LENGTH: usize = 1024;

/// The most octets of a line, with its newline.
const MAX_LINE_LENGTH: usize = MAX_TEXT_LENGTH + 1;

/// The vector with a text after its octets; there must be room for it. Since it is taken by value,
/// its length stays in a register, and many octets are copied at a time.
fn with_text<A: Allocator>(mut out: Vec<u8, A>, text: &[u8]) -> (Vec<u8, A>, ())
    requires { length out.items + length text.now ≤ vec_capacity out }
    ensures items { result.0.items ≡ out.items ++ text.now }
    ensures capacity { vec_capacity result.0 ≡ vec_capacity out }
{
    for octet in text {
        out.push_reserved(*octet);
    }
    (out, ())
}

/// Appends a text if there is room for it, and otherwise does nothing.
fn push_within<A: Allocator>(out: &mut Vec<u8, A>, text: &[u8])
    ensures fits { length out.old.items + length text.now ≤ vec_capacity out.old →
        out.new.items ≡ out.old.items ++ text.now }
    ensures prefix { Continues out.old.items out.new.items }
    ensures capacity { vec_capacity out.new ≡ vec_capacity out.old }
{
    if out.capacity() - out.len() < text.len() {
        return;
    }
    replace_with(out, text, with_text);
}

/// Appends the lines of the buffer if there is room for all of them, and returns how many
/// octets they have.
fn flush<A: Allocator>(buffer: &mut Text<BUFFER_LENGTH>, out: &mut Vec<u8, A>) -> usize
    ensures empty { buffer.new ≡ [] }
    ensures flushed { IsFlushed (vec_capacity out.old) out.old.items buffer.old
        out.new.items buffer.new result }
    ensures capacity { vec_capacity out.new ≡ vec_capacity out.old }
{
    let len = buffer.as_slice().len();
    push_within(out, buffer.as_slice());
    buffer.clear();
    len
}

/// Makes room for one more line in the buffer, and returns how many octets were flushed for it.
fn make_room<A: Allocator>(buffer: &mut Text<BUFFER_LENGTH>, out: &mut Vec<u8, A>) -> usize
    ensures room { length buffer.new + MAX_LINE_LENGTH ≤ BUFFER_LENGTH }
    ensures flushed { IsFlushed (vec_capacity out.old) out.old.items buffer.old
        out.new.items buffer.new result }
    ensures capacity { vec_capacity out.new ≡ vec_capacity out.old }
{
    if buffer.as_slice().len() + MAX_LINE_LENGTH <= BUFFER_LENGTH {
        return 0;
    }
    flush(buffer, out)
}

/// Appends the lines of an image if there is room for all of them, and returns how many octets
/// they have. If there is none, or there is a fault, some lines may follow the octets that were
/// there; the caller cuts them off.
fn write_lines<A: Allocator>(code: &[u8], out: &mut Vec<u8, A>) -> Result<u128, DisassembleFault>
    requires { length code.now % 8 ≡ 0 }
    ensures ok { IfOk result
        (IsWritten code.now (vec_capacity out.old) out.old.items out.new.items) }
    ensures prefix { Continues out.old.items out.new.items }
    ensures fault { IfErr result (IsFaultOf code.now) }
    ensures capacity { vec_capacity out.new ≡ vec_capacity out.old }
{
    let slots = code.len() / 8;
    let mut buffer = Text::new();
    let mut slot = 0;
    let mut len = 0;
    while slot < slots {
        match decode_at(code, slot) {
            Ok(line) => {
                len += make_room(&mut buffer, out) as u128;
                buffer.push_line(&line);
                buffer.push_all(b"\n");
                slot += usize::from(line.slots());
            }
            Err(fault) => return Err(DisassembleFault::Decode(fault, slot)),
        }
    }
    Ok(len + flush(&mut buffer, out) as u128)
}

/// Whether there is room for `len` more octets. Room is made if memory for it is available.
fn reserve_room<A: Allocator>(out: &mut Vec<u8, A>, len: u128) -> bool
    ensures items { out.new.items ≡ out.old.items }
    ensures room { IsTrue result → length out.new.items + len ≤ vec_capacity out.new }
    ensures full { IsFalse result → vec_capacity out.old < length out.old.items + len }
    ensures same_capacity { IsFalse result → vec_capacity out.new ≡ vec_capacity out.old }
    ensures capacity { vec_capacity out.old ≤ vec_capacity out.new }
{
    // Kept for the proof: a capacity that was read is known to be in its range.
    let _capacity = out.capacity();
    match usize::try_from(len) {
        Ok(len) => out.reserve(len).is_ok(),
        Err(_) => false,
    }
}

/// Appends the listing of an image to `out`: the canonical text of each instruction, with a
/// newline. The empty image has the empty listing.
///
/// Refused with `Ragged` if the length of `code` is no multiple of 8, then with `Decode` and the
/// first fault and its slot, then with `Memory`, only if the listing does not fit into the
/// capacity that `out` has. A refusal leaves `out` and its capacity unchanged, and the capacity
/// never shrinks. The time is linear in the image. If the capacity has room for the listing, the
/// image is decoded and written once.
pub fn disassemble<A: Allocator>(code: &[u8], out: &mut Vec<u8, A>) -> Result<(), DisassembleFault>
    ensures ok { OnOk result (IsListed code.now out.old.items out.new.items) }
    ensures only { (lines : List Line) → IsImageOf code.now lines → NoneWritesFramePointer lines →
        MatchResult result (λ _. out.new.items ≡ out.old.items ++ listing lines)
        (λ e. e ≡ DisassembleFault.Memory) }
    ensures ragged { IsErrOf result DisassembleFault.Ragged ↔ (length code.now % 8 ≢ 0) }
    ensures refused { IfErr result
        (IsRefusal code.now (vec_capacity out.old) (length out.old.items)) }
    ensures err { OnErr result (out.new.items ≡ out.old.items) }
    ensures same_capacity { OnErr result (vec_capacity out.new ≡ vec_capacity out.old) }
    ensures capacity { vec_capacity out.old ≤ vec_capacity out.new }
{
    images_are_unique();
    images_are_whole_slots();
    faults_of_images_are_unique();
    if code.len() % 8 != 0 {
        return Err(DisassembleFault::Ragged);
    }
    let before = out.len();
    let room = (out.capacity() - before) as u128;
    let written = write_lines(code, out);
    if matches!(written, Ok(len) if len <= room) {
        return Ok(());
    }
    out.truncate(before);
    if !reserve_room(out, written?) {
        return Err(DisassembleFault::Memory);
    }
    write_lines(code, out).unwrap();
    Ok(())
}
