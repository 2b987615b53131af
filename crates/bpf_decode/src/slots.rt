//! Instructions among the octets of an image.
ghost use Rattle.std.specs.Prelude.{◌≡◌, ◌≤◌, ◌+◌, ◌*◌, length, drop, IfSome, Result, Err, true, None, slice_index};
ghost use Rattle.bpf_decode.specs.declared.fault.DecodeFault.{DecodeFault};
ghost use Rattle.bpf_decode.specs.Mirror.Codes.{is_opcode};
ghost use Rattle.bpf_types.specs.declared.line.Line.{Line};
ghost use Rattle.bpf_decode.specs.Mirror.Decoding.{high_in, wide_at, line_in, fields_in, decode_result};
ghost use Rattle.bpf_decode.specs.Faults.{Decodes};

use crate::codes::{LDDW, is_opcode};
use crate::fault::DecodeFault;
use crate::rows::short_of;
use bpf_types::{Fields, Line, Reg, from_halves};

/// The fields of the first slot, unless a register is not there.
fn fields_at(octets: &[u8]) -> Option<Fields>
    requires { 8 ≤ length octets.now }
    ensures exact { result ≡ fields_in octets.now }
    ensures opcode { IfSome result (λ fields. fields.opcode ≡ slice_index octets.now 0) }
{
    let dst = Reg::new(octets[1] % 16)?;
    let src = Reg::new(octets[1] / 16)?;
    Some(Fields {
        opcode: octets[0],
        dst,
        src,
        offset: i16::from_le_bytes([octets[2], octets[3]]),
        imm: i32::from_le_bytes([octets[4], octets[5], octets[6], octets[7]]),
    })
}

/// The upper half of a wide load's value, if the rest of the second slot is zero.
fn high_at(octets: &[u8]) -> Option<i32>
    requires { 16 ≤ length octets.now }
    ensures { result ≡ high_in octets.now }
{
    if octets[8] == 0 && octets[9] == 0 && octets[10] == 0 && octets[11] == 0 {
        Some(i32::from_le_bytes([octets[12], octets[13], octets[14], octets[15]]))
    } else {
        None
    }
}

/// A wide load.
fn wide_of(fields: Fields, octets: &[u8]) -> Option<Line>
    requires long { 16 ≤ length octets.now }
    ensures { result ≡ wide_at fields octets.now }
{
    if fields.src != Reg::zero() || fields.offset != 0 {
        return None;
    }
    let high = high_at(octets)?;
    Some(Line::LoadWide {
        dst: fields.dst,
        value: from_halves(fields.imm.cast_unsigned(), high.cast_unsigned()),
    })
}

/// The instruction that the octets begin with, if any.
#[inline(always)]
fn line_in(octets: &[u8]) -> Option<Line>
    requires short { 8 ≤ length octets.now }
    requires long { slice_index octets.now 0 ≡ 0x18 → 16 ≤ length octets.now }
    ensures exact { result ≡ line_in octets.now }
    ensures known { IfSome result (λ line. is_opcode (slice_index octets.now 0) ≡ true) }
{
    let fields = fields_at(octets)?;
    if fields.opcode == LDDW {
        wide_of(fields, octets)
    } else {
        short_of(&fields)
    }
}

/// The first fault of octets that begin with no instruction.
#[inline(never)]
#[cold]
#[tactic(auto, unfolding(crate::specs::Mirror::Decoding::decode_result))]
fn fault_in(octets: &[u8]) -> DecodeFault
    requires short { 8 ≤ length octets.now }
    requires long { slice_index octets.now 0 ≡ 0x18 → 16 ≤ length octets.now }
    requires none { line_in octets.now ≡ None }
    ensures { decode_result octets.now ≡ Err result }
{
    if !is_opcode(octets[0]) {
        DecodeFault::UnknownOpcode
    } else if fields_at(octets).is_none() {
        DecodeFault::BadRegister
    } else {
        DecodeFault::ReservedField
    }
}

/// The instruction that the octets begin with, or their first fault.
#[inline(always)]
#[tactic(auto, unfolding(crate::specs::Mirror::Decoding::decode_result))]
pub(crate) fn decode(octets: &[u8]) -> Result<Line, DecodeFault>
    requires { 8 ≤ length octets.now }
    ensures { result ≡ decode_result octets.now }
{
    if octets[0] == LDDW && octets.len() < 16 {
        return Err(DecodeFault::CutWide);
    }
    match line_in(octets) {
        Some(line) if line.writes_frame_pointer() => Err(DecodeFault::WritesFramePointer),
        Some(line) => Ok(line),
        None => Err(fault_in(octets)),
    }
}

/// The instruction at a slot, counted in slots of 8 octets (RFC 9669, section 3).
///
/// Refused, in this order: `CutWide`, `UnknownOpcode`, `BadRegister`, `ReservedField`,
/// `WritesFramePointer`.
///
/// The clauses `decoded` and `only` state the answer; `exact` states it as a function.
#[inline(always)]
pub fn decode_at(code: &[u8], slot: usize) -> Result<Line, DecodeFault>
    requires { 8 * slot + 8 ≤ length code.now }
    ensures decoded { Decodes (drop (8 * slot) code.now) result }
    ensures only { (other : Result Line DecodeFault) → Decodes (drop (8 * slot) code.now) other →
        other ≡ result }
    ensures exact { result ≡ decode_result (drop (8 * slot) code.now) }
{
    decode(&code[8 * slot..])
}
