//! The octets of an instruction.
ghost use Rattle.std.specs.Prelude.{◌≡◌, ◌≤◌, ℕ, List, take};
ghost use Rattle.bpf_types.specs.Line.{first_slot, spelling, Spells, slot_octets};
ghost use Rattle.bpf_decode.specs.Mirror.Codes.{slot_with};

use crate::codes::{
    CALL, EXIT, JA, JA32, LDDW, LDX, MEM, MEMSX, MOV, NEG, ST, STX, X, class_of_arithmetic,
    class_of_jumps, code_of_comparison, code_of_operation, code_of_signed_size, code_of_size,
    opcode_of_order,
};
use bpf_types::{Fields, Line, Operand, Reg, Width, high_half, low_half};
use std::marker::Model;

/// The octets of one instruction, 8 or 16. A contract sees the list of them.
#[derive(Drop)]
pub struct Slots {
    octets: [u8; 16],
    length: usize,
}

impl Model for Slots {
    ghost Value = { List ℕ };

    ghost view = { λ s. take s.length s.octets };

    ghost invariant = { λ s. s.length ≤ 16 };
}

impl Slots {
    /// The octets, the first slot first.
    #[inline]
    pub fn as_slice(&self) -> &[u8]
        ensures { result.now ≡ self.now }
    {
        &self.octets[..self.length]
    }
}

/// The octets of one slot.
fn octets_of(fields: Fields) -> [u8; 8]
    ensures { result ≡ slot_octets fields }
{
    let [low, high] = fields.offset.to_le_bytes();
    let [a, b, c, d] = fields.imm.to_le_bytes();
    let registers = fields.dst.number() + 16 * fields.src.number();
    [fields.opcode, registers, low, high, a, b, c, d]
}

/// The fields of a slot, in their order.
#[inline(always)]
fn row(opcode: u8, dst: Reg, src: Reg, offset: i16, imm: i32) -> Fields
    ensures { result ≡ slot_with opcode dst src offset imm }
{
    Fields {
        opcode,
        dst,
        src,
        offset,
        imm,
    }
}

/// The fields of the first slot: the instruction table (RFC 9669, sections 3 to 5).
#[inline(always)]
#[rattlefmt::skip]
fn first_fields(line: &Line) -> Fields
    ensures { result ≡ first_slot line.now }
{
    let r0 = Reg::zero();
    match *line {
        Line::Arithmetic { width, operation, dst, operand } => {
            let (code, offset) = code_of_operation(operation);
            let opcode = code * 16 + class_of_arithmetic(width);
            match operand {
                Operand::Immediate(imm) => row(opcode, dst, r0, offset, imm),
                Operand::Register(src) => row(opcode + X, dst, src, offset, 0),
            }
        }
        Line::Negate { width, dst } => row(NEG * 16 + class_of_arithmetic(width), dst, r0, 0, 0),
        Line::MoveExtended { extension, dst, src } => {
            let opcode = MOV * 16 + X + class_of_arithmetic(extension.width());
            row(opcode, dst, src, i16::from(extension.bits()), 0)
        }
        Line::ByteOrder { order, width, dst } => {
            let bits = i32::from(width.bits());
            row(opcode_of_order(order), dst, r0, 0, bits)
        }
        Line::Jump { distance } => row(JA, r0, r0, distance, 0),
        Line::LongJump { distance } => row(JA32, r0, r0, 0, distance),
        Line::JumpIf { width, comparison, dst, operand, distance } => {
            let opcode = code_of_comparison(comparison) * 16 + class_of_jumps(width);
            match operand {
                Operand::Immediate(imm) => row(opcode, dst, r0, distance, imm),
                Operand::Register(src) => row(opcode + X, dst, src, distance, 0),
            }
        }
        Line::Call { number } => row(CALL, r0, r0, 0, number),
        Line::CallLocal { distance } => row(CALL, r0, Reg::one(), 0, distance),
        Line::Exit => row(EXIT, r0, r0, 0, 0),
        Line::LoadWide { dst, value } => row(LDDW, dst, r0, 0, low_half(value).cast_signed()),
        Line::Load { size, dst, base, offset } => {
            row(MEM * 32 + LDX + 8 * code_of_size(size), dst, base, offset, 0)
        }
        Line::LoadExtended { size, dst, base, offset } => {
            row(MEMSX * 32 + LDX + 8 * code_of_signed_size(size), dst, base, offset, 0)
        }
        Line::StoreImmediate { size, base, offset, value } => {
            row(MEM * 32 + ST + 8 * code_of_size(size), base, r0, offset, value)
        }
        Line::Store { size, base, offset, src } => {
            row(MEM * 32 + STX + 8 * code_of_size(size), base, src, offset, 0)
        }
    }
}

/// The octets that spell an instruction (RFC 9669, section 3): 16 for a wide load, 8 for any other.
pub fn encode(line: Line) -> Slots
    ensures spelling { result ≡ spelling line }
    ensures spelled { Spells result line }
{
    let mut octets = [0; 16];
    octets[..8].copy_from_slice(&octets_of(first_fields(&line)));
    match line {
        Line::LoadWide { value, .. } => {
            let r0 = Reg::zero();
            let second = row(0, r0, r0, 0, high_half(value).cast_signed());
            octets[8..].copy_from_slice(&octets_of(second));
            Slots { octets, length: 16 }
        }
        _ => Slots { octets, length: 8 },
    }
}
