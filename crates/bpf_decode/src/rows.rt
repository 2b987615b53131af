//! The rows of the instruction table: the one instruction that the fields of a slot spell.
ghost use Rattle.std.specs.Prelude.{◌≡◌};
ghost use Rattle.bpf_decode.specs.Mirror.Rows.{operand_at, arithmetic_at, jump_at, load_at, store_at, short_at};

use crate::codes::{
    ALU, ALU64, CALL, END, EXIT, JA, JA32, JMP, JMP32, LDX, MEM, MEMSX, MOV, NEG, ST, STX, X,
    comparison_of, operation_of, order_of, signed_size_of, size_of,
};
use bpf_types::{Extension, Fields, Line, Operand, Reg, SwapWidth, Width};

/// The operand, by bit 3 of the opcode; the field that it is not read from is zero.
#[inline(always)]
fn operand_of(fields: &Fields) -> Option<Operand>
    ensures { result ≡ operand_at fields.now }
{
    let Fields { src, imm, .. } = *fields;
    if fields.opcode % 16 < X {
        (src == Reg::zero()).then_some(Operand::Immediate(imm))
    } else {
        (imm == 0).then_some(Operand::Register(src))
    }
}

/// The rows of the classes ALU and ALU64.
#[inline(always)]
#[rattlefmt::skip]
fn arithmetic_of(width: Width, fields: &Fields) -> Option<Line>
    ensures { result ≡ arithmetic_at width fields.now }
{
    let Fields { opcode, dst, src, offset, imm } = *fields;
    let is_immediate = opcode % 16 < X;
    let r0 = Reg::zero();
    match opcode / 16 {
        NEG if is_immediate && src == r0 && offset == 0 && imm == 0 => {
            Some(Line::Negate { width, dst })
        }
        MOV if !is_immediate && offset != 0 && imm == 0 => Some(Line::MoveExtended {
            extension: Extension::new(width, u64::try_from(offset).ok()?)?,
            dst,
            src,
        }),
        END if src == r0 && offset == 0 => Some(Line::ByteOrder {
            order: order_of(opcode)?,
            width: SwapWidth::new(u64::try_from(imm).ok()?)?,
            dst,
        }),
        code => Some(Line::Arithmetic {
            width,
            operation: operation_of(code, offset)?,
            dst,
            operand: operand_of(fields)?,
        }),
    }
}

/// The rows of the classes JMP and JMP32.
#[inline(always)]
#[rattlefmt::skip]
fn jump_of(width: Width, fields: &Fields) -> Option<Line>
    ensures { result ≡ jump_at width fields.now }
{
    let Fields { opcode, dst, src, offset, imm } = *fields;
    let r0 = Reg::zero();
    match opcode {
        JA if dst == r0 && src == r0 && imm == 0 => Some(Line::Jump { distance: offset }),
        JA32 if dst == r0 && src == r0 && offset == 0 => { Some(Line::LongJump { distance: imm }) }
        CALL if dst == r0 && src == r0 && offset == 0 => Some(Line::Call { number: imm }),
        CALL if dst == r0 && src == Reg::one() && offset == 0 => {
            Some(Line::CallLocal { distance: imm })
        }
        EXIT if dst == r0 && src == r0 && offset == 0 && imm == 0 => Some(Line::Exit),
        _ => Some(Line::JumpIf {
            width,
            comparison: comparison_of(opcode / 16)?,
            dst,
            operand: operand_of(fields)?,
            distance: offset,
        }),
    }
}

/// The rows of the class LDX.
#[inline(always)]
fn load_of(fields: &Fields) -> Option<Line>
    ensures { result ≡ load_at fields.now }
{
    let Fields {
        opcode,
        dst,
        src: base,
        offset,
        imm,
    } = *fields;
    let size = opcode / 8 % 4;
    match opcode / 32 {
        MEM if imm == 0 => Some(Line::Load {
            size: size_of(size)?,
            dst,
            base,
            offset,
        }),
        MEMSX if imm == 0 => Some(Line::LoadExtended {
            size: signed_size_of(size)?,
            dst,
            base,
            offset,
        }),
        _ => None,
    }
}

/// The rows of the classes ST, whose value is the imm field, and STX, whose value is a register.
#[inline(always)]
fn store_of(fields: &Fields) -> Option<Line>
    ensures { result ≡ store_at fields.now }
{
    let Fields {
        opcode,
        dst: base,
        src,
        offset,
        imm,
    } = *fields;
    if opcode / 32 != MEM {
        return None;
    }
    let size = size_of(opcode / 8 % 4)?;
    match opcode % 8 {
        ST if src == Reg::zero() => Some(Line::StoreImmediate {
            size,
            base,
            offset,
            value: imm,
        }),
        STX if imm == 0 => Some(Line::Store {
            size,
            base,
            offset,
            src,
        }),
        _ => None,
    }
}

/// The instruction of one slot that these fields spell, by its class (RFC 9669, section 3.3): each
/// field that its row does not name is zero.
#[inline(always)]
pub(crate) fn short_of(fields: &Fields) -> Option<Line>
    ensures { result ≡ short_at fields.now }
{
    match fields.opcode % 8 {
        LDX => load_of(fields),
        ST | STX => store_of(fields),
        ALU => arithmetic_of(Width::W32, fields),
        JMP => jump_of(Width::W64, fields),
        JMP32 => jump_of(Width::W32, fields),
        ALU64 => arithmetic_of(Width::W64, fields),
        _ => None,
    }
}
