//! Instructions as text: their one spelling.
ghost use Rattle.std.specs.Prelude.{◌≡◌, ◌++◌, ◌≤◌, ◌<◌, ◌+◌, codes, length, OnOk, OnErr, vec_capacity};
ghost use Rattle.bpf_canonical.specs.Mirror.Rooms.{operands_room};
ghost use Rattle.bpf_canonical.specs.Canonical.{canonical, operands_text, operand_text, place_text, register};

use crate::mnemonic::mnemonic_of;
use crate::text::{MAX_TEXT_LENGTH, Text};
use bpf_types::{Line, Operand, Reg};
use std::alloc::{AllocError, Allocator};

impl<const ROOM: usize> Text<ROOM> {
    /// Appends a register: `r0` to `r10`.
    fn push_register(&mut self, reg: Reg)
        requires { length self.old + 3 ≤ ROOM }
        ensures items { self.new ≡ self.old ++ register reg }
        ensures len { length self.new ≤ length self.old + 3 }
    {
        let number = reg.number();
        if number < 10 {
            self.push_all(&[b'r', b'0' + number]);
        } else {
            self.push_all(b"r10");
        }
    }

    /// Appends the second operand.
    fn push_operand(&mut self, operand: Operand)
        requires { length self.old + 11 ≤ ROOM }
        ensures items { self.new ≡ self.old ++ operand_text operand }
        ensures len { length self.new ≤ length self.old + 11 }
    {
        match operand {
            Operand::Immediate(imm) => self.push_signed(imm),
            Operand::Register(src) => self.push_register(src),
        }
    }

    /// Appends an operand in memory.
    fn push_place(&mut self, base: Reg, offset: i16)
        requires { length self.old + 11 ≤ ROOM }
        ensures items { self.new ≡ self.old ++ place_text base offset }
        ensures len { length self.new ≤ length self.old + 11 }
    {
        self.push_all(b"[");
        self.push_register(base);
        self.push_short_distance(offset);
        self.push_all(b"]");
    }

    /// Appends a register as the first of several operands.
    #[inline(always)]
    fn push_first_register(&mut self, reg: Reg)
        requires { length self.old + 6 ≤ ROOM }
        ensures items { self.new ≡ self.old ++ (codes " " ++ register reg ++ codes ", ") }
        ensures len { length self.new ≤ length self.old + 6 }
    {
        self.push_all(b" ");
        self.push_register(reg);
        self.push_all(b", ");
    }

    /// Appends an operand in memory as the first of two operands.
    #[inline(always)]
    fn push_first_place(&mut self, base: Reg, offset: i16)
        requires { length self.old + 14 ≤ ROOM }
        ensures items { self.new ≡ self.old ++ (codes " " ++ place_text base offset ++ codes ", ") }
        ensures len { length self.new ≤ length self.old + 14 }
    {
        self.push_all(b" ");
        self.push_place(base, offset);
        self.push_all(b", ");
    }

    /// Appends the operands of a load.
    #[inline(always)]
    fn push_load(&mut self, dst: Reg, base: Reg, offset: i16)
        requires { length self.old + 17 ≤ ROOM }
        ensures items { self.new ≡ self.old
            ++ (codes " " ++ register dst ++ codes ", " ++ place_text base offset) }
        ensures len { length self.new ≤ length self.old + 17 }
    {
        self.push_first_register(dst);
        self.push_place(base, offset);
    }

    /// Appends the operands of an instruction, after a space.
    #[tactic(auto, using(crate::proofs::Rooms::room_least, crate::proofs::Rooms::few_digits, crate::proofs::Rooms::long_distance))]
    fn push_operands(&mut self, line: &Line)
        requires { length self.old + operands_room line.now ≤ ROOM }
        ensures items { self.new ≡ self.old ++ operands_text line.now }
        ensures len { length self.new ≤ length self.old + operands_room line.now }
    {
        match *line {
            Line::Arithmetic { dst, operand, .. } => {
                self.push_first_register(dst);
                self.push_operand(operand);
            }
            Line::Negate { dst, .. } => {
                self.push_all(b" ");
                self.push_register(dst);
            }
            Line::MoveExtended {
                extension,
                dst,
                src,
            } => {
                self.push_first_register(dst);
                self.push_register(src);
                self.push_all(b", ");
                self.push_number(u32::from(extension.bits()));
            }
            Line::ByteOrder { width, dst, .. } => {
                self.push_first_register(dst);
                self.push_number(u32::from(width.bits()));
            }
            Line::LoadWide { dst, value } => {
                self.push_first_register(dst);
                self.push_all(b"0x");
                self.push_hex(value);
            }
            Line::Load {
                dst,
                base,
                offset,
                ..
            } => self.push_load(dst, base, offset),
            Line::LoadExtended {
                dst,
                base,
                offset,
                ..
            } => self.push_load(dst, base, offset),
            Line::StoreImmediate {
                base,
                offset,
                value,
                ..
            } => {
                self.push_first_place(base, offset);
                self.push_signed(value);
            }
            Line::Store {
                base,
                offset,
                src,
                ..
            } => {
                self.push_first_place(base, offset);
                self.push_register(src);
            }
            Line::JumpIf {
                dst,
                operand,
                distance,
                ..
            } => {
                self.push_first_register(dst);
                self.push_operand(operand);
                self.push_all(b", ");
                self.push_short_distance(distance);
            }
            Line::Jump { distance } => {
                self.push_all(b" ");
                self.push_short_distance(distance);
            }
            Line::LongJump { distance } => {
                self.push_all(b" ");
                self.push_distance(distance);
            }
            Line::Call { number } => {
                self.push_all(b" ");
                self.push_signed(number);
            }
            Line::CallLocal { distance } => {
                self.push_all(b" local ");
                self.push_distance(distance);
            }
            Line::Exit => (),
        }
    }

    /// Appends the canonical text of an instruction.
    pub fn push_line(&mut self, line: &Line)
        requires { length self.old + MAX_TEXT_LENGTH ≤ ROOM }
        ensures items { self.new ≡ self.old ++ canonical line.now }
        ensures len { length self.new ≤ length self.old + MAX_TEXT_LENGTH }
    {
        self.push_mnemonic(mnemonic_of(line));
        self.push_operands(line);
    }
}

/// The canonical text of an instruction.
pub fn text_of(line: &Line) -> Text<MAX_TEXT_LENGTH>
    ensures items { result ≡ canonical line.now }
    ensures len { length result ≤ MAX_TEXT_LENGTH }
{
    let mut text = Text::new();
    text.push_line(line);
    text
}

/// Appends the canonical text of an instruction to `out`, without a newline.
///
/// The only refusal is that of memory, and comes only if the text does not fit into the capacity
/// that `out` has. A refusal leaves `out` and its capacity unchanged. The capacity never
/// shrinks.
pub fn line_text<A: Allocator>(line: Line, out: &mut Vec<u8, A>) -> Result<(), AllocError>
    ensures ok { OnOk result (out.new.items ≡ out.old.items ++ canonical line) }
    ensures err { OnErr result (out.new.items ≡ out.old.items) }
    ensures memory { OnErr result
        (vec_capacity out.old < length (out.old.items ++ canonical line)) }
    ensures same_capacity { OnErr result (vec_capacity out.new ≡ vec_capacity out.old) }
    ensures capacity { vec_capacity out.old ≤ vec_capacity out.new }
{
    let text = text_of(&line);
    out.reserve(text.as_slice().len())?;
    out.extend_from_slice(text.as_slice()).unwrap();
    Ok(())
}
