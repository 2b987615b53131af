//! The typed instructions of RFC 9669.
ghost use Rattle.bpf_types.specs.Line.{IsLine};

use crate::reg::Reg;

/// The number of bits that an arithmetic instruction or a jump works on: W32 for the classes ALU
/// and JMP32, W64 for ALU64 and JMP (RFC 9669, section 3.3).
#[derive(Clone, Copy, Debug)]
pub enum Width {
    W32,
    W64,
}

/// Arithmetic with two operands (RFC 9669, section 4.1).
#[derive(Clone, Copy, Debug)]
pub enum Operation {
    Add,
    Sub,
    Mul,
    Div,
    SignedDiv,
    Or,
    And,
    /// Shift to the left.
    Lsh,
    /// Shift to the right that brings in zeros.
    Rsh,
    Mod,
    SignedMod,
    Xor,
    Mov,
    /// Shift to the right that brings in the sign.
    Arsh,
}

/// The second operand: the imm field, or the register of the src field.
#[derive(Clone, Copy, Debug)]
pub enum Operand {
    Immediate(i32),
    Register(Reg),
}

/// The moves that extend the sign, from the given number of bits to the width of their class (RFC
/// 9669, section 4.1).
#[derive(Clone, Copy, Debug)]
pub enum Extension {
    From8To32,
    From16To32,
    From8To64,
    From16To64,
    From32To64,
}

impl Extension {
    ghost use Rattle.std.specs.Prelude.{◌≡◌, ◌≢◌, IfSome, IfNone, Some};
    ghost use Rattle.bpf_types.specs.declared.line.Extension.{Extension};
    ghost use Rattle.bpf_types.specs.Line.{extension_width, extension_bits};
    ghost use Rattle.bpf_types.specs.Mirror.{extension_of};

    /// The extension of a class that reads `bits` bits, 8 or 16 in W32 and 8, 16 or 32 in W64, or
    /// `None` for another number.
    pub fn new(width: Width, bits: u64) -> Option<Self>
        ensures exact { result ≡ extension_of width bits }
        ensures some { IfSome result
            (λ e. (extension_width e ≡ width) × (extension_bits e ≡ bits)) }
        ensures only { (e : Extension) → extension_width e ≡ width → extension_bits e ≡ bits →
            result ≡ Some e }
        ensures none { IfNone result ((e : Extension) → extension_width e ≡ width →
            extension_bits e ≢ bits) }
    {
        match (width, bits) {
            (Width::W32, 8) => Some(Extension::From8To32),
            (Width::W32, 16) => Some(Extension::From16To32),
            (Width::W64, 8) => Some(Extension::From8To64),
            (Width::W64, 16) => Some(Extension::From16To64),
            (Width::W64, 32) => Some(Extension::From32To64),
            _ => None,
        }
    }

    /// The class, by the number of bits that are written.
    pub fn width(self) -> Width
        ensures { result ≡ extension_width self }
    {
        match self {
            Extension::From8To32 | Extension::From16To32 => Width::W32,
            _ => Width::W64,
        }
    }

    /// The number of bits that are read: 8, 16 or 32.
    pub fn bits(self) -> u8
        ensures { result ≡ extension_bits self }
    {
        match self {
            Extension::From8To32 | Extension::From8To64 => 8,
            Extension::From16To32 | Extension::From16To64 => 16,
            Extension::From32To64 => 32,
        }
    }
}

/// What a byte order instruction does: to little-endian, to big-endian, or swap (RFC 9669, section
/// 4.2).
#[derive(Clone, Copy, Debug)]
pub enum Order {
    Little,
    Big,
    Swap,
}

/// The number of bits that a byte order instruction keeps.
#[derive(Clone, Copy, Debug)]
pub enum SwapWidth {
    Bits16,
    Bits32,
    Bits64,
}

impl SwapWidth {
    ghost use Rattle.std.specs.Prelude.{◌≡◌, ◌≢◌, IfSome, IfNone, Some};
    ghost use Rattle.bpf_types.specs.declared.line.SwapWidth.{SwapWidth};
    ghost use Rattle.bpf_types.specs.Line.{swap_width_bits};
    ghost use Rattle.bpf_types.specs.Mirror.{swap_width_of};

    /// The width of `bits` bits: 16, 32 or 64, or `None` for another number.
    pub fn new(bits: u64) -> Option<Self>
        ensures exact { result ≡ swap_width_of bits }
        ensures some { IfSome result (λ w. swap_width_bits w ≡ bits) }
        ensures only { (w : SwapWidth) → swap_width_bits w ≡ bits → result ≡ Some w }
        ensures none { IfNone result ((w : SwapWidth) → swap_width_bits w ≢ bits) }
    {
        match bits {
            16 => Some(SwapWidth::Bits16),
            32 => Some(SwapWidth::Bits32),
            64 => Some(SwapWidth::Bits64),
            _ => None,
        }
    }

    /// The number of bits: 16, 32 or 64.
    pub fn bits(self) -> u8
        ensures { result ≡ swap_width_bits self }
    {
        match self {
            SwapWidth::Bits16 => 16,
            SwapWidth::Bits32 => 32,
            SwapWidth::Bits64 => 64,
        }
    }
}

/// What a jump tests of its two operands (RFC 9669, section 4.3). `Set` asks whether they have a
/// bit in common.
#[derive(Clone, Copy, Debug)]
pub enum Comparison {
    Equal,
    Greater,
    GreaterOrEqual,
    Set,
    NotEqual,
    SignedGreater,
    SignedGreaterOrEqual,
    Less,
    LessOrEqual,
    SignedLess,
    SignedLessOrEqual,
}

/// The number of octets that a load or a store moves: 4, 2, 1 or 8 (RFC 9669, section 5).
#[derive(Clone, Copy, Debug)]
pub enum Size {
    Word,
    Half,
    Byte,
    Double,
}

impl Size {
    ghost use Rattle.std.specs.Prelude.{◌≡◌, ◌≤◌};
    ghost use Rattle.bpf_types.specs.Line.{octets_in};

    /// The number of octets that are moved: 1, 2, 4 or 8.
    #[inline(always)]
    pub fn octets(self) -> usize
        ensures exact { result ≡ octets_in self }
        ensures some { (1 ≤ result) × (result ≤ 8) }
    {
        match self {
            Size::Byte => 1,
            Size::Half => 2,
            Size::Word => 4,
            Size::Double => 8,
        }
    }
}

/// The number of octets that a load that extends the sign reads: 4, 2 or 1 (RFC 9669, section 5.2).
#[derive(Clone, Copy, Debug)]
pub enum SignedSize {
    Word,
    Half,
    Byte,
}

/// One typed instruction of RFC 9669, in the conformance groups base32, base64, divmul32 and
/// divmul64, except those that refer to a host: wide loads with src 1 to 6, such as those of maps,
/// and calls by BTF id. A distance counts slots from the instruction that follows.
#[derive(Clone, Copy, Debug)]
pub enum Line {
    /// `dst = dst operation operand`.
    Arithmetic {
        width: Width,
        operation: Operation,
        dst: Reg,
        operand: Operand,
    },
    /// `dst = -dst`.
    Negate {
        width: Width,
        dst: Reg,
    },
    /// A move that extends the sign.
    MoveExtended {
        extension: Extension,
        dst: Reg,
        src: Reg,
    },
    /// A byte order instruction.
    ByteOrder {
        order: Order,
        width: SwapWidth,
        dst: Reg,
    },
    /// A jump that is always taken, by the offset field.
    Jump {
        distance: i16,
    },
    /// A jump that is always taken, by the imm field.
    LongJump {
        distance: i32,
    },
    /// A jump that is taken if the comparison of dst and operand holds.
    JumpIf {
        width: Width,
        comparison: Comparison,
        dst: Reg,
        operand: Operand,
        distance: i16,
    },
    /// A call of the engine, by its number.
    Call {
        number: i32,
    },
    /// A call of a function of the same code.
    CallLocal {
        distance: i32,
    },
    /// A return from a local call, or the end.
    Exit,
    /// `dst = value`, in two slots.
    LoadWide {
        dst: Reg,
        value: u64,
    },
    /// A load that extends by zeros, from `base + offset`.
    Load {
        size: Size,
        dst: Reg,
        base: Reg,
        offset: i16,
    },
    /// A load that extends the sign, from `base + offset`.
    LoadExtended {
        size: SignedSize,
        dst: Reg,
        base: Reg,
        offset: i16,
    },
    /// A store of a constant, to `base + offset`.
    StoreImmediate {
        size: Size,
        base: Reg,
        offset: i16,
        value: i32,
    },
    /// A store of a register, to `base + offset`.
    Store {
        size: Size,
        base: Reg,
        offset: i16,
        src: Reg,
    },
}

/// The fields of one slot (RFC 9669, section 3.1), with registers that are there.
#[derive(Clone, Copy)]
pub struct Fields {
    pub opcode: u8,
    pub dst: Reg,
    pub src: Reg,
    pub offset: i16,
    pub imm: i32,
}

impl Line {
    ghost use Rattle.std.specs.Prelude.{◌≡◌, ◌↔◌, ◌≤◌, ◌*◌, length, IsTrue};
    ghost use Rattle.bpf_types.specs.Line.{WritesFramePointer, written_dst, is_wide, slots_in, spelling};
    ghost use Rattle.bpf_types.specs.Mirror.{writes_frame_pointer};

    /// The register of the dst field, if the instruction writes it.
    #[inline(always)]
    pub fn written_dst(self) -> Option<Reg>
        ensures { result ≡ written_dst self }
    {
        match self {
            Line::Arithmetic { dst, .. }
            | Line::Negate { dst, .. }
            | Line::MoveExtended { dst, .. }
            | Line::ByteOrder { dst, .. }
            | Line::LoadWide { dst, .. }
            | Line::Load { dst, .. }
            | Line::LoadExtended { dst, .. } => Some(dst),
            _ => None,
        }
    }

    /// The instruction would write R10. Such a line can be spelled, and is never decoded.
    pub fn writes_frame_pointer(self) -> bool
        ensures meaning { IsTrue result ↔ WritesFramePointer self }
        ensures value { result ≡ writes_frame_pointer self }
    {
        match self.written_dst() {
            Some(dst) => dst.is_frame_pointer(),
            None => false,
        }
    }

    /// The instruction has two slots: it is a wide load.
    #[inline(always)]
    pub fn is_wide(self) -> bool
        ensures { result ≡ is_wide self }
    {
        matches!(self, Line::LoadWide { .. })
    }

    /// The number of slots of 8 octets: 2 for a wide load, 1 for any other instruction (RFC 9669,
    /// section 3.2).
    #[inline(always)]
    pub fn slots(self) -> u16
        ensures exact { result ≡ slots_in self }
        ensures octets { 8 * result ≡ length (spelling self) }
        ensures some { (1 ≤ result) × (result ≤ 2) }
    {
        match self {
            Line::LoadWide { .. } => 2,
            _ => 1,
        }
    }
}

/// A law: the fields of each line are in the ranges of their types. Definitions over lines assume
/// it.
pub fn lines_are_in_range(line: Line)
    ensures { IsLine line }
{}
