//! Arithmetic and byte order (RFC 9669, sections 4.1 and 4.2).
ghost use Rattle.std.specs.Prelude.{◌≡◌, ◌%◌, ◌^◌};
ghost use Rattle.std.specs.Int.{w8, w16, cast_signed};
ghost use Rattle.bpf_types.specs.declared.line.Width.TheVariants.{W32};
ghost use Rattle.bpf_values.specs.Value.{operate, arithmetic_result, negation, sign_extension, byte_order_result};

use bpf_types::{Extension, Operation, Order, SwapWidth, Width, low_half};

/// An operation on two numbers of one width. Signed division truncates toward zero, and the
/// least number by -1 is itself; a signed remainder has the sign of the first number.
macro_rules! operate {
    ($operation:ident, $dst:ident, $src:ident, $bits:literal) => {
        match $operation {
            Operation::Add => $dst.wrapping_add($src),
            Operation::Sub => $dst.wrapping_sub($src),
            Operation::Mul => $dst.wrapping_mul($src),
            Operation::Div => $dst.checked_div($src).unwrap_or(0),
            Operation::SignedDiv if $src == 0 => 0,
            Operation::SignedDiv => $dst.cast_signed().wrapping_div($src.cast_signed()).cast_unsigned(),
            Operation::Or => $dst | $src,
            Operation::And => $dst & $src,
            Operation::Lsh => $dst << ($src % $bits),
            Operation::Rsh => $dst >> ($src % $bits),
            Operation::Mod => $dst.checked_rem($src).unwrap_or($dst),
            Operation::SignedMod if $src == 0 => $dst,
            Operation::SignedMod => $dst.cast_signed().wrapping_rem($src.cast_signed()).cast_unsigned(),
            Operation::Xor => $dst ^ $src,
            Operation::Mov => $src,
            Operation::Arsh => ($dst.cast_signed() >> ($src % $bits)).cast_unsigned(),
        }
    };
}

/// An operation on 32 bits.
#[inline(always)]
fn operate32(operation: Operation, dst: u32, src: u32) -> u32
    ensures { result ≡ operate W32 operation dst src }
{
    operate!(operation, dst, src, 32)
}

/// The low 16 bits as a signed number.
#[inline(always)]
fn low16(register: u64) -> i16
    ensures { result ≡ cast_signed w16 (register % 2 ^ 16) }
{
    ((register % 0x1_0000) as u16).cast_signed()
}

/// The low 8 bits as a signed number.
#[inline(always)]
fn low8(register: u64) -> i8
    ensures { result ≡ cast_signed w8 (register % 2 ^ 8) }
{
    ((register % 0x100) as u8).cast_signed()
}

/// The result of an operation of this width. One of 32 bits works on the low halves, and its upper
/// half is zero.
#[inline(always)]
pub fn arithmetic_result(width: Width, operation: Operation, dst: u64, src: u64) -> u64
    ensures { result ≡ arithmetic_result width operation dst src }
{
    match width {
        Width::W64 => operate!(operation, dst, src, 64),
        Width::W32 => u64::from(operate32(operation, low_half(dst), low_half(src))),
    }
}

/// The negative of a number of this width.
#[inline(always)]
pub fn negation(width: Width, dst: u64) -> u64
    ensures { result ≡ negation width dst }
{
    match width {
        Width::W64 => dst.wrapping_neg(),
        Width::W32 => u64::from(low_half(dst).wrapping_neg()),
    }
}

/// The low bits of a number with their sign extended to the width, and zeros above.
#[inline(always)]
pub fn sign_extension(extension: Extension, src: u64) -> u64
    ensures { result ≡ sign_extension extension src }
{
    match extension {
        Extension::From8To32 => u64::from(i32::from(low8(src)).cast_unsigned()),
        Extension::From16To32 => u64::from(i32::from(low16(src)).cast_unsigned()),
        Extension::From8To64 => i64::from(low8(src)).cast_unsigned(),
        Extension::From16To64 => i64::from(low16(src)).cast_unsigned(),
        Extension::From32To64 => i64::from(low_half(src).cast_signed()).cast_unsigned(),
    }
}

/// The low bits of a number in a byte order, and zeros above.
#[inline(always)]
pub fn byte_order_result(byte_order: Order, width: SwapWidth, dst: u64) -> u64
    ensures { result ≡ byte_order_result byte_order width dst }
{
    match width {
        SwapWidth::Bits16 => {
            let half = (dst % 0x1_0000) as u16;
            u64::from(match byte_order {
                Order::Little => half,
                Order::Big | Order::Swap => half.swap_bytes(),
            })
        }
        SwapWidth::Bits32 => {
            let word = low_half(dst);
            u64::from(match byte_order {
                Order::Little => word,
                Order::Big | Order::Swap => word.swap_bytes(),
            })
        }
        SwapWidth::Bits64 => match byte_order {
            Order::Little => dst,
            Order::Big | Order::Swap => dst.swap_bytes(),
        },
    }
}
