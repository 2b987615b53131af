//! Registers, numbers and names in an instruction's text, each from its token.
ghost use Rattle.std.specs.Prelude.{◌≡◌, ◌<◌, ◌↔◌, ℕ, IfSome, IfNone, FitsSigned, IsTrue};
ghost use Rattle.std.specs.Int.{w16, w32};
ghost use Rattle.bpf_types.specs.Line.{IsOperand, swap_width_bits};
ghost use Rattle.bpf_text.specs.Number.{IsNumeral};
ghost use Rattle.bpf_text.specs.Tokens.{AllWord};
ghost use Rattle.bpf_text.specs.Fields.{IsRegister, IsInteger, IsImmediate, IsSecond, IsDistance, IsName, IsTarget, as_signed};
ghost use Rattle.bpf_text.specs.Mirror.Gives.{IsWide, bits_in, IsWidth, HasExtension, HasSwapWidth};
ghost use Rattle.bpf_text.specs.Judged.{Gives, target_of};

use crate::line::LineFault;
use crate::number::numeral;
use crate::token::{is_word_octet, run_len};
use bpf_types::{Extension, Operand, Reg, SwapWidth, Width};

/// The register that the token names: r0 to r10.
#[tactic(auto, using(crate::proofs::FieldLemmas::register_text))]
pub(crate) fn register(token: &[u8]) -> Option<Reg>
    ensures some { IfSome result (λ n. IsRegister token.now n) }
    ensures none { IfNone result ((n : ℕ) → IsRegister token.now n → ⊥) }
{
    match token {
        [b'r', digit @ b'0'..=b'9'] => Reg::new(*digit - b'0'),
        [b'r', b'1', b'0'] => Reg::new(10),
        _ => None,
    }
}

/// The number that the token is, with or without a minus sign.
fn integer(token: &[u8]) -> Result<i128, LineFault>
    ensures { Gives (λ z. z) (IsInteger token.now) IsWide result }
{
    match token {
        [] => Err(LineFault::Syntax),
        [b'-', digits @ ..] => Ok(-i128::from(numeral(digits)?)),
        _ => Ok(i128::from(numeral(token)?)),
    }
}

/// An unsigned number of 32 bits stands for the signed one of the same bits.
fn as_signed(number: i128) -> i128
    ensures { result ≡ as_signed number }
{
    if 0x8000_0000 <= number && number < 0x1_0000_0000 {
        number - 0x1_0000_0000
    } else {
        number
    }
}

/// The immediate that the token is.
pub(crate) fn immediate(token: &[u8]) -> Result<i32, LineFault>
    ensures { Gives (λ z. z) (IsImmediate token.now) (FitsSigned w32) result }
{
    match i32::try_from(as_signed(integer(token)?)) {
        Ok(immediate) => Ok(immediate),
        Err(_) => Err(LineFault::Range),
    }
}

/// The register or the immediate that the token is.
pub(crate) fn second(token: &[u8]) -> Result<Operand, LineFault>
    ensures { Gives (λ o. o) (IsSecond token.now) IsOperand result }
{
    match register(token) {
        Some(register) => Ok(Operand::Register(register)),
        None => Ok(Operand::Immediate(immediate(token)?)),
    }
}

/// The distance that the token is: a sign and a number.
fn distance(token: &[u8]) -> Result<i128, LineFault>
    ensures { Gives (λ z. z) (IsDistance token.now) IsWide result }
{
    match token {
        [b'+', digits @ ..] => Ok(i128::from(numeral(digits)?)),
        [b'-', digits @ ..] => Ok(-i128::from(numeral(digits)?)),
        _ => Err(LineFault::Syntax),
    }
}

/// The distance of 16 bits that the token is.
pub(crate) fn short_distance(token: &[u8]) -> Result<i16, LineFault>
    ensures { Gives (λ z. z) (IsDistance token.now) (FitsSigned w16) result }
{
    i16::try_from(distance(token)?).map_err(|_| LineFault::Range)
}

/// The distance of 32 bits that the token is.
fn long_distance(token: &[u8]) -> Result<i32, LineFault>
    ensures { Gives (λ z. z) (IsDistance token.now) (FitsSigned w32) result }
{
    i32::try_from(distance(token)?).map_err(|_| LineFault::Range)
}

/// The distance of 16 bits that the token is, or the name with a distance of 0.
pub(crate) fn short_target(token: &[u8]) -> Result<(i16, Option<&[u8]>), LineFault>
    ensures { Gives target_of (IsTarget token.now) (λ w. FitsSigned w16 w.0) result }
{
    if is_name(token) {
        return Ok((0, Some(token)));
    }
    Ok((short_distance(token)?, None))
}

/// The distance of 32 bits that the token is, or the name with a distance of 0.
pub(crate) fn long_target(token: &[u8]) -> Result<(i32, Option<&[u8]>), LineFault>
    ensures { Gives target_of (IsTarget token.now) (λ w. FitsSigned w32 w.0) result }
{
    if is_name(token) {
        return Ok((0, Some(token)));
    }
    Ok((long_distance(token)?, None))
}

/// The width that the token gives, from which a sign is extended.
pub(crate) fn extension(width: Width, token: &[u8]) -> Result<Extension, LineFault>
    ensures { Gives (bits_in width) (IsWidth token.now) (HasExtension width) result }
{
    Extension::new(width, numeral(token)?).ok_or(LineFault::Range)
}

/// The width of a byte order instruction that the token gives.
pub(crate) fn swap_width(token: &[u8]) -> Result<SwapWidth, LineFault>
    ensures { Gives swap_width_bits (IsNumeral token.now) HasSwapWidth result }
{
    SwapWidth::new(numeral(token)?).ok_or(LineFault::Range)
}

fn all_word(octets: &[u8]) -> bool
    ensures { IsTrue result ↔ AllWord octets.now }
{
    run_len(octets) == octets.len()
}

/// Whether the token is a label's name.
pub(crate) fn is_name(token: &[u8]) -> bool
    ensures { IsTrue result ↔ IsName token.now }
{
    match token {
        [] | [b'0'..=b'9', ..] => false,
        [first, rest @ ..] => is_word_octet(*first) && rest.len() < 32 && all_word(rest),
    }
}
