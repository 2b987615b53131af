//! Numbers in assembly text.
ghost use Rattle.std.specs.Prelude.{◌<◌, ◌≤◌, ◌^◌, ◌↔◌, IsTrue};
ghost use Rattle.std.specs.Str.Parse.{AllDigits};
ghost use Rattle.bpf_text.specs.Number.{IsInBase, IsNumeral};
ghost use Rattle.bpf_text.specs.Judged.{Gives};

use crate::line::LineFault;

/// Whether each octet is a digit of the base.
fn are_digits(base: u32, octets: &[u8]) -> bool
    requires low { 2 ≤ base }
    requires high { base ≤ 36 }
    ensures { IsTrue result ↔ AllDigits base octets.now }
{
    octets.iter().all(|octet| char::from(*octet).is_digit(base))
}

/// The number of 64 bits that the digits spell.
fn in_base(base: u32, octets: &[u8]) -> Result<u64, LineFault>
    requires low { 2 ≤ base }
    requires high { base ≤ 36 }
    ensures { Gives (λ n. n) (IsInBase base octets.now) (λ n. n < 2 ^ 64) result }
{
    if octets.is_empty() || !are_digits(base, octets) {
        return Err(LineFault::Syntax);
    }
    match str::from_utf8(octets) {
        Ok(digits) => u64::from_str_radix(digits, base).map_err(|_| LineFault::Range),
        Err(_) => Err(LineFault::Syntax),
    }
}

/// The number of 64 bits that the octets spell: decimal digits, or `0x` and hexadecimal ones.
pub(crate) fn numeral(octets: &[u8]) -> Result<u64, LineFault>
    ensures { Gives (λ n. n) (IsNumeral octets.now) (λ n. n < 2 ^ 64) result }
{
    match octets {
        [b'0', b'x', digits @ ..] => in_base(16, digits),
        _ => in_base(10, octets),
    }
}
