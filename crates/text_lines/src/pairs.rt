//! Pairs of hexadecimal digits, as octets.

ghost use Rattle.std.specs.Prelude.{◌≡◌, ◌<◌, ◌*◌, ◌/◌, Ok, Some, length, IfOk, OnErr, true, vec_capacity};
ghost use Rattle.std.specs.List.{AllPass, list_all};
ghost use Rattle.std.specs.Option.{option_map};
ghost use Rattle.std.specs.Result.{result_ok};
ghost use Rattle.hex.specs.Hex.{decode_of, hex_digit_value, is_hex_digit};

use std::alloc::{AllocError, Allocator};

/// Whether an octet is a hexadecimal digit, in either case.
#[inline(always)]
fn is_digit(octet: u8) -> bool
    ensures { result ≡ is_hex_digit octet }
{
    (octet >= b'0') & (octet <= b'9')
        | (octet >= b'A') & (octet <= b'F')
        | (octet >= b'a') & (octet <= b'f')
}

/// Whether each octet is a hexadecimal digit. No octet ends the loop, so that it takes many of
/// them at a time.
fn are_digits(text: &[u8]) -> bool
    ensures { result ≡ list_all is_hex_digit text.now }
{
    let mut all = true;
    for octet in text {
        all &= is_digit(*octet);
    }
    all
}

/// The value of a hexadecimal digit.
#[inline(always)]
fn worth(digit: u8) -> u8
    requires { is_hex_digit digit ≡ true }
    ensures { hex_digit_value digit ≡ Some result }
{
    digit % 16 + digit / 64 * 9
}

/// Writes the octets of pairs of digits.
fn write_octets(digits: &[u8], octets: &mut [u8])
    requires digits { AllPass is_hex_digit digits.now }
    requires pairs { length digits.now ≡ 2 * length octets.old }
    ensures { decode_of digits.now ≡ Ok octets.new }
{
    for i in 0..octets.len() {
        octets[i] = worth(digits[2 * i]) * 16 + worth(digits[2 * i + 1]);
    }
}

/// The octets that pairs of digits in either case spell, or `None` if the text has an odd number of
/// octets or one that is no digit. They replace the content of the given vector. Memory is refused
/// only if they do not fit into its capacity.
pub fn octets_of<'a, A: Allocator>(
    out: &'a mut Vec<u8, A>,
    digits: &[u8],
) -> Result<Option<&'a [u8]>, AllocError>
    ensures octets { IfOk result
        (λ octets. option_map (λ octets. octets.now) octets ≡ result_ok (decode_of digits.now)) }
    ensures memory { OnErr result (vec_capacity out.old < length digits.now / 2) }
{
    if digits.len() % 2 != 0 || !are_digits(digits) {
        return Ok(None);
    }
    out.resize(digits.len() / 2, 0)?;
    write_octets(digits, out.as_mut_slice());
    Ok(Some(out.as_slice()))
}
