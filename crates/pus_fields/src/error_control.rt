//! The error control: the remainder of a division of polynomials.

ghost use Rattle.std.specs.Prelude.{◌≡◌, ◌<◌, ◌+◌, ◌*◌, ◌^◌, ℕ, [], ◌++◌, List, Bool};
ghost use Rattle.pus_fields.specs.ErrorControl.{IsErrorControl, IsRemainder, error_control, bits, octet_bits, zeros as no_bits};
ghost use Rattle.pus_fields.specs.Mirror.Register.{dividend, shifts};

mod remainders;

use remainders::REMAINDERS;

/// The remainder of an octet followed by the given number of octets of zeros and 16 zero bits.
#[inline(always)]
fn remainder(octet: u8, zeros: usize) -> u16
    requires { zeros < 8 }
    ensures { bits 16 result ≡ shifts (8 + 8 * zeros) (bits 8 octet ++ no_bits 8) }
{
    REMAINDERS[zeros][usize::from(octet)]
}

/// The register after eight octets: the sum of their remainders, with the register's octets added
/// to the first two. Their remainders are added last, since the others need not wait for the
/// register.
#[inline(always)]
fn register_after_eight(register: u16, octets: &[u8; 8]) -> u16
    ensures { (rest remainder : List Bool) →
        IsRemainder (dividend (bits 16 result) rest) remainder →
        IsRemainder (dividend (bits 16 register) (octet_bits octets.now ++ rest)) remainder }
{
    let first = octets[0] ^ (register / 256) as u8;
    let second = octets[1] ^ (register % 256) as u8;
    remainder(octets[7], 0)
        ^ remainder(octets[6], 1)
        ^ remainder(octets[5], 2)
        ^ remainder(octets[4], 3)
        ^ remainder(octets[3], 4)
        ^ remainder(octets[2], 5)
        ^ remainder(second, 6)
        ^ remainder(first, 7)
}

/// The register after all the octets, one after the other.
fn register_after_octets(register: u16, octets: &[u8]) -> u16
    ensures { (remainder : List Bool) →
        IsRemainder (dividend (bits 16 result) []) remainder →
        IsRemainder (dividend (bits 16 register) (octet_bits octets.now)) remainder }
{
    let mut next = register;
    for octet in octets {
        next = (next << 8) ^ remainder(octet ^ (next / 256) as u8, 0);
    }
    next
}

/// The error control of the octets (ECSS-E-ST-70-41C, annex B): the remainder of the polynomial of
/// their bits, followed by 16 zeros, the first 16 inverted, by x^16 + x^12 + x^5 + 1.
// Not inlined, so that its loop has all registers.
#[inline(never)]
pub fn crc16(octets: &[u8]) -> u16
    ensures check { IsErrorControl octets.now result }
    ensures value { result ≡ error_control octets.now }
    ensures only { (other : ℕ) → other < 2 ^ 16 → IsErrorControl octets.now other → other ≡ result }
{
    let mut register = 0xffff;
    let mut rest = octets;
    while let Some((eight, others)) = rest.split_first_chunk::<8>() {
        register = register_after_eight(register, eight);
        rest = others;
    }
    register_after_octets(register, rest)
}
