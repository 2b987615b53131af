//! Fields: numbers and words, read from the front of octets, and written over all octets of a
//! slice.
ghost use Rattle.std.specs.Prelude.{◌≡◌, ◌≤◌, ◌*◌, IfOk, length};
ghost use Rattle.byteorder.specs.Endian.{big_bytes};
ghost use Rattle.ocp_saved.specs.Format.{words_octets};
ghost use Rattle.ocp_saved.specs.Reading.{Gives, number_at, number_up_to, words_at, words_in};

use crate::RestoreFault;
use bpf_moves::{REGISTERS, Registers};
use byteorder::{BigEndian, ByteOrder};

/// The octets of a word.
pub(crate) const WORD_LENGTH: usize = 8;

/// All acknowledgement flags.
pub const MAX_FLAGS: u8 = 15;

/// The number of an octet.
pub(crate) fn u8_at(octets: &[u8]) -> Result<(u8, &[u8]), RestoreFault>
    ensures { Gives (λ x. (x.0, x.1.now)) result (number_at 1 octets.now) }
{
    match octets {
        [] => Err(RestoreFault::Short),
        [number, rest @ ..] => Ok((*number, rest)),
    }
}

/// A number of 16 bits.
pub(crate) fn u16_at(octets: &[u8]) -> Result<(u16, &[u8]), RestoreFault>
    ensures { Gives (λ x. (x.0, x.1.now)) result (number_at 2 octets.now) }
{
    if octets.len() < 2 {
        return Err(RestoreFault::Short);
    }
    let (_, rest) = octets.split_at(2);
    Ok((BigEndian::read_u16(octets), rest))
}

/// A number of 32 bits.
pub(crate) fn u32_at(octets: &[u8]) -> Result<(u32, &[u8]), RestoreFault>
    ensures { Gives (λ x. (x.0, x.1.now)) result (number_at 4 octets.now) }
{
    if octets.len() < 4 {
        return Err(RestoreFault::Short);
    }
    let (_, rest) = octets.split_at(4);
    Ok((BigEndian::read_u32(octets), rest))
}

/// A number of 64 bits.
fn u64_at(octets: &[u8]) -> Result<(u64, &[u8]), RestoreFault>
    ensures { Gives (λ x. (x.0, x.1.now)) result (number_at 8 octets.now) }
{
    if octets.len() < 8 {
        return Err(RestoreFault::Short);
    }
    let (_, rest) = octets.split_at(8);
    Ok((BigEndian::read_u64(octets), rest))
}

/// The number of an octet that is at most `most`.
#[tactic(auto, unfolding(crate::specs::Reading::number_up_to))]
pub(crate) fn u8_up_to(
    most: u8,
    why: RestoreFault,
    octets: &[u8],
) -> Result<(u8, &[u8]), RestoreFault>
    ensures value { Gives (λ x. (x.0, x.1.now)) result (number_up_to 1 most why octets.now) }
    ensures bound { IfOk result (λ x. x.0 ≤ most) }
{
    let (number, rest) = u8_at(octets)?;
    if most < number {
        return Err(why);
    }
    Ok((number, rest))
}

/// A number of 16 bits that is at most `most`.
#[tactic(auto, unfolding(crate::specs::Reading::number_up_to))]
pub(crate) fn u16_up_to(
    most: u16,
    why: RestoreFault,
    octets: &[u8],
) -> Result<(u16, &[u8]), RestoreFault>
    ensures value { Gives (λ x. (x.0, x.1.now)) result (number_up_to 2 most why octets.now) }
    ensures bound { IfOk result (λ x. x.0 ≤ most) }
{
    let (number, rest) = u16_at(octets)?;
    if most < number {
        return Err(why);
    }
    Ok((number, rest))
}

/// A number of 64 bits that is at most `most`.
#[tactic(auto, unfolding(crate::specs::Reading::number_up_to))]
pub(crate) fn u64_up_to(
    most: u64,
    why: RestoreFault,
    octets: &[u8],
) -> Result<(u64, &[u8]), RestoreFault>
    ensures value { Gives (λ x. (x.0, x.1.now)) result (number_up_to 8 most why octets.now) }
    ensures bound { IfOk result (λ x. x.0 ≤ most) }
{
    let (number, rest) = u64_at(octets)?;
    if most < number {
        return Err(why);
    }
    Ok((number, rest))
}

// As many words as the slice has.
fn read_words(octets: &[u8], words: &mut [u64])
    requires { 8 * length words.old ≤ length octets.now }
    ensures { words.new ≡ words_in (length words.old) octets.now }
{
    BigEndian::read_u64_into(&octets[..WORD_LENGTH * words.len()], words);
}

/// The registers.
pub(crate) fn registers_at(octets: &[u8]) -> Result<(Registers, &[u8]), RestoreFault>
    ensures { Gives (λ x. (x.0, x.1.now)) result (words_at REGISTERS octets.now) }
{
    if octets.len() < WORD_LENGTH * REGISTERS {
        return Err(RestoreFault::Short);
    }
    let mut registers = [0; REGISTERS];
    read_words(octets, &mut registers);
    let (_, rest) = octets.split_at(WORD_LENGTH * REGISTERS);
    Ok((registers, rest))
}

/// Writes a number of 16 bits.
pub(crate) fn put_u16(out: &mut [u8], number: u16)
    requires { length out.old ≡ 2 }
    ensures { out.new ≡ big_bytes 2 number }
{
    BigEndian::write_u16(out, number);
}

/// Writes a number of 32 bits.
pub(crate) fn put_u32(out: &mut [u8], number: u32)
    requires { length out.old ≡ 4 }
    ensures { out.new ≡ big_bytes 4 number }
{
    BigEndian::write_u32(out, number);
}

/// Writes a number of 64 bits.
pub(crate) fn put_u64(out: &mut [u8], number: u64)
    requires { length out.old ≡ 8 }
    ensures { out.new ≡ big_bytes 8 number }
{
    BigEndian::write_u64(out, number);
}

/// Writes words.
pub(crate) fn put_words(out: &mut [u8], words: &[u64])
    requires { length out.old ≡ 8 * length words.now }
    ensures { out.new ≡ words_octets words.now }
{
    BigEndian::write_u64_into(words, out);
}
