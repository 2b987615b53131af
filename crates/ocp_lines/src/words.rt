//! The words of a line, and their values.

ghost use Rattle.std.specs.Prelude.{◌≡◌, ◌<◌, ◌≤◌, ◌-◌, ◌/◌, ◌∷◌, [], length, vec_capacity, true, take, slice_index, IfOk, OnErr, IfSome, IfNone, MatchOption, ◌≢◌, ◌⊎◌};
ghost use Rattle.std.specs.Option.{option_map};
ghost use Rattle.std.specs.Str.{bytes_eq};
ghost use Rattle.hex.specs.Hex.{hex_digit_value};
ghost use Rattle.ocp_lines.specs.Words.{words_of, is_free_of, number_up_to, octets_up_to, hexadecimal, address_in};
ghost use Rattle.ocp_lines.specs.Grammar.{short, long, id_in, two_shorts, word_or_none};

use memchr::memchr;
use std::alloc::{AllocError, Allocator};
use text_lines::octets_of;

/// The most hexadecimal digits of an address.
const MAX_ADDRESS_DIGITS: usize = 16;

/// The most octets of a text of which each is looked at by itself.
const SHORT_TEXT: usize = 64;

/// The number of octets before the first that is `end`, or of all octets if none is.
#[inline(always)]
pub(crate) fn length_before(end: u8, text: &[u8]) -> usize
    ensures bound { result ≤ length text.now }
    ensures free { is_free_of end (take result text.now) ≡ true }
    ensures end { result < length text.now → slice_index text.now result ≡ end }
{
    if text.len() > SHORT_TEXT {
        return match memchr(end, text) {
            Some(length) => length,
            None => text.len(),
        };
    }
    for (index, octet) in text.iter().enumerate() {
        if *octet == end {
            return index;
        }
    }
    text.len()
}

/// The first word, and what follows it.
pub fn next_word(text: &[u8]) -> Option<(&[u8], &[u8])>
    ensures { MatchOption result (words_of text.now ≡ [])
        (λ found. words_of text.now ≡ found.0.now ∷ words_of found.1.now) }
{
    let mut rest = text;
    while let [b' ', after @ ..] = rest {
        rest = after;
    }
    let length = length_before(b' ', rest);
    if length == 0 {
        return None;
    }
    Some((&rest[..length], &rest[length..]))
}

/// Whether a word is this one.
#[inline(always)]
pub(crate) fn is(word: &[u8], name: &[u8]) -> bool
    ensures { result ≡ bytes_eq word.now name.now }
{
    word == name
}

/// The one word of a text.
pub(crate) fn one_word(text: &[u8]) -> Option<&[u8]>
    ensures some { IfSome result (λ word. words_of text.now ≡ word.now ∷ []) }
    ensures none { IfNone result (length (words_of text.now) ≢ 1) }
{
    let (word, rest) = next_word(text)?;
    next_word(rest).is_none().then_some(word)
}

/// The two words of a text.
pub(crate) fn two_words(text: &[u8]) -> Option<(&[u8], &[u8])>
    ensures some { IfSome result (λ found. words_of text.now ≡ found.0.now ∷ found.1.now ∷ []) }
    ensures none { IfNone result (length (words_of text.now) ≢ 2) }
{
    let (word, rest) = next_word(text)?;
    let (next, rest) = next_word(rest)?;
    next_word(rest).is_none().then_some((word, next))
}

/// The three words of a text.
pub(crate) fn three_words(text: &[u8]) -> Option<(&[u8], &[u8], &[u8])>
    ensures some { IfSome result
        (λ found. words_of text.now ≡ found.0.now ∷ found.1.now ∷ found.2.now ∷ []) }
    ensures none { IfNone result (length (words_of text.now) ≢ 3) }
{
    let (word, rest) = next_word(text)?;
    let (next, last) = two_words(rest)?;
    Some((word, next, last))
}

/// The one word of a text, or the empty word if there is none.
fn word_or_none(text: &[u8]) -> Option<&[u8]>
    ensures some { IfSome result (λ word. (words_of text.now ≡ word.now ∷ [])
        ⊎ ((words_of text.now ≡ []) × (word.now ≡ []))) }
    ensures none { IfNone result (1 < length (words_of text.now)) }
{
    match next_word(text) {
        None => Some(&[]),
        Some((word, rest)) => next_word(rest).is_none().then_some(word),
    }
}

/// The number that a word spells, if it is at most `most`.
pub(crate) fn number(word: &[u8], most: u64) -> Option<u64>
    ensures value { result ≡ number_up_to most word.now }
    ensures bound { IfSome result (λ value. value ≤ most) }
{
    if word.is_empty() {
        return None;
    }
    let mut value = 0u64;
    for octet in word {
        if !octet.is_ascii_digit() {
            return None;
        }
        let digit = u64::from(*octet - b'0');
        value = value.checked_mul(10)?.checked_add(digit)?;
        if value > most {
            return None;
        }
    }
    Some(value)
}

/// The number that a word spells, if it has at most 16 bits.
pub(crate) fn short(word: &[u8]) -> Option<u16>
    ensures { result ≡ short word.now }
{
    let value = number(word, u64::from(u16::MAX))?;
    Some(value as u16)
}

/// The number that a word spells, if it has at most 32 bits.
pub(crate) fn long(word: &[u8]) -> Option<u32>
    ensures { result ≡ long word.now }
{
    let value = number(word, u64::from(u32::MAX))?;
    Some(value as u32)
}

/// The number that the one word of a text spells, if it has at most 16 bits.
pub(crate) fn one_short(text: &[u8]) -> Option<u16>
    ensures { result ≡ id_in (words_of text.now) }
{
    short(one_word(text)?)
}

/// The numbers that two words spell, if each has at most 16 bits.
pub(crate) fn two_shorts(text: &[u8]) -> Option<(u16, u16)>
    ensures { result ≡ two_shorts (words_of text.now) }
{
    let (word, next) = two_words(text)?;
    let value = short(word)?;
    Some((value, short(next)?))
}

/// The value of a hexadecimal digit, in either case.
fn digit(octet: u8) -> Option<u8>
    ensures value { result ≡ hex_digit_value octet }
    ensures bound { IfSome result (λ digit. digit < 16) }
{
    match octet {
        b'0'..=b'9' => Some(octet - b'0'),
        b'a'..=b'f' => Some(octet - b'a' + 10),
        b'A'..=b'F' => Some(octet - b'A' + 10),
        _ => None,
    }
}

/// The number that hexadecimal digits spell.
fn hexadecimal(digits: &[u8]) -> Option<u64>
    requires { length digits.now ≤ MAX_ADDRESS_DIGITS }
    ensures { result ≡ hexadecimal digits.now }
{
    let mut value = 0u64;
    for octet in digits {
        value = value * 16 + u64::from(digit(*octet)?);
    }
    Some(value)
}

/// The address that a word spells: `0x` and 1 to 16 hexadecimal digits.
pub(crate) fn address(word: &[u8]) -> Option<u64>
    ensures { result ≡ address_in word.now }
{
    let digits = word.strip_prefix(b"0x".as_slice())?;
    if digits.is_empty() || digits.len() > MAX_ADDRESS_DIGITS {
        return None;
    }
    hexadecimal(digits)
}

/// The octets that a word of pairs of digits spells, if they are not more than `most`. They are in
/// the scratch vector.
fn octets<'a, A: Allocator>(
    scratch: &'a mut Vec<u8, A>,
    word: &[u8],
    most: usize,
) -> Result<Option<&'a [u8]>, AllocError>
    ensures octets { IfOk result
        (λ octets. option_map (λ octets. octets.now) octets ≡ octets_up_to most word.now) }
    ensures memory { OnErr result (vec_capacity scratch.old < length word.now / 2) }
{
    if word.len() / 2 > most {
        return Ok(None);
    }
    octets_of(scratch, word)
}

/// The octets that the one word of a text spells, if they are not more than `most`; none if there
/// is no word. They are in the scratch vector.
pub(crate) fn last_octets<'a, A: Allocator>(
    scratch: &'a mut Vec<u8, A>,
    text: &[u8],
    most: usize,
) -> Result<Option<&'a [u8]>, AllocError>
    ensures octets { IfOk result (λ octets. option_map (λ octets. octets.now) octets ≡
        word_or_none (octets_up_to most) (words_of text.now)) }
    ensures memory { OnErr result (length (words_of text.now) ≡ 1) }
{
    match word_or_none(text) {
        Some(word) => octets(scratch, word, most),
        None => Ok(None),
    }
}
