//! A text on the stack, and the parts of a line that are appended to it.
ghost use Rattle.std.specs.Prelude.{◌≡◌, ◌≤◌, ◌+◌, ◌<◌, ◌++◌, [], List, ℕ, length};
ghost use Rattle.std.specs.Fmt.{decimal, signed_decimal};
ghost use Rattle.std.specs.Int.{w64, to_be_bytes};
ghost use Rattle.hex.specs.Hex.{encode_lower};
ghost use Rattle.bpf_canonical.specs.Canonical.{hex_digits, with_sign};

use arrayvec::ArrayVec;
use hex::encode_to_slice;
use itoa::{Buffer, Integer};
use std::marker::Model;

/// The octets of the longest text of an instruction, such as `jsge64 r10, -2147483648, -32768`.
pub const MAX_TEXT_LENGTH: usize = 31;

/// A text of at most `ROOM` octets, on the stack.
#[derive(Drop)]
pub struct Text<const ROOM: usize> {
    octets: ArrayVec<u8, ROOM>,
}

impl<const ROOM: usize> Model for Text<ROOM> {
    ghost Value = { List ℕ };

    ghost view = { λ t. t.octets.items };
}

impl<const ROOM: usize> Text<ROOM> {
    /// The empty text.
    pub fn new() -> Self
        ensures { result ≡ [] }
    {
        Text {
            octets: ArrayVec::new(),
        }
    }

    /// The text's octets.
    pub fn as_slice(&self) -> &[u8]
        ensures { result.now ≡ self.now }
    {
        self.octets.as_slice()
    }

    /// Removes all octets.
    pub fn clear(&mut self)
        ensures { self.new ≡ [] }
    {
        self.octets.clear();
    }

    /// Appends a piece of text.
    pub fn push_all(&mut self, piece: &[u8])
        requires { length self.old + length piece.now ≤ ROOM }
        ensures items { self.new ≡ self.old ++ piece.now }
        ensures len { length self.new ≡ length self.old + length piece.now }
    {
        self.octets.try_extend_from_slice(piece).unwrap();
    }

    /// Appends a number in decimal digits.
    #[tactic(auto, using(crate::proofs::Rooms::one_digit))]
    pub(crate) fn push_number(&mut self, number: u32)
        requires { length self.old + length (decimal number) ≤ ROOM }
        ensures items { self.new ≡ self.old ++ decimal number }
        ensures len { length self.new ≡ length self.old + length (decimal number) }
    {
        if number < 10 {
            return self.push_all(&[b'0' + number as u8]);
        }
        let mut buffer = Buffer::new();
        self.push_all(buffer.format(number).as_bytes());
    }

    /// Appends a number in decimal digits, with a sign if it is negative.
    #[tactic(auto, using(crate::proofs::Rooms::few_digits))]
    pub(crate) fn push_signed(&mut self, number: i32)
        requires { length self.old + 11 ≤ ROOM }
        ensures items { self.new ≡ self.old ++ signed_decimal number }
        ensures len { length self.new ≤ length self.old + 11 }
    {
        if number < 0 {
            self.push_all(b"-");
        }
        self.push_number(number.unsigned_abs());
    }

    /// Appends a distance of 16 bits in decimal digits, always with its sign.
    #[inline(always)]
    #[tactic(auto, using(crate::proofs::Rooms::short_distance))]
    pub(crate) fn push_short_distance(&mut self, distance: i16)
        requires { length self.old + 6 ≤ ROOM }
        ensures items { self.new ≡ self.old ++ with_sign distance }
        ensures len { length self.new ≤ length self.old + 6 }
    {
        self.push_distance(i32::from(distance));
    }

    /// Appends a distance in decimal digits, always with its sign.
    pub(crate) fn push_distance(&mut self, distance: i32)
        requires { length self.old + length (with_sign distance) ≤ ROOM }
        ensures items { self.new ≡ self.old ++ with_sign distance }
        ensures len { length self.new ≡ length self.old + length (with_sign distance) }
    {
        self.push_all(if distance < 0 { b"-" } else { b"+" });
        self.push_number(distance.unsigned_abs());
    }

    /// Appends a number of any type in decimal digits.
    #[inline(always)]
    pub fn push_integer<I: Integer>(&mut self, number: I)
        requires { length self.old + I.MAX_STR_LEN ≤ ROOM }
        ensures items { self.new ≡ self.old ++ I.text number }
        ensures len { length self.new ≤ length self.old + I.MAX_STR_LEN }
    {
        let mut buffer = Buffer::new();
        self.push_all(buffer.format(number).as_bytes());
    }

    /// Appends a number in 16 hexadecimal digits, in lower case.
    pub fn push_hex(&mut self, number: u64)
        requires { length self.old + 16 ≤ ROOM }
        ensures items { self.new ≡ self.old ++ hex_digits 16 number }
        ensures octets { self.new ≡ self.old ++ encode_lower (to_be_bytes w64 number) }
        ensures len { length self.new ≡ length self.old + 16 }
    {
        let mut digits = [0; 16];
        encode_to_slice(number.to_be_bytes(), &mut digits).unwrap();
        self.push_all(&digits);
    }
}
