//! The octets and words that a request carries, in their ranges.

ghost use Rattle.std.specs.Prelude.{◌≡◌, ◌≤◌, ◌↔◌, length, IfSome, IsSome};

use arrayvec::ArrayVec;
use std::marker::Model;

/// The most octets of the code of a load: its length field has 16 bits.
pub const MAX_CODE_LENGTH: usize = 65_535;

/// The most octets of the arguments of an activation.
pub const MAX_ARGUMENTS_LENGTH: usize = 256;

/// The most words of a communicate request.
pub const MAX_WORDS: usize = 8;

/// Octets at the end of a request, borrowed: at most `MOST`.
#[derive(Drop)]
pub struct Carried<'a, const MOST: usize> {
    octets: &'a [u8],
}

/// The code of a load: at most 65,535 octets.
pub type Code<'a> = Carried<'a, MAX_CODE_LENGTH>;

/// The arguments of an activation: at most 256 octets.
pub type Arguments<'a> = Carried<'a, MAX_ARGUMENTS_LENGTH>;

impl<'a, const MOST: usize> Model for Carried<'a, MOST> {
    ghost use Rattle.std.specs.Prelude.{◌≤◌, ℕ, List, length};

    ghost Value = { List ℕ };

    ghost view = { λ carried. carried.octets.now };

    ghost invariant = { λ carried. length carried.octets.now ≤ MOST };
}

impl<'a, const MOST: usize> Carried<'a, MOST> {
    /// These octets, if a request can carry them.
    pub fn new(octets: &'a [u8]) -> Option<Carried<'a, MOST>>
        ensures value { IfSome result (λ carried. carried ≡ octets.now) }
        ensures variant { IsSome result ↔ (length octets.now ≤ MOST) }
    {
        if octets.len() > MOST {
            return None;
        }
        Some(Carried { octets })
    }

    /// The octets.
    pub fn octets(&self) -> &'a [u8]
        ensures value { result.now ≡ self.now }
        ensures bound { length self.now ≤ MOST }
    {
        self.octets
    }
}

/// The parameters of a communicate request: 1 to 8 words.
#[derive(Drop)]
pub struct Words {
    words: ArrayVec<u64, MAX_WORDS>,
}

impl Model for Words {
    ghost use Rattle.std.specs.Prelude.{◌≤◌, ℕ, List, length};

    ghost Value = { List ℕ };

    ghost view = { λ w. w.words.items };

    ghost invariant = { λ w. 1 ≤ length w.words.items };
}

impl Words {
    /// These words, if there is at least one.
    pub fn new(words: ArrayVec<u64, MAX_WORDS>) -> Option<Words>
        ensures value { IfSome result (λ value. value ≡ words.items) }
        ensures variant { IsSome result ↔ (1 ≤ length words.items) }
    {
        if words.is_empty() {
            return None;
        }
        Some(Words { words })
    }

    /// The words, in their order.
    pub fn as_slice(&self) -> &[u64]
        ensures value { result.now ≡ self.now }
        ensures some { 1 ≤ length self.now }
        ensures bound { length self.now ≤ MAX_WORDS }
    {
        self.words.as_slice()
    }
}
