//! Numbers of the primary header that do not fill their type.

ghost use Rattle.std.specs.Prelude.{◌≡◌, ℕ, ◌+◌, ◌%◌, ◌<◌};
ghost use Rattle.std.specs.Option.{SomeIff};
ghost use Rattle.space_packet.specs.declared.range.TheConstants.{SEQUENCE_COUNTS};

use std::marker::Model;

/// How many application process identifiers there are.
pub const APIDS: u16 = 2_048;

/// The application process identifier of idle packets: the highest one, all ones.
pub const IDLE_APID: u16 = 2_047;

/// How many sequence counts there are: a count is taken modulo this number.
pub const SEQUENCE_COUNTS: u16 = 16_384;

/// A number of the primary header that is below `COUNT`.
#[derive(Clone, Copy, PartialEq, Eq, Debug)]
pub struct Below<const COUNT: u16> {
    number: u16,
}

/// An application process identifier, 0 to 2,047.
pub type Apid = Below<APIDS>;

/// A packet sequence count, 0 to 16,383.
pub type SequenceCount = Below<SEQUENCE_COUNTS>;

impl<const COUNT: u16> Model for Below<COUNT> {
    ghost Value = { ℕ };

    ghost view = { λ below. below.number };

    ghost invariant = { λ below. below.number < COUNT };

    ghost inverse = { λ n. record { number = n } };
}

impl<const COUNT: u16> Below<COUNT> {
    /// The value with this number, if the number is below `COUNT`.
    pub fn new(number: u16) -> Option<Self>
        ensures { SomeIff result (number < COUNT) number }
    {
        if number < COUNT {
            Some(Below { number })
        } else {
            None
        }
    }

    pub fn number(self) -> u16
        ensures same { result ≡ self.entry }
        ensures in_range { result < COUNT }
    {
        self.number
    }
}

impl SequenceCount {
    /// The count of the next packet: one more, and 0 after 16,383.
    pub fn next(self) -> Self
        ensures { result ≡ (self + 1) % SEQUENCE_COUNTS }
    {
        Below {
            number: (self.number + 1) % SEQUENCE_COUNTS,
        }
    }
}
