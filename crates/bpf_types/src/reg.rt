//! A register.
ghost use Rattle.std.specs.Prelude.{◌≡◌, ℕ, ◌≤◌, ◌↔◌, IsTrue};
ghost use Rattle.std.specs.Option.{SomeIff};

use std::marker::Model;

/// A register, R0 to R10 (RFC 9669, section 3). A contract sees its number.
#[derive(Clone, Copy, PartialEq, Eq, Debug)]
pub struct Reg {
    number: u8,
}

impl Model for Reg {
    ghost Value = { ℕ };

    ghost view = { λ r. r.number };

    ghost invariant = { λ r. r.number ≤ 10 };

    ghost inverse = { λ n. record { number = n } };
}

impl Reg {
    /// The register of this number, or `None` over 10.
    #[inline(always)]
    pub fn new(number: u8) -> Option<Self>
        ensures { SomeIff result (number ≤ 10) number }
    {
        if number <= 10 {
            Some(Reg { number })
        } else {
            None
        }
    }

    /// R0, which is in a register field that an instruction leaves zero.
    #[inline(always)]
    pub fn zero() -> Self
        ensures { result ≡ 0 }
    {
        Reg { number: 0 }
    }

    /// R1. Its number in the src field of a call marks the call as local.
    #[inline(always)]
    pub fn one() -> Self
        ensures { result ≡ 1 }
    {
        Reg { number: 1 }
    }

    /// The register's number, 0 to 10.
    #[inline(always)]
    pub fn number(self) -> u8
        ensures same { result ≡ self }
        ensures in_range { result ≤ 10 }
    {
        self.number
    }

    /// R10 points to the frame, and no instruction may write it.
    #[inline(always)]
    pub fn is_frame_pointer(self) -> bool
        ensures { IsTrue result ↔ (self ≡ 10) }
    {
        self.number == 10
    }
}
