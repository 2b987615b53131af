//! Acknowledgement flags.

ghost use Rattle.std.specs.Prelude.{⊤, [], ◌∷◌, codes};

use bitflags::{Flag, Flags, bitflag_items};

/// Which reports of success the sender of a telecommand asks for: acceptance 1, start 2, progress
/// 4, completion 8 (ECSS-E-ST-70-41C, 7.4.4.1).
#[derive(Clone, Copy, PartialEq, Eq, Debug)]
pub struct Ack(u8);

bitflag_items! {
    impl Ack: u8 {
        const ACCEPTANCE = 1;
        const START = 2;
        const PROGRESS = 4;
        const COMPLETION = 8;
    }
}

impl Flags for Ack {
    type Bits = u8;

    ghost exact = { ⊤ };

    ghost table = { (codes "ACCEPTANCE", 1) ∷ (codes "START", 2)
        ∷ (codes "PROGRESS", 4) ∷ (codes "COMPLETION", 8) ∷ [] };

    ghost set_of = { λ a. a.0 };

    fn flags<'a>() -> &'a [Flag<Ack>] {
        Ack::FLAGS
    }

    fn bits(&self) -> u8 {
        self.0
    }

    fn from_bits_retain(bits: u8) -> Ack {
        Ack(bits)
    }
}
