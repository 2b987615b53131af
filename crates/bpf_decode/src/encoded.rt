//! An instruction that is kept as its octets.
ghost use Rattle.std.specs.Prelude.{◌≡◌, ◌≤◌, ◌+◌, ◌*◌, length, drop, IsOk, Ok};
ghost use Rattle.bpf_decode.specs.Mirror.Decoding.{decode_result};

use crate::codes::LDDW;
use crate::slots::decode;
use bpf_types::Line;
use std::marker::Model;

/// The octets of an instruction that may be loaded: a copy of them costs less than decoding them. A
/// contract sees the instruction.
#[derive(Clone, Copy)]
pub struct EncodedLine {
    /// Its one or two slots, and zeros after one.
    octets: [u8; 16],
}

impl Model for EncodedLine {
    ghost use Rattle.std.specs.Prelude.{◌≡◌};
    ghost use Rattle.std.proofs.Common.{ap, sym};
    ghost use Rattle.bpf_types.specs.declared.line.Line.{Line};
    ghost use Rattle.bpf_decode.specs.Encoded.{line_of_slots, two_slots};

    ghost Value = { Line };

    ghost view = { λ e. line_of_slots e.octets };

    ghost invariant = { λ e. e.octets ≡ two_slots (line_of_slots e.octets) };

    ghost inverse = { λ line. record { octets = two_slots line } };

    ghost inverse_ok = { λ e is. ap (λ o. record { octets = o }) (sym is) };
}

impl EncodedLine {
    /// The instruction that these octets begin with, by an earlier decoding.
    #[inline(always)]
    fn first_of(octets: &[u8]) -> EncodedLine
        requires long { 8 ≤ length octets.now }
        requires decoded { IsOk (decode_result octets.now) }
        ensures { decode_result octets.now ≡ Ok result }
    {
        let mut slots = [0; 16];
        if octets[0] == LDDW {
            slots.copy_from_slice(&octets[..16]);
        } else {
            slots[..8].copy_from_slice(&octets[..8]);
        }
        EncodedLine { octets: slots }
    }

    /// The instruction at a slot, counted in slots of 8 octets, that was decoded there before: its
    /// octets are copied.
    #[inline(always)]
    pub fn at(code: &[u8], slot: usize) -> EncodedLine
        requires inside { 8 * slot + 8 ≤ length code.now }
        requires decoded { IsOk (decode_result (drop (8 * slot) code.now)) }
        ensures { decode_result (drop (8 * slot) code.now) ≡ Ok result }
    {
        EncodedLine::first_of(&code[8 * slot..])
    }

    /// The instruction, decoded again.
    pub fn line(&self) -> Line
        ensures { result ≡ self.now }
    {
        match decode(&self.octets) {
            Ok(line) => line,
            // Not reached: the octets are those of an instruction.
            Err(_) => Line::Exit,
        }
    }
}
