//! Laws on values. The functions do nothing when they run: their contracts are the laws.
ghost use Rattle.std.specs.Prelude.{◌≡◌, ℕ, ◌+ℤ◌, pos, ◌<◌, ◌≤◌, ◌/◌, ◌^◌};
ghost use Rattle.bpf_types.specs.declared.line.Width.{Width};
ghost use Rattle.bpf_types.specs.declared.line.Order.{Order};
ghost use Rattle.bpf_types.specs.declared.line.SwapWidth.{SwapWidth};
ghost use Rattle.ocp_regions.specs.Memory.{low_octets};
ghost use Rattle.bpf_values.specs.Value.{modulus, signed, unsigned, byte_order_result, octets_kept, read_in};

/// Signed numbers are in two's complement: below half of the modulus a number stands for itself,
/// from there on for itself less the modulus.
pub fn signed_numbers_are_in_twos_complement()
    ensures low { (w : Width) (a : ℕ) → a < modulus w / 2 → signed w a ≡ pos a }
    ensures high { (w : Width) (a : ℕ) → modulus w / 2 ≤ a → a < modulus w →
        signed w a +ℤ pos (modulus w) ≡ pos a }
    ensures back { (w : Width) (a : ℕ) → a < modulus w → unsigned w (signed w a) ≡ a }
{}

/// A byte order instruction reads the low octets of a number, the lowest first in little-endian
/// order, and otherwise the highest first.
#[tactic(auto, using(crate::proofs::Exchanged::read_in_order))]
pub fn byte_order_instructions_read_octets_in_order()
    ensures { (order : Order) (width : SwapWidth) (a : ℕ) → a < 2 ^ 64 →
        byte_order_result order width a ≡ read_in order (low_octets (octets_kept width) a) }
{}
