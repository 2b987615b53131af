//! The tests of conditional jumps (RFC 9669, section 4.3).
ghost use Rattle.std.specs.Prelude.{◌≡◌, ◌↔◌, IsTrue};
ghost use Rattle.bpf_values.specs.Value.{is_taken, IsTaken};

use bpf_types::{Comparison, Width, low_half};

/// Whether a test of two numbers of one width holds.
macro_rules! passes {
    ($comparison:ident, $dst:ident, $src:ident) => {
        match $comparison {
            Comparison::Equal => $dst == $src,
            Comparison::Greater => $dst > $src,
            Comparison::GreaterOrEqual => $dst >= $src,
            Comparison::Set => $dst & $src != 0,
            Comparison::NotEqual => $dst != $src,
            Comparison::SignedGreater => $dst.cast_signed() > $src.cast_signed(),
            Comparison::SignedGreaterOrEqual => $dst.cast_signed() >= $src.cast_signed(),
            Comparison::Less => $dst < $src,
            Comparison::LessOrEqual => $dst <= $src,
            Comparison::SignedLess => $dst.cast_signed() < $src.cast_signed(),
            Comparison::SignedLessOrEqual => $dst.cast_signed() <= $src.cast_signed(),
        }
    };
}

/// Whether a jump of this width is taken. One of 32 bits compares the low halves.
#[inline(always)]
pub fn is_taken(width: Width, comparison: Comparison, dst: u64, src: u64) -> bool
    ensures value { result ≡ is_taken width comparison dst src }
    ensures meaning { IsTrue result ↔ IsTaken width comparison dst src }
{
    match width {
        Width::W64 => passes!(comparison, dst, src),
        Width::W32 => {
            let (dst, src) = (low_half(dst), low_half(src));
            passes!(comparison, dst, src)
        }
    }
}
