//! What is known of a number that is loaded, or whose octets are exchanged.
ghost use Rattle.std.specs.Prelude.{◌<◌, ◌^◌, ℕ};
ghost use Rattle.bpf_types.specs.Line.{octets_in};
ghost use Rattle.bpf_types.specs.declared.line.Order.{Order};
ghost use Rattle.bpf_values.specs.Value.{byte_order_result, modulus};
ghost use Rattle.ocp_check.specs.Mirror.Ranges.{IsIn};

use crate::range::{Range, between};
use bpf_types::{Size, SwapWidth, Width};

/// The numbers that octets of a size make.
pub(crate) fn numbers_of(size: Size) -> Option<Range>
    ensures { (v : ℕ) → v < 256 ^ octets_in size → IsIn result v }
{
    let high = match size {
        Size::Byte => 0xff,
        Size::Half => 0xffff,
        Size::Word => 0xffff_ffff,
        Size::Double => u64::MAX,
    };
    between(0, high)
}

/// The numbers of a width.
pub(crate) fn numbers_of_width(width: Width) -> Option<Range>
    ensures { (v : ℕ) → v < modulus width → IsIn result v }
{
    match width {
        Width::W32 => between(0, 0xffff_ffff),
        Width::W64 => None,
    }
}

/// The numbers that a byte order instruction gives.
pub(crate) fn numbers_in(width: SwapWidth) -> Option<Range>
    ensures { (order : Order) (a : ℕ) → IsIn result (byte_order_result order width a) }
{
    match width {
        SwapWidth::Bits16 => between(0, 0xffff),
        SwapWidth::Bits32 => between(0, 0xffff_ffff),
        SwapWidth::Bits64 => None,
    }
}
