//! A line on the stack, and pairs of digits.

ghost use Rattle.std.specs.Prelude.{◌≡◌, ◌++◌, codes, OnOk};
ghost use Rattle.hex.specs.Hex.{encode_lower};

use std::alloc::{AllocError, Allocator};

/// A line, or the front of one. Without pairs of hexadecimal digits it has at most 64 octets.
pub(crate) type Text = bpf_canonical::Text<64>;

/// Appends pieces and numbers in turn to a text, and then pieces.
macro_rules! push_parts {
    ($text:ident; $($front:expr => $number:expr),* $(; $end:expr)*) => {
        {
            $(
                $text.push_all($front);
                $text.push_integer($number);
            )*
            $($text.push_all($end);)*
        }
    };
}

pub(crate) use push_parts;

/// Appends octets as pairs of hexadecimal digits, and the end of their line.
pub(crate) fn push_octets<A: Allocator>(
    octets: &[u8],
    output: &mut Vec<u8, A>,
) -> Result<(), AllocError>
    ensures { OnOk result
        (output.new.items ≡ output.old.items ++ encode_lower octets.now ++ codes "\n") }
{
    let start = output.len();
    let end = start.saturating_add(octets.len().saturating_mul(2));
    output.resize(end, 0)?;
    hex::encode_to_slice(octets, &mut output[start..]).unwrap();
    output.push(b'\n')?;
    Ok(())
}
