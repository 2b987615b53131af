//! Loads that extend the sign (RFC 9669, section 5.2).
ghost use Rattle.std.specs.Prelude.{◌≡◌};
ghost use Rattle.bpf_values.specs.Value.{size_of, extension_of};

use bpf_types::{Extension, SignedSize, Size};

/// The size of a load that extends the sign.
#[inline(always)]
pub fn size_of(size: SignedSize) -> Size
    ensures { result ≡ size_of size }
{
    match size {
        SignedSize::Byte => Size::Byte,
        SignedSize::Half => Size::Half,
        SignedSize::Word => Size::Word,
    }
}

/// How such a load extends the sign: to 64 bits.
#[inline(always)]
pub fn extension_of(size: SignedSize) -> Extension
    ensures { result ≡ extension_of size }
{
    match size {
        SignedSize::Byte => Extension::From8To64,
        SignedSize::Half => Extension::From16To64,
        SignedSize::Word => Extension::From32To64,
    }
}
