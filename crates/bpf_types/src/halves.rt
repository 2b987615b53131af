//! The two halves of 64 bits, which the two slots of a wide load hold (RFC 9669, section 5.4).
ghost use Rattle.std.specs.Prelude.{◌≡◌, ◌+◌, ◌*◌, ◌/◌, ◌%◌, ◌^◌};

/// The lower 32 bits.
#[inline(always)]
pub fn low_half(value: u64) -> u32
    ensures { result ≡ value % 2 ^ 32 }
{
    (value % 0x1_0000_0000) as u32
}

/// The upper 32 bits.
#[inline(always)]
pub fn high_half(value: u64) -> u32
    ensures { result ≡ value / 2 ^ 32 }
{
    (value / 0x1_0000_0000) as u32
}

/// The number of which these are the halves.
#[inline(always)]
pub fn from_halves(low: u32, high: u32) -> u64
    ensures { result ≡ low + high * 2 ^ 32 }
{
    u64::from(low) + u64::from(high) * 0x1_0000_0000
}
