//! Why a packet is rejected.

ghost use Rattle.std.specs.Prelude.{◌≡◌, ◌≤◌, MatchOption, length};
ghost use Rattle.pus_fields.specs.ErrorControl.{error_control};
ghost use Rattle.pus_fields.specs.Rejections.{IsRejected, IsSound, rejection_of};

use crate::error_control::crc16;
use crate::fault::Rejection;
use byteorder::{BigEndian, ByteOrder};
use space_packet::{Primary, SequenceFlags};

/// The version number of a secondary header.
const PUS_VERSION: u8 = 2;

/// Why the packet with this header and this data field, which needs `least` octets, is rejected.
pub(crate) fn rejection(
    least: usize,
    octets: &[u8],
    header: &Primary,
    field: &[u8],
) -> Option<Rejection>
    requires packet { 2 ≤ length octets.now }
    requires field { 1 ≤ least }
    ensures reason { MatchOption result (IsSound least octets.now header.now field.now)
        (λ why. IsRejected why least octets.now header.now field.now) }
    ensures value { result ≡ rejection_of least octets.now header.now field.now }
{
    if header.flags != SequenceFlags::Unsegmented {
        return Some(Rejection::Segmented);
    }
    if !header.secondary {
        return Some(Rejection::NoSecondary);
    }
    if field.len() < least {
        return Some(Rejection::NoRoom);
    }
    let end = octets.len() - 2;
    if crc16(&octets[..end]) != BigEndian::read_u16(&octets[end..]) {
        return Some(Rejection::Pec);
    }
    if field[0] >> 4 != PUS_VERSION {
        return Some(Rejection::PusVersion);
    }
    None
}
