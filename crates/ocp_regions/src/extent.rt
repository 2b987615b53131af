//! Regions of which the front or the end is known to be zero, so that only the other octets move.
// The index that bounds the zeros goes with the region.
ghost use Rattle.std.specs.Prelude.{◌≡◌, ◌≤◌, ◌+◌, ◌↔◌, IsTrue, length, replicate};
ghost use Rattle.std.proofs.lemmas.List.Edits.{sets};
ghost use Rattle.bpf_types.specs.Line.{octets_in};
ghost use Rattle.ocp_regions.specs.Memory.{low_octets, IsZeroBelow, IsZeroFrom};

use crate::access::{are_same, write_at, zero};
use bpf_types::Size;

/// The octets that are looked at together: those of one frame of the stack.
const BLOCK_OCTETS: usize = 512;

/// Takes the octets of a region of the same length.
pub(crate) fn copy_from_index(region: &mut [u8], index: usize, other: &[u8], first: usize)
    requires length { length region.old ≡ length other.now }
    requires own { IsZeroBelow index region.old }
    requires others { IsZeroBelow first other.now }
    ensures { region.new ≡ other.now }
{
    zero(&mut region[index.min(first)..first]);
    region[first..].copy_from_slice(&other[first..]);
}

/// Takes the octets of a region of the same length.
pub(crate) fn copy_below_index(region: &mut [u8], index: usize, other: &[u8], end: usize)
    requires length { length region.old ≡ length other.now }
    requires own { IsZeroFrom index region.old }
    requires others { IsZeroFrom end other.now }
    ensures { region.new ≡ other.now }
{
    zero(&mut region[end..index.max(end)]);
    region[..end].copy_from_slice(&other[..end]);
}

/// Makes every octet zero.
pub(crate) fn clear_from_index(region: &mut [u8], index: usize)
    requires { IsZeroBelow index region.old }
    ensures { region.new ≡ replicate (length region.old) 0 }
{
    zero(&mut region[index..]);
}

/// Makes every octet zero.
pub(crate) fn clear_below_index(region: &mut [u8], index: usize)
    requires { IsZeroFrom index region.old }
    ensures { region.new ≡ replicate (length region.old) 0 }
{
    zero(&mut region[..index]);
}

/// Whether two regions have the same octets.
pub(crate) fn are_same_below(
    left: &[u8],
    left_index: usize,
    right: &[u8],
    right_index: usize,
) -> bool
    requires left { IsZeroFrom left_index left.now }
    requires right { IsZeroFrom right_index right.now }
    ensures { IsTrue result ↔ (left.now ≡ right.now) }
{
    if left.len() != right.len() {
        return false;
    }
    let end = left_index.max(right_index);
    are_same(&left[..end], &right[..end])
}

/// Whether every octet is zero. All are looked at, many at a time.
fn is_zero(octets: &[u8]) -> bool
    ensures { IsTrue result → octets.now ≡ replicate (length octets.now) 0 }
{
    let mut largest = 0;
    for octet in octets {
        largest = largest.max(*octet);
    }
    largest == 0
}

/// An index below which a region of whole blocks is zero: the first block that is not begins there.
pub(crate) fn zero_blocks(region: &[u8]) -> usize
    ensures { IsZeroBelow result region.now }
{
    let blocks = region.len() / BLOCK_OCTETS;
    for block in 0..blocks {
        let first = block * BLOCK_OCTETS;
        if !is_zero(&region[first..first + BLOCK_OCTETS]) {
            return first;
        }
    }
    blocks * BLOCK_OCTETS
}

/// Writes the low octets of a number, the lowest first, and keeps the index at or after their end.
pub(crate) fn write_below_index(
    region: &mut [u8],
    index: &mut usize,
    at: usize,
    size: Size,
    number: u64,
)
    requires inside { at + octets_in size ≤ length region.old }
    requires zeros { IsZeroFrom index.old region.old }
    ensures written { region.new ≡ sets region.old at (low_octets (octets_in size) number) }
    ensures zeros { IsZeroFrom index.new region.new }
{
    write_at(region, at, size, number);
    let end = at + size.octets();
    if *index < end {
        *index = end;
    }
}
