//! Octets of a region, and the number that they make.
// Single accesses to one region.
ghost use Rattle.std.specs.Prelude.{◌≡◌, ◌≤◌, ◌<◌, ◌+◌, ◌-◌, ◌^◌, ◌++◌, ◌↔◌, IfSome, IsTrue, None, length, take, drop, replicate};
ghost use Rattle.std.proofs.lemmas.List.Edits.{sets};
ghost use Rattle.bpf_types.specs.Line.{octets_in};
ghost use Rattle.ocp_regions.specs.Memory.{number_of, low_octets};

use bpf_types::Size;

/// The index of an address in a region, if all `count` octets from there on are in the region.
#[inline(always)]
pub(crate) fn index_within(first: u64, octets: usize, address: u64, count: usize) -> Option<usize>
    requires { first + octets ≤ 2 ^ 32 }
    ensures found { IfSome result (λ i. (address ≡ first + i) × (i + count ≤ octets)) }
    ensures none { (result ≡ None) → first ≤ address → octets < address - first + count }
{
    let index = address.wrapping_sub(first);
    if count <= octets && index <= (octets - count) as u64 {
        Some(index as usize)
    } else {
        None
    }
}

/// The `count` octets of a region from an index on.
#[inline(always)]
pub(crate) fn part(region: &[u8], index: usize, count: usize) -> &[u8]
    requires { index + count ≤ length region.now }
    ensures octets { result.now ≡ take count (drop index region.now) }
    ensures len { length result.now ≡ count }
{
    &region[index..index + count]
}

/// The number that octets of a region make, the lowest first.
#[inline(always)]
#[tactic(auto, using(crate::proofs::Numbers::number_1, crate::proofs::Numbers::number_2, crate::proofs::Numbers::number_4, crate::proofs::Numbers::number_8))]
pub(crate) fn number_at(region: &[u8], index: usize, size: Size) -> u64
    requires { index + octets_in size ≤ length region.now }
    ensures { result ≡ number_of (take (octets_in size) (drop index region.now)) }
{
    match size {
        Size::Byte => u64::from(region[index]),
        Size::Half => u64::from(u16::from_le_bytes([region[index], region[index + 1]])),
        Size::Word => u64::from(u32::from_le_bytes([
            region[index],
            region[index + 1],
            region[index + 2],
            region[index + 3],
        ])),
        Size::Double => u64::from_le_bytes([
            region[index],
            region[index + 1],
            region[index + 2],
            region[index + 3],
            region[index + 4],
            region[index + 5],
            region[index + 6],
            region[index + 7],
        ]),
    }
}

/// Writes octets over those that a region has from an index on.
#[inline(always)]
#[tactic(auto, using(crate::proofs::Numbers::part_written))]
fn put(region: &mut [u8], index: usize, octets: &[u8])
    requires { index + length octets.now ≤ length region.old }
    ensures { region.new ≡ sets region.old index octets.now }
{
    region[index..index + octets.len()].copy_from_slice(octets);
}

/// Writes the low octets of a number, the lowest first.
#[inline(always)]
#[tactic(auto, using(crate::proofs::Numbers::octets_2, crate::proofs::Numbers::octets_4, crate::proofs::Numbers::octets_8))]
pub(crate) fn write_at(region: &mut [u8], index: usize, size: Size, number: u64)
    requires { index + octets_in size ≤ length region.old }
    ensures { region.new ≡ sets region.old index (low_octets (octets_in size) number) }
{
    match size {
        Size::Byte => region[index] = (number % 0x100) as u8,
        Size::Half => put(region, index, &((number % 0x1_0000) as u16).to_le_bytes()),
        Size::Word => put(
            region,
            index,
            &((number % 0x1_0000_0000) as u32).to_le_bytes(),
        ),
        Size::Double => put(region, index, &number.to_le_bytes()),
    }
}

/// Makes every octet zero.
pub(crate) fn zero(octets: &mut [u8])
    ensures { octets.new ≡ replicate (length octets.old) 0 }
{
    octets.fill(0);
}

/// Puts octets at the start of a region, and zeros after them.
#[tactic(auto, using(crate::proofs::Numbers::front_put))]
pub(crate) fn put_in_front(region: &mut [u8], octets: &[u8])
    requires { length octets.now ≤ length region.old }
    ensures { region.new ≡ octets.now ++ replicate (length region.old - length octets.now) 0 }
{
    put(region, 0, octets);
    zero(&mut region[octets.len()..]);
}

/// Whether two regions have the same octets.
pub(crate) fn are_same(left: &[u8], right: &[u8]) -> bool
    ensures { IsTrue result ↔ (left.now ≡ right.now) }
{
    left == right
}
