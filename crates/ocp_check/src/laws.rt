//! Laws. The functions do nothing when they run: their contracts are the laws.
ghost use Rattle.std.specs.Prelude.{◌≡◌, ◌<◌, ◌^◌, ℕ, Bool, true, Ok};
ghost use Rattle.ocp_profile.specs.declared.profile.Profile.{Profile};
ghost use Rattle.ocp_regions.specs.Memory.{Octets, number_in_memory, memory_after_store, zeros, zeros_over};
ghost use Rattle.ocp_regions.specs.Access.{HasOctets};
ghost use Rattle.ocp_check.specs.Mirror.Ranges.{IsThere};

use ocp_regions::laws::{
    accesses_inside_a_region_are_there, memories_have_octets, stores_keep_the_addresses,
};

/// In the memory of a profile an access inside a region is never refused. A load of n octets gives
/// a number below 256 ^ n. A store keeps the addresses, and octets at each of them.
pub fn accesses_are_there()
    ensures load { (profile : Profile) (m : Octets) (is_store : Bool) (q n : ℕ) →
        zeros_over m ≡ zeros profile → HasOctets m → IsThere is_store q n →
        (v : ℕ) × (number_in_memory m q n ≡ Ok v) × (v < 256 ^ n) }
    ensures store { (profile : Profile) (m : Octets) (q n v : ℕ) →
        zeros_over m ≡ zeros profile → HasOctets m → IsThere true q n →
        (t : Octets) × (memory_after_store m q n v ≡ Ok t) × (zeros_over t ≡ zeros profile)
        × HasOctets t }
{
    accesses_inside_a_region_are_there();
    stores_keep_the_addresses();
    memories_have_octets();
}
