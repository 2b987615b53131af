//! Laws on memories. The functions do nothing when they run: their contracts are the laws.
ghost use Rattle.std.specs.Prelude.{◌≡◌, ◌≤◌, ◌<◌, ◌+◌, ◌%◌, ◌^◌, ◌++◌, ℕ, List, length, slice_index, Some, Ok};
ghost use Rattle.std.specs.List.{All};
ghost use Rattle.std.specs.FinMap.{get};
ghost use Rattle.ocp_profile.specs.declared.profile.Profile.{Profile};
ghost use Rattle.ocp_regions.specs.declared.regions.TheConstants.{STACK, STACK_OCTETS, ARGUMENTS, ARGUMENT_OCTETS, WORK};
ghost use Rattle.ocp_regions.specs.Memory.{Octets, memory_of, work_octets, zeros, zeros_over, with_arguments, number_in_memory, memory_after_store};
ghost use Rattle.ocp_regions.specs.InOrder.{octets_in_order, memory_length, memory_with, HasRegions};
ghost use Rattle.ocp_regions.specs.Access.{MayBeRead, MayBeWritten, AreApart, HasOctets};

/// A profile's memory of zeros is unchanged if it is cleared, and it is the same again if it is
/// cleared with arguments in it: nothing of them is left, and the addresses are the profile's.
#[tactic(auto, using(crate::proofs::Cleared::cleared_zeros, crate::proofs::Cleared::cleared_arguments))]
pub fn cleared_memory_is_the_first_one()
    ensures zeros { (profile : Profile) → zeros_over (zeros profile) ≡ zeros profile }
    ensures arguments { (profile : Profile) (octets : List ℕ) → length octets ≤ 256 →
        zeros_over (with_arguments (zeros profile) octets) ≡ zeros profile }
{}

/// A store does not change which addresses there are.
#[tactic(auto, using(crate::proofs::Cleared::cleared_store))]
pub fn stores_keep_the_addresses()
    ensures { (old new : Octets) (address n number : ℕ) →
        memory_after_store old address n number ≡ Ok new → zeros_over new ≡ zeros_over old }
{}

/// Which octet is at an address of the three regions: the first octet of each is at the region's
/// first address.
#[tactic(auto, using(crate::proofs::Accesses::in_stack, crate::proofs::Accesses::in_arguments, crate::proofs::Accesses::in_work))]
pub fn octets_stand_at_their_addresses()
    ensures stack { (stack arguments work : List ℕ) (i : ℕ) → i < length stack →
        get (memory_of stack arguments work) (STACK + i) ≡ Some (slice_index stack i) }
    ensures arguments { (stack arguments work : List ℕ) (i : ℕ) → length stack ≡ STACK_OCTETS →
        i < length arguments →
        get (memory_of stack arguments work) (ARGUMENTS + i) ≡ Some (slice_index arguments i) }
    ensures work { (stack arguments work : List ℕ) (i : ℕ) → length stack ≡ STACK_OCTETS →
        length arguments ≡ ARGUMENT_OCTETS → i < length work →
        get (memory_of stack arguments work) (WORK + i) ≡ Some (slice_index work i) }
{}

/// In the memory of a profile no load from inside a region is refused, and no store to the inside
/// of the stack or of the work region.
pub fn accesses_inside_a_region_are_there()
    ensures load { (profile : Profile) (memory : Octets) (address n : ℕ) →
        zeros_over memory ≡ zeros profile → MayBeRead profile address n →
        (number : ℕ) × (number_in_memory memory address n ≡ Ok number) }
    ensures store { (profile : Profile) (memory : Octets) (address n number : ℕ) →
        zeros_over memory ≡ zeros profile → MayBeWritten profile address n →
        (new : Octets) × (memory_after_store memory address n number ≡ Ok new) }
{}

/// A load of n octets gives the number that was stored there last, modulo 256 ^ n, and a store
/// elsewhere does not change it.
#[tactic(auto, using(crate::proofs::Accesses::load_stored, crate::proofs::Accesses::load_apart))]
pub fn loads_give_what_was_stored()
    ensures same { (old new : Octets) (address n number : ℕ) → address + n < 2 ^ 64 →
        memory_after_store old address n number ≡ Ok new →
        number_in_memory new address n ≡ Ok (number % 256 ^ n) }
    ensures apart { (old new : Octets) (address n number other k : ℕ) → address + n < 2 ^ 64 →
        other + k < 2 ^ 64 → AreApart address n other k →
        memory_after_store old address n number ≡ Ok new →
        number_in_memory new other k ≡ number_in_memory old other k }
{}

/// A memory that is started with octets as arguments keeps octets at its addresses, so that a load
/// of n octets gives a number below 256 ^ n.
#[tactic(auto, using(crate::proofs::Accesses::octets_started, crate::proofs::Accesses::octets_stored, crate::proofs::Accesses::number_below))]
pub fn memories_have_octets()
    ensures started { (profile : Profile) (arguments : List ℕ) →
        All (λ octet. octet < 256) arguments →
        HasOctets (with_arguments (zeros profile) arguments) }
    ensures stored { (old new : Octets) (address n number : ℕ) → HasOctets old →
        memory_after_store old address n number ≡ Ok new → HasOctets new }
    ensures load { (memory : Octets) (address n number : ℕ) → HasOctets memory →
        number_in_memory memory address n ≡ Ok number → number < 256 ^ n }
{}

/// A memory has the addresses of a profile exactly if it is three regions, each of the length that
/// it has under the profile.
pub fn addresses_are_those_of_the_regions()
    ensures addresses { (profile : Profile) (stack arguments work : List ℕ) →
        length stack ≡ STACK_OCTETS → length arguments ≡ ARGUMENT_OCTETS →
        length work ≡ work_octets profile →
        zeros_over (memory_of stack arguments work) ≡ zeros profile }
    ensures regions { (profile : Profile) (memory : Octets) →
        zeros_over memory ≡ zeros profile → HasRegions profile memory }
{}

/// The octets of a memory, in the order of their addresses, are those of its regions one after the
/// other, and they make the memory again.
pub fn memories_are_their_octets()
    ensures order { (stack arguments work : List ℕ) → length stack ≡ STACK_OCTETS →
        length arguments ≡ ARGUMENT_OCTETS →
        octets_in_order (memory_of stack arguments work) ≡ stack ++ (arguments ++ work) }
    ensures len { (profile : Profile) (memory : Octets) → HasRegions profile memory →
        length (octets_in_order memory) ≡ memory_length profile }
    ensures again { (profile : Profile) (memory : Octets) → HasRegions profile memory →
        memory_with (octets_in_order memory) ≡ memory }
{}
