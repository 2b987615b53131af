//! Laws of canonical texts and listings. The functions do nothing when they run.
ghost use Rattle.std.specs.Prelude.{◌≡◌, ◌⊎◌, ◌%◌, List, [], ℕ, length};
ghost use Rattle.bpf_types.specs.declared.line.Line.{Line};
ghost use Rattle.bpf_types.specs.Line.{IsLine};
ghost use Rattle.bpf_decode.specs.declared.fault.DecodeFault.{DecodeFault};
ghost use Rattle.bpf_decode.specs.Faults.{AreOctets};
ghost use Rattle.bpf_decode.specs.Images.{HasFaultAt};
ghost use Rattle.bpf_canonical.specs.Canonical.{canonical};
ghost use Rattle.bpf_listing.specs.Listing.{IsListed, HasListing, HasFault};

use bpf_decode::laws::{
    faults_of_images_are_unique, images_are_unique, images_are_whole_slots,
    octets_are_decoded_one_way,
};
use bpf_text::laws::{canonical_texts_are_read_back, readings_are_unique};

/// A text is the canonical one of one instruction at most.
pub fn canonical_texts_are_unique()
    ensures { (a b : Line) → IsLine a → IsLine b → canonical a ≡ canonical b → a ≡ b }
{
    canonical_texts_are_read_back();
    readings_are_unique();
}

/// Octets have a listing, or a first fault at a slot.
pub fn images_have_a_listing_or_a_fault()
    ensures { (image : List ℕ) → AreOctets image → HasListing image ⊎ HasFault image }
{
    octets_are_decoded_one_way();
}

/// Octets have one listing at most, and then they are whole slots and have no fault; or they have
/// one first fault at one slot.
pub fn listings_and_faults_are_unique()
    ensures listing { (image a b : List ℕ) → IsListed image [] a → IsListed image [] b → a ≡ b }
    ensures slots { (image a : List ℕ) → IsListed image [] a → length image % 8 ≡ 0 }
    ensures sound { (image a : List ℕ) (slot : ℕ) (fault : DecodeFault) → IsListed image [] a →
        ¬ HasFaultAt image slot fault }
    ensures fault { (image : List ℕ) (s t : ℕ) (f g : DecodeFault) → HasFaultAt image s f →
        HasFaultAt image t g → (f ≡ g) × (s ≡ t) }
{
    images_are_unique();
    images_are_whole_slots();
    faults_of_images_are_unique();
}
