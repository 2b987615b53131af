//! Laws of canonical texts and listings, which are assembly text. The functions do nothing when
//! they run: their contracts are the laws.

ghost use Rattle.std.specs.Prelude.{◌≡◌, ℕ, List};
ghost use Rattle.std.specs.List.{All};
ghost use Rattle.ocp_profile.specs.declared.profile.Profile.{Profile};
ghost use Rattle.bpf_types.specs.declared.line.Line.{Line};
ghost use Rattle.bpf_types.specs.Line.{IsLine};
ghost use Rattle.bpf_decode.specs.Images.{IsImageOf};
ghost use Rattle.bpf_canonical.specs.Canonical.{listing};
ghost use Rattle.ocp_loader.specs.Admitted.{IsAdmitted, IsAdmittedAs};
ghost use Rattle.bpf_assembler.specs.Text.{Means};

use crate::laws::meanings_are_unique;
use bpf_canonical::laws::listings_have_a_line_for_each_instruction;
use bpf_decode::laws::images_are_unique;
use bpf_text::laws::canonical_texts_are_read_back;

/// A listing means the instructions that it lists.
pub fn listings_mean_their_instructions()
    ensures { (lines : List Line) → All IsLine lines → Means (listing lines) lines }
{
    canonical_texts_are_read_back();
    listings_have_a_line_for_each_instruction();
}

/// The listing of an image that may be run means the instructions of the image, and no others. If
/// an image that may be run is the image of some instructions, they are those of its listing.
pub fn admitted_images_are_meant_by_their_listings()
    ensures means { (profile : Profile) (image : List ℕ) (lines : List Line) →
        IsAdmittedAs profile image lines → Means (listing lines) lines }
    ensures only { (profile : Profile) (image : List ℕ) (lines others : List Line) →
        IsAdmittedAs profile image lines → Means (listing lines) others → others ≡ lines }
    ensures listed { (profile : Profile) (image : List ℕ) (lines : List Line) →
        IsAdmitted profile image → IsImageOf image lines → IsAdmittedAs profile image lines }
{
    listings_have_a_line_for_each_instruction();
    canonical_texts_are_read_back();
    images_are_unique();
    meanings_are_unique();
}
