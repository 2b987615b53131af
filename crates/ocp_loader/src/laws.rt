//! Laws on images and their lines. The functions do nothing when they run: their contracts are the
//! laws.
ghost use Rattle.std.specs.Prelude.{◌≡◌, ℕ, ℤ, true, ◌<◌, ◌↔◌, ◌++◌, List, length, Option, Some, Ok, Err};
ghost use Rattle.ocp_profile.specs.declared.profile.Profile.{Profile};
ghost use Rattle.ocp_profile.specs.declared.profile.Profile.TheVariants.{Two};
ghost use Rattle.bpf_types.specs.declared.line.Line.{Line};
ghost use Rattle.std.specs.List.{All};
ghost use Rattle.bpf_types.specs.Line.{IsLine};
ghost use Rattle.bpf_decode.specs.Images.{image_of, IsImageOf, NoneWritesFramePointer};
ghost use Rattle.ocp_loader.specs.declared.fault.LoadFault.{LoadFault};
ghost use Rattle.ocp_loader.specs.Image.{by_slot, line_in, is_engine_call};
ghost use Rattle.ocp_loader.specs.Places.{IsAt, Continues, place_of};
ghost use Rattle.ocp_loader.specs.Admitted.{IsAdmitted, IsAdmittedAs};
ghost use Rattle.ocp_loader.specs.LineAt.{line_of, IsPlace, IsLineAt};
ghost use Rattle.ocp_loader.specs.LoadResult.{load_result};

use bpf_decode::laws::{instructions_are_decoded, writes_of_the_frame_pointer_are_refused};

/// An image that may be run is judged to be its lines by slot. So an image that has a fault may not
/// be run.
pub fn faults_are_of_images_that_may_not_be_run()
    ensures admitted { (profile : Profile) (image : List ℕ) (lines : List Line) →
        IsAdmittedAs profile image lines → load_result profile image ≡ Ok (by_slot lines) }
    ensures refused { (profile : Profile) (image : List ℕ) (fault : LoadFault) →
        load_result profile image ≡ Err fault → ¬ IsAdmitted profile image }
{
    instructions_are_decoded();
}

/// An image of instructions that loads may be run. So for each image of instructions the load
/// result states whether it may be run.
pub fn images_that_load_may_be_run()
    ensures { (profile : Profile) (image : List ℕ) (instructions : List Line)
        (lines : List (Option Line)) → IsImageOf image instructions →
        load_result profile image ≡ Ok lines → IsAdmitted profile image }
{
    instructions_are_decoded();
    writes_of_the_frame_pointer_are_refused();
}

/// The place of a line is the number of slots of the lines before it: a wide load has two, each
/// other line has one.
#[tactic(auto, using(crate::proofs::Octets::place_by_slot))]
pub fn places_are_counted_in_slots()
    ensures { (before : List Line) → place_of before ≡ length (by_slot before) }
{}

/// An image that may be run begins with an instruction: a line has its first slot at slot 0.
pub fn images_begin_with_an_instruction()
    ensures { (profile : Profile) (image : List ℕ) → IsAdmitted profile image → IsPlace image 0 }
{
    faults_are_of_images_that_may_not_be_run();
}

/// In an image that may be run: from the place of a line, every place that follows is the place of
/// a line, be it the next one or the target of a jump or a local call. So no undefined opcode, no
/// place outside the code and no second half of a wide load is met.
pub fn places_lead_to_places()
    ensures lines { (profile : Profile) (image : List ℕ) (lines : List Line) (slot : ℕ)
        (l : Line) → IsAdmittedAs profile image lines → IsAt lines slot l → Continues lines slot l }
    ensures slots { (profile : Profile) (image : List ℕ) (lines : List (Option Line)) (slot : ℕ)
        (l : Line) → load_result profile image ≡ Ok lines → line_of image slot ≡ Some l →
        IsLineAt image slot l }
{}

/// The instructions that an image begins with, one after another, are its lines at their slots,
/// whether it may be run or not; at the second slot of a wide load there is none.
pub fn instructions_in_order_are_lines()
    ensures { (image more : List ℕ) (lines : List Line) (slot : ℕ) →
        All IsLine lines → NoneWritesFramePointer lines → image ≡ image_of lines ++ more →
        slot < length (by_slot lines) → line_of image slot ≡ line_in (by_slot lines) slot }
{
    instructions_are_decoded();
}

/// In an image that may be run: the line at a slot, which is defined by decoding alone, is the one
/// that was loaded there. There is one at slot 0.
pub fn lines_agree_with_the_load_result()
    ensures agree { (profile : Profile) (image : List ℕ) (lines : List (Option Line)) (slot : ℕ) →
        load_result profile image ≡ Ok lines → line_of image slot ≡ line_in lines slot }
    ensures begins { (profile : Profile) (image : List ℕ) (lines : List (Option Line)) →
        load_result profile image ≡ Ok lines → IsPlace image 0 }
{}

/// In an image that may be run: the line at a slot is the one that has that place.
pub fn lines_stand_at_their_places()
    ensures { (profile : Profile) (image : List ℕ) (lines : List Line) (slot : ℕ) (l : Line) →
        IsAdmittedAs profile image lines → (line_of image slot ≡ Some l) ↔ IsAt lines slot l }
{
    faults_are_of_images_that_may_not_be_run();
}

/// The engine calls of every profile are among those of profile Two, so what may be run under a
/// profile may be run under Two. With `places_lead_to_places`: each numbered call that is met in an
/// image that may be run under some profile is an engine call of profile Two.
pub fn two_has_the_engine_calls_of_every_profile()
    ensures numbers { (profile : Profile) (number : ℤ) → is_engine_call profile number ≡ true →
        is_engine_call Two number ≡ true }
    ensures images { (profile : Profile) (image : List ℕ) (lines : List Line) →
        IsAdmittedAs profile image lines → IsAdmittedAs Two image lines }
{}
