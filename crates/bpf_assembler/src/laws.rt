//! Laws of assembly text.

ghost use Rattle.std.specs.Prelude.{◌≡◌, ◌↔◌, ◌⊎◌, ◌∷◌, ◌++◌, List, ℕ, Some, Err, length};
ghost use Rattle.ocp_profile.specs.declared.profile.Profile.{Profile};
ghost use Rattle.bpf_types.specs.declared.line.Line.{Line};
ghost use Rattle.bpf_decode.specs.Images.{image_of};
ghost use Rattle.ocp_loader.specs.declared.fault.LoadFault.{LoadFault};
ghost use Rattle.ocp_loader.specs.Admitted.{IsAdmitted};
ghost use Rattle.ocp_loader.specs.LoadResult.{load_result};
ghost use Rattle.ocp_loader.specs.Places.{place_of};
ghost use Rattle.bpf_assembler.specs.Text.{Means, IsWritten, AreInstructions, entries_of, label_place};
ghost use Rattle.bpf_assembler.specs.Faults.{IsFault};
ghost use Rattle.bpf_assembler.specs.Assembling.{HasMeaning, HasSomeFault};
ghost use Rattle.bpf_assembler.specs.Labels.{statements, IsLabelAt, IsMeantBy};
ghost use Rattle.bpf_assembler.specs.declared.fault.Why.{Why};
ghost use Rattle.bpf_assembler.specs.declared.fault.Why.TheVariants.{Load};
ghost use Rattle.bpf_text.specs.Lines.{TextLine, Statement};

use bpf_decode::laws::images_are_unique;
use bpf_text::laws::readings_are_unique;
use bpf_text::read_line;
use ocp_loader::laws::{
    faults_are_of_images_that_may_not_be_run, images_that_load_may_be_run,
    places_are_counted_in_slots,
};
use text_lines::first_line;
pub use text_lines::laws::texts_are_cut_at_newlines;

/// A text means at most one list of instructions.
pub fn meanings_are_unique()
    ensures { (text : List ℕ) (a b : List Line) → Means text a → Means text b → a ≡ b }
{
    readings_are_unique();
}

/// A text has at most one fault, of one line.
pub fn faults_are_unique()
    ensures { (profile : Profile) (text : List ℕ) (m n : ℕ) (y z : Why) → IsFault profile text m y →
        IsFault profile text n z → (m ≡ n) × (y ≡ z) }
{
    readings_are_unique();
}

/// A text that means instructions has no fault except that of their image. So it has none if their
/// image may be run.
pub fn meanings_exclude_faults()
    ensures image { (profile : Profile) (text : List ℕ) (lines : List Line) (number : ℕ) (y : Why) →
        Means text lines → IsFault profile text number y →
        (fault : LoadFault) × (y ≡ Load fault)
        × (load_result profile (image_of lines) ≡ Err fault) }
    ensures admitted { (profile : Profile) (text : List ℕ) (lines : List Line) (number : ℕ)
        (y : Why) → Means text lines → IsAdmitted profile (image_of lines) →
        ¬ IsFault profile text number y }
{
    readings_are_unique();
    faults_are_of_images_that_may_not_be_run();
}

/// In a text that means instructions: a label has the place in the image of the next instruction,
/// or at the end of the text the slot after the last one; and an instruction that names a label
/// leads there, as the loader reads its distance.
pub fn named_jumps_lead_to_their_labels()
    ensures labels { (text : List ℕ) (ws : List TextLine) (ls : List Line) (name : List ℕ)
        (place : ℕ) → IsWritten text ws → AreInstructions ws (entries_of 1 0 ws) ls →
        (label_place name 0 ws ≡ Some place) ↔ IsLabelAt name ws ls place }
    ensures jumps { (text : List ℕ) (ws : List TextLine) (ls : List Line) (a b : List Statement)
        (s : Statement) (c d : List Line) (l : Line) → IsWritten text ws →
        AreInstructions ws (entries_of 1 0 ws) ls → statements ws ≡ a ++ s ∷ b →
        ls ≡ c ++ l ∷ d → length a ≡ length c → IsMeantBy ws ls (place_of c) s.line s.name l }
{
    places_are_counted_in_slots();
}

/// Under each profile a text means instructions whose image may be run, or has a fault itself;
/// and not both. When the function runs it reads the lines of the text, and keeps nothing of them.
pub fn texts_have_a_meaning_or_a_fault(text: &[u8])
    ensures one { (profile : Profile) →
        HasMeaning profile text.now ⊎ HasSomeFault profile text.now }
    ensures not_both { (profile : Profile) →
        HasMeaning profile text.now → ¬ HasSomeFault profile text.now }
{
    meanings_exclude_faults();
    images_that_load_may_be_run();
    images_are_unique();
    let mut rest = text;
    while !rest.is_empty() {
        let (line, after) = first_line(rest);
        let _read = read_line(line);
        rest = after;
    }
}
