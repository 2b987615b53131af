//! Laws on spellings and faults. The functions do nothing when they run.
ghost use Rattle.std.specs.Prelude.{◌≡◌, ◌%◌, ℕ, List, length, Result, Ok, Err};
ghost use Rattle.bpf_types.specs.declared.line.Line.{Line};
ghost use Rattle.bpf_types.specs.Line.{Spells, WritesFramePointer};
ghost use Rattle.bpf_decode.specs.declared.fault.DecodeFault.{DecodeFault};
ghost use Rattle.bpf_decode.specs.Mirror.Decoding.{decode_result};
ghost use Rattle.bpf_decode.specs.Decoding.{BeginsWith};
ghost use Rattle.bpf_decode.specs.Faults.{IsFirst, AreOctets, Decodes};
ghost use Rattle.bpf_decode.specs.Images.{IsImageOf, HasFaultAt, NoneWritesFramePointer};

/// A spelling determines its line, and a line its spelling.
pub fn spellings_are_unique()
    ensures one_line { (octets : List ℕ) (a b : Line) → Spells octets a → Spells octets b → a ≡ b }
    ensures one_spelling { (a b : List ℕ) (line : Line) → Spells a line → Spells b line → a ≡ b }
{}

/// Octets begin with one instruction at most, so that no spelling begins another one; and an
/// instruction that has a fault writes R10.
pub fn instructions_are_unique()
    ensures one { (octets : List ℕ) (a b : Line) → BeginsWith octets a → BeginsWith octets b →
        a ≡ b }
    ensures no_fault { (octets : List ℕ) (fault : DecodeFault) (line : Line) →
        IsFirst fault octets → BeginsWith octets line → WritesFramePointer line }
{}

/// Octets that begin with an instruction that does not write R10 are decoded as that instruction.
pub fn instructions_are_decoded()
    ensures { (octets : List ℕ) (line : Line) → BeginsWith octets line → ¬ WritesFramePointer line →
        decode_result octets ≡ Ok line }
{}

/// Octets that begin with an instruction that writes R10 are refused as such.
pub fn writes_of_the_frame_pointer_are_refused()
    ensures { (octets : List ℕ) (line : Line) → BeginsWith octets line → WritesFramePointer line →
        decode_result octets ≡ Err DecodeFault.WritesFramePointer }
{}

/// Octets are decoded as one instruction, or as one fault, and not as another.
pub fn octets_are_decoded_one_way()
    ensures some { (octets : List ℕ) → AreOctets octets →
        (result : Result Line DecodeFault) × Decodes octets result }
    ensures one { (octets : List ℕ) (a b : Result Line DecodeFault) → Decodes octets a →
        Decodes octets b → a ≡ b }
{}

/// An image is that of one list of instructions at most.
pub fn images_are_unique()
    ensures { (image : List ℕ) (a b : List Line) → IsImageOf image a → IsImageOf image b → a ≡ b }
{}

/// An image is of whole slots.
pub fn images_are_whole_slots()
    ensures { (image : List ℕ) (lines : List Line) → IsImageOf image lines → length image % 8 ≡ 0 }
{}

/// An image of instructions that may be loaded has no fault, and any octets have one first fault
/// at one slot at most.
pub fn faults_of_images_are_unique()
    ensures none { (image : List ℕ) (lines : List Line) (slot : ℕ) (fault : DecodeFault) →
        IsImageOf image lines → NoneWritesFramePointer lines → ¬ HasFaultAt image slot fault }
    ensures one { (image : List ℕ) (s t : ℕ) (a b : DecodeFault) → HasFaultAt image s a →
        HasFaultAt image t b → (a ≡ b) × (s ≡ t) }
{}
