//! Laws of checkpoints. The functions do nothing when they run: their contracts are the laws.
ghost use Rattle.std.specs.Prelude.{◌≡◌, ◌++◌, ℕ, List, Ok};
ghost use Rattle.ocp_profile.specs.declared.profile.Profile.{Profile};
ghost use Rattle.ocp_table.specs.Records.{Rec};
ghost use Rattle.ocp_saved.specs.Format.{Checkpoint, procedure_octets, checkpoint_octets};
ghost use Rattle.ocp_saved.specs.Canonical.{NumbersAreTheirOctets, WordsAreTheirOctets};
ghost use Rattle.ocp_saved.specs.Fits.{IsEntry};
ghost use Rattle.ocp_saved.specs.Reading.{procedure_at};
ghost use Rattle.ocp_saved.specs.Restored.{IsCheckpoint, Refusal, checkpoint_at};

/// What was saved is read back: a procedure, whatever follows it, and a checkpoint.
pub fn checkpoints_are_read_back()
    ensures procedure { (profile : Profile) (e : ℕ × Rec) (rest : List ℕ) → IsEntry profile e →
        procedure_at profile (procedure_octets e ++ rest) ≡ Ok (e, rest) }
    ensures all { (refusal : Refusal) (c : Checkpoint) → IsCheckpoint refusal c →
        checkpoint_at refusal (checkpoint_octets c) ≡ Ok c }
{}

/// Octets that are read as a number are those of the number, and so are those that are read as
/// words: no value has two texts.
pub fn numbers_are_their_octets()
    ensures numbers { NumbersAreTheirOctets }
    ensures words { WordsAreTheirOctets }
{}
