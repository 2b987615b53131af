//! Laws of what the commands write.

ghost use Rattle.std.specs.Prelude.{◌≡◌, ℕ, List, Bool};
ghost use Rattle.ocp_profile.specs.declared.profile.Profile.{Profile};
ghost use Rattle.ocp_commands.specs.Assembly.{Assembles};
ghost use Rattle.ocp_commands.specs.Listings.{Lists};

use bpf_assembler::laws as texts;
use bpf_listing::laws::listings_and_faults_are_unique;

/// An input of `list` has one output and one answer at most: it is a function of the input.
pub fn listings_are_unique()
    ensures { (input a b : List ℕ) (x y : Bool) → Lists input a x → Lists input b y →
        (a ≡ b) × (x ≡ y) }
{
    listings_and_faults_are_unique();
}

/// An input of `asm` has one output and one answer at most: it is a function of the profile and the
/// input.
pub fn assemblies_are_unique()
    ensures { (profile : Profile) (input a b : List ℕ) (x y : Bool) →
        Assembles profile input a x → Assembles profile input b y → (a ≡ b) × (x ≡ y) }
{
    texts::meanings_are_unique();
    texts::faults_are_unique();
    texts::meanings_exclude_faults();
}
