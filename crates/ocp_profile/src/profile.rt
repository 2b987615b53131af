//! The profile.

ghost use Rattle.std.specs.Prelude.{◌≡◌};

/// A profile. Under Two an activation carries a budget of instructions, the work region has 4,096
/// octets, and there is an engine call that compares a word of the pool and sets it.
#[derive(Clone, Copy, PartialEq, Eq, Debug, Default)]
pub enum Profile {
    #[default]
    One,
    Two,
}

impl Profile {
    ghost use Rattle.ocp_profile.specs.Numbers.{number_of};

    /// The number of the profile.
    pub fn number(self) -> u8
        ensures { result ≡ number_of self }
    {
        match self {
            Profile::One => 1,
            Profile::Two => 2,
        }
    }
}
