//! What the program is to do.

ghost use Rattle.std.specs.Prelude.{◌≡◌, ◌≤◌, ◌↔◌, IsSome, IfSome};
ghost use Rattle.ocp_profile.specs.declared.limits.TheConstants.{MAX_APID, MAX_POOL_WORDS, MAX_CAPACITY};

use clap::Error;
use ocp_profile::{MAX_APID, MAX_CAPACITY, MAX_POOL_WORDS, Profile};

/// The settings of a run of the console.
#[derive(Clone, Copy)]
pub struct Settings {
    /// The profile that the engine follows.
    pub profile: Profile,
    /// The engine's application process identifier, 0 to 2,046.
    pub apid: u16,
    /// The number of words of the pool, 1 to 256.
    pub pool_words: u16,
    /// The number of entries that the journal takes, 1 to 1,000,000.
    pub capacity: u32,
    pub ghost apid_in_range: { apid ≤ MAX_APID },
    pub ghost pool_in_range: { (1 ≤ pool_words) × (pool_words ≤ MAX_POOL_WORDS) },
    pub ghost capacity_in_range: { (1 ≤ capacity) × (capacity ≤ MAX_CAPACITY) },
}

impl Settings {
    /// The profile and these numbers, if each is in its range.
    pub fn new(profile: Profile, apid: u16, pool_words: u16, capacity: u32) -> Option<Settings>
        ensures some { IsSome result ↔
            ((apid ≤ MAX_APID) × ((1 ≤ pool_words) × (pool_words ≤ MAX_POOL_WORDS)) ×
            ((1 ≤ capacity) × (capacity ≤ MAX_CAPACITY))) }
        ensures numbers { IfSome result (λ s.
            (s.profile ≡ profile) × (s.apid ≡ apid) × (s.pool_words ≡ pool_words)
            × (s.capacity ≡ capacity)) }
    {
        let pool_fits = 1 <= pool_words && pool_words <= MAX_POOL_WORDS;
        let capacity_fits = 1 <= capacity && capacity <= MAX_CAPACITY;
        if apid <= MAX_APID && pool_fits && capacity_fits {
            Some(Settings {
                profile,
                apid,
                pool_words,
                capacity,
            })
        } else {
            None
        }
    }
}

/// The settings of a check of an image.
#[derive(Clone, Copy)]
pub struct CheckSettings {
    /// The profile under which the image is loaded.
    pub profile: Profile,
    /// The number of words of the pool, 1 to 256.
    pub pool_words: u16,
}

/// What the program is to do.
#[derive(Clone, Copy)]
pub enum Job {
    /// Assembly text in, its image under the profile in hexadecimal digits out.
    Assemble(Profile),
    /// An image in hexadecimal digits in, what no run of it ever does out.
    Check(CheckSettings),
    /// An image in hexadecimal digits in, its listing out.
    List,
    /// A script in, its transcript out.
    Run(Settings),
}

/// Why the words are no job: `Usage` is `clap`'s own fault, which is also how it answers a call for
/// help.
#[derive(Debug, Drop, thiserror::Error)]
pub enum WordsFault {
    #[error("{0}")]
    Usage(Error),
    #[error("out of memory")]
    Memory,
}
