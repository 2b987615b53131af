//! The header of a checkpoint.
ghost use Rattle.std.specs.Prelude.{◌≡◌, length};
ghost use Rattle.ocp_saved.specs.Format.{header_octets};
ghost use Rattle.ocp_saved.specs.Reading.{Gives, header_at, profile_at, version_at};

use crate::RestoreFault;
use crate::fields::{put_u16, put_u64, u8_at, u16_up_to, u64_up_to};
use ocp_profile::{MAX_APID, Profile};
use space_packet::SEQUENCE_COUNTS;

/// How many octets the header has.
pub const HEADER_LENGTH: usize = 22;

/// The version of the format.
const VERSION: u8 = 1;

/// The most events of an engine.
const MAX_EVENTS: u64 = 0x7FFF_FFFF_FFFF_FFFF;

/// What is kept of an engine beside its pool, its outbox and its procedures.
#[derive(Clone, Copy)]
pub struct Header {
    pub profile: Profile,
    /// The application process identifier, at most 2,046.
    pub apid: u16,
    /// The sequence count of the next report, below 16,384.
    pub count: u16,
    /// How many events there were, below 2^63.
    pub events: u64,
    /// How many entries of the journal there were, at most the events.
    pub entries: u64,
}

// The version.
fn version_at(octets: &[u8]) -> Result<(u8, &[u8]), RestoreFault>
    ensures { Gives (λ x. (x.0, x.1.now)) result (version_at octets.now) }
{
    let (version, rest) = u8_at(octets)?;
    if version == VERSION {
        Ok((version, rest))
    } else {
        Err(RestoreFault::Version)
    }
}

// The profile.
#[tactic(auto, unfolding(crate::specs::Reading::profile_at))]
fn profile_at(octets: &[u8]) -> Result<(Profile, &[u8]), RestoreFault>
    ensures { Gives (λ x. (x.0, x.1.now)) result (profile_at octets.now) }
{
    let (number, rest) = u8_at(octets)?;
    match number {
        1 => Ok((Profile::One, rest)),
        2 => Ok((Profile::Two, rest)),
        _ => Err(RestoreFault::Profile),
    }
}

/// The header.
#[tactic(auto, unfolding(crate::specs::Reading::header_at))]
pub fn header_at(octets: &[u8]) -> Result<(Header, &[u8]), RestoreFault>
    ensures { Gives (λ x. (x.0, x.1.now)) result (header_at octets.now) }
{
    let (_, rest) = version_at(octets)?;
    let (profile, rest) = profile_at(rest)?;
    let (apid, rest) = u16_up_to(MAX_APID, RestoreFault::Apid, rest)?;
    let (count, rest) = u16_up_to(SEQUENCE_COUNTS - 1, RestoreFault::Count, rest)?;
    let (events, rest) = u64_up_to(MAX_EVENTS, RestoreFault::Events, rest)?;
    let (entries, rest) = u64_up_to(events, RestoreFault::Entries, rest)?;
    let header = Header {
        profile,
        apid,
        count,
        events,
        entries,
    };
    Ok((header, rest))
}

/// Writes the header.
pub fn put_header(out: &mut [u8], header: &Header)
    requires { length out.old ≡ HEADER_LENGTH }
    ensures { out.new ≡ header_octets header.now }
{
    let (first, out) = out.split_at_mut(2);
    first[0] = VERSION;
    first[1] = header.profile.number();
    let (apid, out) = out.split_at_mut(2);
    put_u16(apid, header.apid);
    let (count, out) = out.split_at_mut(2);
    put_u16(count, header.count);
    let (events, entries) = out.split_at_mut(8);
    put_u64(events, header.events);
    put_u64(entries, header.entries);
}
