//! An engine from the numbers that C gives.

ghost use Rattle.std.specs.Prelude.{◌≡◌, ◌≤◌, Ok, Err, IfOk, IsOk, OnOk, MatchResult};
ghost use Rattle.ocp_flight.specs.Flown.{Flown, opened_flown};
ghost use Rattle.ocp_c.specs.declared.status.Status.{Status as Refusal};
ghost use Rattle.ocp_c.specs.declared.status.Status.TheVariants as status;
ghost use Rattle.ocp_c.specs.Opening.{opening};

use crate::{OpenEngine, Status};
use ocp_flight::{Flight, MAX_OCTETS};
use ocp_profile::{MAX_APID, MAX_CAPACITY, MAX_POOL_WORDS, Profile};
use ocp_reports::PacketBuffer;
use std::alloc::Global;

/// The profile of an engine with these numbers. Refused, in this order, if the profile is not 1 or
/// 2, if the application process identifier is above 2,046, if the pool words are not 1 to 256, if
/// the entries are not 1 to 1,000,000, and if the octets are not 1 to 1,073,741,824.
#[tactic(auto, unfolding(crate::specs::Opening::opening))]
pub(crate) fn profile_of(
    profile: u32,
    apid: u32,
    words: u32,
    entries: u32,
    octets: u32,
) -> Result<Profile, Status>
    ensures refused { (why : Refusal) → opening profile apid words entries octets ≡ Err why →
        result ≡ Err why }
    ensures accepted { (flown : Flown) → opening profile apid words entries octets ≡ Ok flown →
        IsOk result }
    ensures opening { IfOk result (λ named. opening profile apid words entries octets ≡
        Ok (opened_flown named apid words entries octets)) }
    ensures apid { OnOk result (apid ≤ MAX_APID) }
    ensures words { OnOk result ((1 ≤ words) × (words ≤ MAX_POOL_WORDS)) }
    ensures entries { OnOk result ((1 ≤ entries) × (entries ≤ MAX_CAPACITY)) }
    ensures octets { OnOk result ((1 ≤ octets) × (octets ≤ MAX_OCTETS)) }
{
    let profile = match profile {
        1 => Profile::One,
        2 => Profile::Two,
        _ => return Err(Status::BadProfile),
    };
    if apid > u32::from(MAX_APID) {
        return Err(Status::BadApid);
    }
    if words < 1 || words > u32::from(MAX_POOL_WORDS) {
        return Err(Status::BadPoolWords);
    }
    if entries < 1 || entries > MAX_CAPACITY {
        return Err(Status::BadCapacity);
    }
    if octets < 1 || octets > MAX_OCTETS {
        return Err(Status::BadOctets);
    }
    Ok(profile)
}

/// An engine. Refused as `profile_of` is, and after that if there is no memory.
pub(crate) fn open(
    alloc: Global,
    profile: u32,
    apid: u32,
    words: u32,
    entries: u32,
    octets: u32,
) -> Result<Box<OpenEngine>, Status>
    ensures refused { (why : Refusal) → opening profile apid words entries octets ≡ Err why →
        result ≡ Err why }
    ensures made { (flown : Flown) → opening profile apid words entries octets ≡ Ok flown →
        MatchResult result (λ held. held.value ≡ flown) (λ why. why ≡ status.Memory) }
{
    let profile = profile_of(profile, apid, words, entries, octets)?;
    let Ok(engine) = Flight::new(alloc, profile, apid as u16, words as u16, entries, octets) else {
        return Err(Status::Memory);
    };
    let Ok(packets) = PacketBuffer::new(alloc) else {
        return Err(Status::Memory);
    };
    match Box::new(alloc, OpenEngine { engine, packets }) {
        Ok(held) => Ok(held),
        Err(_) => Err(Status::Memory),
    }
}
