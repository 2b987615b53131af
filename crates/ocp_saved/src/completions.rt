//! Completions: those that wait, and where each goes.
ghost use Rattle.std.specs.Prelude.{◌≡◌, ◌≤◌, ◌*◌, ◌+◌, [], length};
ghost use Rattle.std.specs.List.{flat_map};
ghost use Rattle.ocp_saved.specs.Format.{due_octets, failure_number, origin_octets, outbox_octets};
ghost use Rattle.ocp_saved.specs.Reading.{Gives, due_at, more_dues_at, origin_at, origin_in, outbox_at, more_times};

use crate::RestoreFault;
use crate::fields::{MAX_FLAGS, put_u16, put_u64, u8_up_to};
use arrayvec::ArrayVec;
use bitflags::Flags;
use byteorder::{BigEndian, ByteOrder};
use ocp_table::{CompletionFailure, Due, OUTBOX_PLACES, PendingOrigin};
use pus_fields::Ack;

/// How many octets an origin has.
pub(crate) const ORIGIN_LENGTH: usize = 15;

/// How many octets a completion has.
const DUE_LENGTH: usize = 16;

// An origin, of any flags.
fn origin_in(octets: &[u8]) -> PendingOrigin
    requires { ORIGIN_LENGTH ≤ length octets.now }
    ensures { result ≡ origin_in octets.now }
{
    PendingOrigin {
        event: BigEndian::read_u64(octets),
        request: [octets[8], octets[9], octets[10], octets[11]],
        source: BigEndian::read_u16(&octets[12..]),
        ack: Ack::from_bits_retain(octets[14]),
    }
}

/// An origin. Refused for this reason if it has other flags than the four that there are.
#[tactic(auto, unfolding(crate::specs::Reading::origin_at))]
pub(crate) fn origin_at(
    why: RestoreFault,
    octets: &[u8],
) -> Result<(PendingOrigin, &[u8]), RestoreFault>
    ensures { Gives (λ x. (x.0, x.1.now)) result (origin_at why octets.now) }
{
    if octets.len() < ORIGIN_LENGTH {
        return Err(RestoreFault::Short);
    }
    if octets[14] > MAX_FLAGS {
        return Err(why);
    }
    let (_, rest) = octets.split_at(ORIGIN_LENGTH);
    Ok((origin_in(octets), rest))
}

// A completion.
#[tactic(auto, unfolding(crate::specs::Reading::due_at))]
fn due_at(octets: &[u8]) -> Result<(Due, &[u8]), RestoreFault>
    ensures { Gives (λ x. (x.0, x.1.now)) result (due_at octets.now) }
{
    let (origin, rest) = origin_at(RestoreFault::Ack, octets)?;
    let (number, rest) = u8_up_to(1, RestoreFault::Due, rest)?;
    let failure = if number == 0 {
        None
    } else {
        Some(CompletionFailure::Overtaken)
    };
    Ok((Due { origin, failure }, rest))
}

// A number of completions.
fn dues_at(count: u8, octets: &[u8]) -> Result<(ArrayVec<Due, OUTBOX_PLACES>, &[u8]), RestoreFault>
    requires { count ≤ OUTBOX_PLACES }
    ensures { Gives (λ x. (x.0.items, x.1.now)) result
        (more_times more_dues_at count [] octets.now) }
{
    let mut dues = ArrayVec::new();
    let mut rest = octets;
    for _ in 0..count {
        let (due, after) = due_at(rest)?;
        dues.push(due);
        rest = after;
    }
    Ok((dues, rest))
}

/// The completions that wait, the oldest first, with their number before them.
#[tactic(auto, unfolding(crate::specs::Reading::outbox_at, crate::specs::Reading::number_up_to))]
pub fn outbox_at(octets: &[u8]) -> Result<(ArrayVec<Due, OUTBOX_PLACES>, &[u8]), RestoreFault>
    ensures { Gives (λ x. (x.0.items, x.1.now)) result (outbox_at octets.now) }
{
    let (count, rest) = u8_up_to(OUTBOX_PLACES as u8, RestoreFault::Outbox, octets)?;
    dues_at(count, rest)
}

/// How many octets an origin has.
pub(crate) fn origin_length(origin: &PendingOrigin) -> usize
    ensures value { result ≡ length (origin_octets origin.now) }
    ensures fixed { result ≡ ORIGIN_LENGTH }
{
    let request = origin.request;
    11 + request.len()
}

/// Writes an origin.
pub(crate) fn put_origin(out: &mut [u8], origin: &PendingOrigin)
    requires { length out.old ≡ length (origin_octets origin.now) }
    ensures { out.new ≡ origin_octets origin.now }
{
    let (event, out) = out.split_at_mut(8);
    put_u64(event, origin.event);
    let (request, out) = out.split_at_mut(origin.request.len());
    request.copy_from_slice(&origin.request);
    let (source, ack) = out.split_at_mut(2);
    put_u16(source, origin.source);
    ack.copy_from_slice(&[origin.ack.bits()]);
}

// The number of a failure.
fn failure_number(failure: Option<CompletionFailure>) -> u8
    ensures { result ≡ failure_number failure }
{
    match failure {
        None => 0,
        Some(_) => 1,
    }
}

// Writes a completion.
#[tactic(auto, unfolding(crate::specs::Format::due_octets))]
fn put_due(out: &mut [u8], due: &Due)
    requires { length out.old ≡ DUE_LENGTH }
    ensures { out.new ≡ due_octets due.now }
{
    let (origin, failure) = out.split_at_mut(origin_length(&due.origin));
    put_origin(origin, &due.origin);
    failure.copy_from_slice(&[failure_number(due.failure)]);
}

// Writes completions.
fn put_dues(out: &mut [u8], dues: &[Due])
    requires { length out.old ≡ DUE_LENGTH * length dues.now }
    ensures { out.new ≡ flat_map due_octets dues.now }
{
    for index in 0..dues.len() {
        let at = DUE_LENGTH * index;
        put_due(&mut out[at..at + DUE_LENGTH], &dues[index]);
    }
}

/// How many octets the completions that wait have, with their number before them.
pub fn outbox_length(outbox: &[Due]) -> usize
    requires { length outbox.now ≤ OUTBOX_PLACES }
    ensures { result ≡ 1 + DUE_LENGTH * length outbox.now }
{
    1 + DUE_LENGTH * outbox.len()
}

/// Writes the completions that wait, with their number before them.
pub fn put_outbox(out: &mut [u8], outbox: &[Due])
    requires few { length outbox.now ≤ OUTBOX_PLACES }
    requires exact { length out.old ≡ 1 + DUE_LENGTH * length outbox.now }
    ensures { out.new ≡ outbox_octets outbox.now }
{
    let (count, dues) = out.split_at_mut(1);
    count[0] = outbox.len() as u8;
    put_dues(dues, outbox);
}
