//! Reading a request.

ghost use Rattle.std.specs.Prelude.{◌≡◌, ◌≤◌, ◌+◌, ◌*◌, ◌==◌, if◌then◌else◌, length, drop, Ok, Err, MatchResult, IfOk, IfErr, IsTrue, IsFalse};
ghost use Rattle.byteorder.specs.Endian.{big_number};
ghost use Rattle.obcp_messages.specs.Fields.{numbers};
ghost use Rattle.obcp_messages.specs.Reading.{activation_in, is_counted, with_budget, with_octets, with_words, request_in, request_of};
ghost use Rattle.obcp_messages.specs.Request.{IsRequestData, HasRequestFault};
ghost use Rattle.obcp_messages.specs.declared.request.Request.{Request};
ghost use Rattle.obcp_messages.specs.declared.payload.TheConstants.{MAX_CODE_LENGTH};
ghost use Rattle.obcp_types.specs.declared.failure.RequestFault.TheVariants.{Layout};
ghost use Rattle.ocp_profile.specs.declared.profile.Profile.TheVariants.{One};

use crate::payload::{Arguments, Code, MAX_WORDS, Words};
use crate::request::{Request, SERVICE};
use arrayvec::ArrayVec;
use byteorder::{BigEndian, ByteOrder};
use obcp_types::RequestFault;
use ocp_profile::Profile;
use pus_fields::Tc;

/// The one field of data that are an identifier alone.
fn id_alone(octets: &[u8]) -> Result<u16, RequestFault>
    ensures { result ≡
        (if length octets.now == 2 then Ok (big_number 2 octets.now) else Err Layout) }
{
    if octets.len() != 2 {
        return Err(RequestFault::Layout);
    }
    Ok(BigEndian::read_u16(octets))
}

/// The fields of data that are an identifier and a step.
fn id_and_step(octets: &[u8]) -> Result<(u16, u16), RequestFault>
    ensures { result ≡ (if length octets.now == 4
        then Ok (big_number 2 octets.now, big_number 2 (drop 2 octets.now)) else Err Layout) }
{
    if octets.len() != 4 {
        return Err(RequestFault::Layout);
    }
    Ok((
        BigEndian::read_u16(octets),
        BigEndian::read_u16(&octets[2..]),
    ))
}

/// The octets after their number, which follows the first `before` octets, if they are that many.
fn counted_octets(octets: &[u8], before: usize) -> Result<&[u8], RequestFault>
    requires { before ≤ 6 }
    ensures { MatchResult result
        (λ rest. IsTrue (is_counted before octets.now) × (rest.now ≡ drop (before + 2) octets.now))
        (λ fault. (fault ≡ Layout) × IsFalse (is_counted before octets.now)) }
{
    if octets.len() < before + 2 {
        return Err(RequestFault::Layout);
    }
    let rest = &octets[before + 2..];
    if rest.len() != BigEndian::read_u16(&octets[before..]) as usize {
        return Err(RequestFault::Layout);
    }
    Ok(rest)
}

fn load(octets: &[u8]) -> Result<Request<'_>, RequestFault>
    ensures { result ≡ with_octets MAX_CODE_LENGTH Request.Load octets.now }
{
    let code = Code::new(counted_octets(octets, 2)?).ok_or(RequestFault::Layout)?;
    let id = BigEndian::read_u16(octets);
    Ok(Request::Load { id, code })
}

/// An activation with no field for a budget.
fn activate(octets: &[u8]) -> Result<Request<'_>, RequestFault>
    ensures { result ≡ activation_in One octets.now }
{
    let arguments = Arguments::new(counted_octets(octets, 2)?).ok_or(RequestFault::Layout)?;
    let id = BigEndian::read_u16(octets);
    Ok(Request::Activate {
        id,
        budget: 0,
        arguments,
    })
}

/// An activation with a budget.
fn activate_with_budget(octets: &[u8]) -> Result<Request<'_>, RequestFault>
    ensures { result ≡ with_budget octets.now }
{
    let arguments = Arguments::new(counted_octets(octets, 6)?).ok_or(RequestFault::Layout)?;
    let id = BigEndian::read_u16(octets);
    let budget = BigEndian::read_u32(&octets[2..]);
    Ok(Request::Activate {
        id,
        budget,
        arguments,
    })
}

/// The words in `count` times 8 octets.
fn words_in(octets: &[u8], count: usize) -> ArrayVec<u64, MAX_WORDS>
    requires most { count ≤ MAX_WORDS }
    requires whole { length octets.now ≡ 8 * count }
    ensures { result.items ≡ numbers 8 count octets.now }
{
    let mut words = ArrayVec::new();
    for i in 0..count {
        words.push(BigEndian::read_u64(&octets[8 * i..]));
    }
    words
}

fn communicate(octets: &[u8]) -> Result<Request<'_>, RequestFault>
    ensures { result ≡ with_words octets.now }
{
    if octets.len() < 3 {
        return Err(RequestFault::Layout);
    }
    let count = octets[2] as usize;
    let rest = &octets[3..];
    if count > MAX_WORDS || rest.len() != 8 * count {
        return Err(RequestFault::Layout);
    }
    let words = Words::new(words_in(rest, count)).ok_or(RequestFault::Layout)?;
    let id = BigEndian::read_u16(octets);
    Ok(Request::Communicate { id, words })
}

/// The request of this subtype that the data are.
fn request_in(profile: Profile, subtype: u8, octets: &[u8]) -> Result<Request<'_>, RequestFault>
    ensures { result ≡ request_in profile subtype octets.now }
{
    match subtype {
        1 => load(octets),
        2 => Ok(Request::Unload {
            id: id_alone(octets)?,
        }),
        3 => match profile {
            Profile::One => activate(octets),
            Profile::Two => activate_with_budget(octets),
        },
        4 => {
            let (id, step) = id_and_step(octets)?;
            Ok(Request::Stop { id, step })
        }
        5 => {
            let (id, step) = id_and_step(octets)?;
            Ok(Request::Suspend { id, step })
        }
        6 => Ok(Request::Resume {
            id: id_alone(octets)?,
        }),
        7 => communicate(octets),
        8 if octets.is_empty() => Ok(Request::Status),
        8 => Err(RequestFault::Layout),
        12 => Ok(Request::Abort {
            id: id_alone(octets)?,
        }),
        _ => Err(RequestFault::Subtype),
    }
}

/// The request of this service and subtype that the data are.
fn request_of(
    profile: Profile,
    service: u8,
    subtype: u8,
    octets: &[u8],
) -> Result<Request<'_>, RequestFault>
    ensures found { IfOk result (IsRequestData profile service subtype octets.now) }
    ensures value { result ≡ request_of profile service subtype octets.now }
{
    if service != SERVICE {
        return Err(RequestFault::Service);
    }
    request_in(profile, subtype, octets)
}

/// The request that a telecommand carries. Refused as `Service` if the service is not 18, else as
/// `Subtype` if the subtype is no request's, else as `Layout` if the data have another length than
/// the request's fields, or a number is out of its range (ECSS-E-ST-70-41C, 8.18). An activation
/// has a field for its budget under profile Two, and none under One, which reads the budget as 0.
pub fn read_request<'a>(profile: Profile, tc: &Tc<'a>) -> Result<Request<'a>, RequestFault>
    ensures found { IfOk result
        (IsRequestData profile tc.now.service tc.now.subtype tc.now.payload) }
    ensures only { (request : Request) →
        IsRequestData profile tc.now.service tc.now.subtype tc.now.payload request →
        result ≡ Ok request }
    ensures fault { IfErr result
        (HasRequestFault profile tc.now.service tc.now.subtype tc.now.payload) }
    // The same as a function, for definitions over the octets of requests.
    ensures reads { result ≡ request_of profile tc.now.service tc.now.subtype tc.now.payload }
{
    request_of(profile, tc.service, tc.subtype, tc.payload)
}
