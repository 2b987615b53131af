//! The verbs of a `send` line.

ghost use Rattle.std.specs.Prelude.{◌≡◌, ◌≤◌, None, Some, length, IfOk, IfSome, MatchOption, OnErr, IsTrue};
ghost use Rattle.ocp_profile.specs.declared.profile.Profile.{Profile};
ghost use Rattle.ocp_lines.specs.Words.{words_of};
ghost use Rattle.ocp_lines.specs.Grammar.{IsCarried, parameters_in, load_in, budget_in, activation_words, activate_in, communicate_in, other_verb_in, plain_verb_in, verb_in, verb_takes_octets};

use crate::command::MAX_OCTETS_LENGTH;
use crate::words::{is, last_octets, long, next_word, number, one_short, short, two_shorts};
use arrayvec::ArrayVec;
use obcp_messages::{Arguments, Code, MAX_ARGUMENTS_LENGTH, MAX_WORDS, Request, Words};
use ocp_profile::Profile;
use std::alloc::{AllocError, Allocator};

/// Numbers, 1 to 8.
fn parameters(text: &[u8]) -> Option<Words>
    ensures words { result ≡ parameters_in (words_of text.now) }
    ensures few { IfSome result (λ words. length words ≤ MAX_WORDS) }
{
    let mut numbers = ArrayVec::<u64, MAX_WORDS>::new();
    let mut rest = text;
    while let Some((word, after)) = next_word(rest) {
        let value = number(word, u64::MAX)?;
        if numbers.is_full() {
            return None;
        }
        numbers.push(value);
        rest = after;
    }
    Words::new(numbers)
}

fn load<'a, A: Allocator>(
    scratch: &'a mut Vec<u8, A>,
    arguments: &[u8],
) -> Result<Option<Request<'a>>, AllocError>
    ensures request { IfOk result (λ request. request ≡ load_in (words_of arguments.now)) }
    ensures memory { OnErr result (length (words_of arguments.now) ≡ 2) }
    ensures fits { (profile : Profile) →
        IfOk result (λ request. IfSome request (IsCarried profile)) }
{
    let Some((id, rest)) = next_word(arguments) else {
        return Ok(None);
    };
    let Some(id) = short(id) else {
        return Ok(None);
    };
    match last_octets(scratch, rest, MAX_OCTETS_LENGTH)? {
        Some(octets) => Ok(Code::new(octets).map(|code| Request::Load { id, code })),
        None => Ok(None),
    }
}

/// The budget of an activation, and what follows it: under profile Two a word gives it, and
/// under One there is none, which is 0.
fn budget(profile: Profile, text: &[u8]) -> Option<(u32, &[u8])>
    ensures { MatchOption result (budget_in profile (words_of text.now) ≡ None)
        (λ found. budget_in profile (words_of text.now) ≡ Some (found.0, words_of found.1.now)) }
{
    match profile {
        Profile::One => Some((0, text)),
        Profile::Two => {
            let (word, rest) = next_word(text)?;
            Some((long(word)?, rest))
        }
    }
}

fn activate<'a, A: Allocator>(
    scratch: &'a mut Vec<u8, A>,
    profile: Profile,
    arguments: &[u8],
) -> Result<Option<Request<'a>>, AllocError>
    ensures request { IfOk result
        (λ request. request ≡ activate_in profile (words_of arguments.now)) }
    ensures memory { OnErr result
        (length (words_of arguments.now) ≡ activation_words profile) }
    ensures fits { IfOk result (λ request. IfSome request (IsCarried profile)) }
{
    let Some((id, rest)) = next_word(arguments) else {
        return Ok(None);
    };
    let (Some(id), Some((budget, rest))) = (short(id), budget(profile, rest)) else {
        return Ok(None);
    };
    match last_octets(scratch, rest, MAX_ARGUMENTS_LENGTH)? {
        Some(octets) => Ok(Arguments::new(octets).map(|arguments| Request::Activate {
            id,
            budget,
            arguments,
        })),
        None => Ok(None),
    }
}

fn communicate(arguments: &[u8]) -> Option<Request<'_>>
    ensures request { result ≡ communicate_in (words_of arguments.now) }
    ensures fits { (profile : Profile) → IfSome result (IsCarried profile) }
{
    let (id, rest) = next_word(arguments)?;
    let id = short(id)?;
    let words = parameters(rest)?;
    Some(Request::Communicate { id, words })
}

/// The request of this name with these arguments, if it is one of four that have no octets.
#[inline(always)]
fn other_request<'a>(name: &[u8], arguments: &'a [u8]) -> Option<Request<'a>>
    ensures request { result ≡ other_verb_in name.now (words_of arguments.now) }
    ensures fits { (profile : Profile) → IfSome result (IsCarried profile) }
{
    if is(name, b"resume") {
        Some(Request::Resume {
            id: one_short(arguments)?,
        })
    } else if is(name, b"abort") {
        Some(Request::Abort {
            id: one_short(arguments)?,
        })
    } else if is(name, b"communicate") {
        communicate(arguments)
    } else if is(name, b"status") {
        next_word(arguments).is_none().then_some(Request::Status)
    } else {
        None
    }
}

/// The request of this name with these arguments, which are no octets.
#[inline(always)]
fn plain_request<'a>(name: &[u8], arguments: &'a [u8]) -> Option<Request<'a>>
    ensures request { result ≡ plain_verb_in name.now (words_of arguments.now) }
    ensures fits { (profile : Profile) → IfSome result (IsCarried profile) }
{
    if is(name, b"unload") {
        Some(Request::Unload {
            id: one_short(arguments)?,
        })
    } else if is(name, b"stop") {
        let (id, step) = two_shorts(arguments)?;
        Some(Request::Stop { id, step })
    } else if is(name, b"suspend") {
        let (id, step) = two_shorts(arguments)?;
        Some(Request::Suspend { id, step })
    } else {
        other_request(name, arguments)
    }
}

/// The request of this name with these arguments. The scratch vector holds its octets.
pub(crate) fn request<'a, A: Allocator>(
    scratch: &'a mut Vec<u8, A>,
    profile: Profile,
    name: &[u8],
    arguments: &'a [u8],
) -> Result<Option<Request<'a>>, AllocError>
    ensures request { IfOk result
        (λ request. request ≡ verb_in profile name.now (words_of arguments.now)) }
    ensures memory { OnErr result
        (IsTrue (verb_takes_octets profile name.now (words_of arguments.now))) }
    ensures fits { IfOk result (λ request. IfSome request (IsCarried profile)) }
{
    if is(name, b"load") {
        load(scratch, arguments)
    } else if is(name, b"activate") {
        activate(scratch, profile, arguments)
    } else {
        Ok(plain_request(name, arguments))
    }
}
