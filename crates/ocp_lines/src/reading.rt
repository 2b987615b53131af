//! Reading a line.

ghost use Rattle.std.specs.Prelude.{◌≡◌, length, IfOk, IfSome, OnErr, IsTrue};
ghost use Rattle.std.specs.Option.{option_map};
ghost use Rattle.ocp_profile.specs.declared.profile.Profile.{Profile};
ghost use Rattle.ocp_lines.specs.Words.{words_of, number_up_to};
ghost use Rattle.ocp_lines.specs.Grammar.{Fits, meaning_of, from_one, up_in, send_in, put_in, memory_in, work_in, switch, trace_in, debugger_command_in, engine_command_in, id_and_steps, plain_command_in, command_of, takes_octets, send_takes_octets};

use crate::command::{Command, Count, Flags, MAX_OCTETS_LENGTH, MAX_STEPS, Shift};
use crate::verbs::request;
use crate::words::{
    address, is, last_octets, long, next_word, number, one_short, one_word, short, three_words,
    two_shorts, two_words,
};
use ocp_profile::Profile;
use std::alloc::{AllocError, Allocator};

/// The number that a word spells, if it is at least 1 and at most `MOST`.
fn count<const MOST: u32>(word: &[u8]) -> Option<Count<MOST>>
    ensures { option_map (λ count. count.number) result ≡ from_one (number_up_to MOST word.now) }
{
    let number = number(word, u64::from(MOST))?;
    if number == 0 {
        return None;
    }
    Some(Count {
        number: number as u32,
    })
}

fn up<'a, A: Allocator>(
    scratch: &'a mut Vec<u8, A>,
    arguments: &[u8],
) -> Result<Option<Command<'a>>, AllocError>
    ensures command { IfOk result
        (λ command. option_map meaning_of command ≡ up_in (words_of arguments.now)) }
    ensures memory { OnErr result (length (words_of arguments.now) ≡ 1) }
    ensures fits { (profile : Profile) → IfOk result (λ command. IfSome command (Fits profile)) }
{
    let packet = last_octets(scratch, arguments, MAX_OCTETS_LENGTH)?;
    Ok(packet.map(|packet| Command::Up(packet)))
}

fn send<'a, A: Allocator>(
    scratch: &'a mut Vec<u8, A>,
    profile: Profile,
    arguments: &'a [u8],
) -> Result<Option<Command<'a>>, AllocError>
    ensures command { IfOk result
        (λ command. option_map meaning_of command ≡ send_in profile (words_of arguments.now)) }
    ensures memory { OnErr result (IsTrue (send_takes_octets profile (words_of arguments.now))) }
    ensures fits { IfOk result (λ command. IfSome command (Fits profile)) }
{
    let Some((flags, rest)) = next_word(arguments) else {
        return Ok(None);
    };
    let (Some(flags), Some((name, rest))) = (number(flags, 15), next_word(rest)) else {
        return Ok(None);
    };
    match request(scratch, profile, name, rest)? {
        Some(request) => Ok(Some(Command::Send {
            flags: Flags {
                number: flags as u8,
            },
            request,
        })),
        None => Ok(None),
    }
}

fn put(arguments: &[u8]) -> Option<Command<'_>>
    ensures command { option_map meaning_of result ≡ put_in (words_of arguments.now) }
    ensures fits { (profile : Profile) → IfSome result (Fits profile) }
{
    let (index, value) = two_words(arguments)?;
    let index = number(index, u64::MAX)?;
    let value = number(value, u64::MAX)?;
    Some(Command::Put { index, value })
}

/// Whether a word is `on` or `off`.
fn switch(word: &[u8]) -> Option<bool>
    ensures { result ≡ switch word.now }
{
    if is(word, b"on") {
        Some(true)
    } else if is(word, b"off") {
        Some(false)
    } else {
        None
    }
}

fn trace(arguments: &[u8]) -> Option<Command<'_>>
    ensures command { option_map meaning_of result ≡ trace_in (words_of arguments.now) }
    ensures fits { (profile : Profile) → IfSome result (Fits profile) }
{
    if next_word(arguments).is_none() {
        return Some(Command::Traces);
    }
    let (id, word) = two_words(arguments)?;
    let id = short(id)?;
    let on = switch(word)?;
    Some(Command::Trace { id, on })
}

fn memory(arguments: &[u8]) -> Option<Command<'_>>
    ensures command { option_map meaning_of result ≡ memory_in (words_of arguments.now) }
    ensures fits { (profile : Profile) → IfSome result (Fits profile) }
{
    let (id, place, length) = three_words(arguments)?;
    let id = short(id)?;
    let address = address(place)?;
    let length = count(length)?;
    Some(Command::Memory {
        id,
        address,
        length,
    })
}

fn work(arguments: &[u8]) -> Option<Command<'_>>
    ensures command { option_map meaning_of result ≡ work_in (words_of arguments.now) }
    ensures fits { (profile : Profile) → IfSome result (Fits profile) }
{
    let (workers, budget, turns) = three_words(arguments)?;
    let workers = count(workers)?;
    let budget = count(budget)?;
    let turns = count(turns)?;
    Some(Command::Work(Shift {
        workers,
        budget,
        turns,
    }))
}

/// The debugger's command of this name with these arguments.
#[inline(always)]
fn debugger_command<'a>(name: &[u8], arguments: &'a [u8]) -> Option<Command<'a>>
    ensures command { option_map meaning_of result ≡
        debugger_command_in name.now (words_of arguments.now) }
    ensures fits { (profile : Profile) → IfSome result (Fits profile) }
{
    if is(name, b"break") {
        let (id, place) = two_shorts(arguments)?;
        Some(Command::Break { id, place })
    } else if is(name, b"unbreak") {
        let (id, place) = two_shorts(arguments)?;
        Some(Command::Unbreak { id, place })
    } else if is(name, b"trace") {
        trace(arguments)
    } else if is(name, b"view") {
        Some(Command::View(one_short(arguments)?))
    } else if is(name, b"mem") {
        memory(arguments)
    } else {
        None
    }
}

/// The command of this name with these arguments, if it is about the pool, the journal or workers,
/// or is the debugger's.
#[inline(always)]
fn engine_command<'a>(name: &[u8], arguments: &'a [u8]) -> Option<Command<'a>>
    ensures command { option_map meaning_of result ≡
        engine_command_in name.now (words_of arguments.now) }
    ensures fits { (profile : Profile) → IfSome result (Fits profile) }
{
    if is(name, b"pool") {
        Some(Command::Pool(number(one_word(arguments)?, u64::MAX)?))
    } else if is(name, b"put") {
        put(arguments)
    } else if is(name, b"journal") {
        next_word(arguments).is_none().then_some(Command::Journal)
    } else if is(name, b"drain") {
        next_word(arguments).is_none().then_some(Command::Drain)
    } else if is(name, b"work") {
        work(arguments)
    } else {
        debugger_command(name, arguments)
    }
}

/// The identifier and the number of instructions of a `step` or a `round` line.
#[inline(always)]
fn id_and_steps(arguments: &[u8]) -> Option<(u16, Count<MAX_STEPS>)>
    ensures { option_map (λ p. (p.0, p.1.number)) result ≡ id_and_steps (words_of arguments.now) }
{
    let (id, steps) = two_words(arguments)?;
    let id = short(id)?;
    Some((id, count(steps)?))
}

/// The command of this name with these arguments, which are no octets.
#[inline(always)]
fn plain_command<'a>(name: &[u8], arguments: &'a [u8]) -> Option<Command<'a>>
    ensures command { option_map meaning_of result ≡
        plain_command_in name.now (words_of arguments.now) }
    ensures fits { (profile : Profile) → IfSome result (Fits profile) }
{
    if is(name, b"time") {
        Some(Command::Time(long(one_word(arguments)?)?))
    } else if is(name, b"step") {
        let (id, steps) = id_and_steps(arguments)?;
        Some(Command::Step { id, steps })
    } else if is(name, b"round") {
        let (id, steps) = id_and_steps(arguments)?;
        Some(Command::Round { id, steps })
    } else {
        engine_command(name, arguments)
    }
}

/// The command of a line, without its newline, or `None` if it is no command. A line of spaces
/// alone is blank, and one whose first octet is `#` a comment: both do nothing. Words are separated
/// by spaces, numbers are decimal digits, and octets pairs of hexadecimal digits of both cases. An
/// activation has a budget under profile Two, and under One none. The octets that the line gives
/// replace the content of the scratch vector, and the command borrows them. Only memory is refused,
/// and only for a line with a word in the position of octets.
#[tactic(auto, unfolding(crate::specs::Grammar::command_of))]
pub fn read_command<'a, A: Allocator>(
    scratch: &'a mut Vec<u8, A>,
    profile: Profile,
    line: &'a [u8],
) -> Result<Option<Command<'a>>, AllocError>
    ensures command { IfOk result
        (λ command. option_map meaning_of command ≡ command_of profile line.now) }
    ensures memory { OnErr result (IsTrue (takes_octets profile (words_of line.now))) }
    // A request in it is one that a telecommand of the profile can carry.
    ensures fits { IfOk result (λ command. IfSome command (Fits profile)) }
{
    if line.starts_with(b"#") {
        return Ok(Some(Command::Nothing));
    }
    let Some((name, arguments)) = next_word(line) else {
        return Ok(Some(Command::Nothing));
    };
    if is(name, b"up") {
        up(scratch, arguments)
    } else if is(name, b"send") {
        send(scratch, profile, arguments)
    } else {
        Ok(plain_command(name, arguments))
    }
}
