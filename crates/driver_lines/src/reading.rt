//! The words of a line, and what a word says.

use hex::FromHexError;
use ocp_profile::Profile;
use std::alloc::{AllocError, AllocFailed, Global};
use std::num::ParseIntError;
use std::str::FromStr;

/// Why a line has no answer.
#[derive(Clone, Copy, Debug)]
pub enum Fault {
    /// It is no call, or an argument is none of this call's.
    Syntax,
    /// The library's call was refused memory.
    Memory,
    /// The program was refused memory, for the line's words or for its answer.
    Program,
}

impl From<AllocError> for Fault {
    fn from(_error: AllocError) -> Fault {
        Fault::Program
    }
}

impl<T: Drop> From<AllocFailed<T>> for Fault {
    fn from(_error: AllocFailed<T>) -> Fault {
        Fault::Program
    }
}

impl From<ParseIntError> for Fault {
    fn from(_error: ParseIntError) -> Fault {
        Fault::Syntax
    }
}

impl From<FromHexError> for Fault {
    fn from(error: FromHexError) -> Fault {
        match error {
            FromHexError::OutOfMemory => Fault::Program,
            _ => Fault::Syntax,
        }
    }
}

/// What a library's call gave whose one refusal is that of memory.
pub fn or_memory<T: Drop>(done: Result<T, AllocError>) -> Result<T, Fault> {
    match done {
        Ok(value) => Ok(value),
        Err(_) => Err(Fault::Memory),
    }
}

/// The words of a line: the parts between spaces. A space between double quotes is part of its
/// word.
pub(crate) fn words<'a>(alloc: Global, line: &'a str) -> Result<Vec<&'a str>, Fault> {
    let mut words = Vec::new(alloc);
    let mut start = 0usize;
    let mut is_quoted = false;
    for (place, octet) in line.bytes().enumerate() {
        if octet == b'"' {
            is_quoted = !is_quoted;
        }
        if octet == b' ' && !is_quoted {
            add_word(line.get(start..place), &mut words)?;
            start = place.saturating_add(1);
        }
    }
    add_word(line.get(start..), &mut words)?;
    Ok(words)
}

/// Adds a word, if there is one.
fn add_word<'a>(word: Option<&'a str>, words: &mut Vec<&'a str>) -> Result<(), Fault> {
    match word {
        Some(word) if !word.is_empty() => Ok(words.push(word)?),
        _ => Ok(()),
    }
}

/// The octets that a word says: `-` none, else those of its pieces.
pub fn octets(alloc: Global, word: &str) -> Result<Vec<u8>, Fault> {
    let mut octets = Vec::new(alloc);
    if word == "-" {
        return Ok(octets);
    }
    for piece in word.split('|') {
        add_piece(alloc, piece, &mut octets)?;
    }
    Ok(octets)
}

/// Adds the octets of a piece: hexadecimal digits, or a text between double quotes, each `N` times
/// if `*N` follows.
fn add_piece(alloc: Global, piece: &str, octets: &mut Vec<u8>) -> Result<(), Fault> {
    let (once, count) = match piece.rsplit_once('*') {
        Some((front, count)) => (front, count.parse::<u32>()?),
        None => (piece, 1),
    };
    let added = match once.strip_prefix('"') {
        Some(text) => text_octets(alloc, text)?,
        None => hex::decode(alloc, once)?,
    };
    for _ in 0..count {
        octets.extend_from_slice(&added)?;
    }
    Ok(())
}

/// The octets of a text up to its closing quote. After a backslash `n`, `r` and `t` are a line
/// feed, a carriage return and a tab, and any other octet is itself.
fn text_octets(alloc: Global, text: &str) -> Result<Vec<u8>, Fault> {
    let inner = text.strip_suffix('"').ok_or(Fault::Syntax)?;
    let mut octets = Vec::new(alloc);
    let mut is_escaped = false;
    for octet in inner.bytes() {
        if octet == b'\\' && !is_escaped {
            is_escaped = true;
        } else {
            octets.push(if is_escaped { unescape(octet) } else { octet })?;
            is_escaped = false;
        }
    }
    Ok(octets)
}

/// What an octet means after a backslash.
fn unescape(octet: u8) -> u8 {
    match octet {
        b'n' => b'\n',
        b'r' => b'\r',
        b't' => b'\t',
        other => other,
    }
}

/// The number that a word says.
pub fn number_of<T: FromStr<Err = ParseIntError>>(word: &str) -> Result<T, Fault> {
    Ok(word.parse()?)
}

/// The numbers that words say.
pub fn numbers_of(alloc: Global, words: &[&str]) -> Result<Vec<u64>, Fault> {
    let mut numbers = Vec::new(alloc);
    for word in words {
        numbers.push(number_of(word)?)?;
    }
    Ok(numbers)
}

/// The value of a name, in a table of names.
pub fn value_of<T: Copy>(rows: &[(&str, T)], name: &str) -> Result<T, Fault> {
    for (known, value) in rows {
        if *known == name {
            return Ok(*value);
        }
    }
    Err(Fault::Syntax)
}

/// Four octets, as those that a telecommand begins with.
pub fn id_of(alloc: Global, word: &str) -> Result<[u8; 4], Fault> {
    match octets(alloc, word)?.as_slice() {
        [a, b, c, d] => Ok([*a, *b, *c, *d]),
        _ => Err(Fault::Syntax),
    }
}

/// A word that is `true` or `false`.
pub fn flag_of(word: &str) -> Result<bool, Fault> {
    value_of(&[("true", true), ("false", false)], word)
}

/// The profile of a word that is `1` or `2`.
pub fn profile_of(word: &str) -> Result<Profile, Fault> {
    value_of(&[("1", Profile::One), ("2", Profile::Two)], word)
}
