//! A hint, how it is shown, and the tables that it has its sentences from.

ghost use Rattle.ocp_hints.specs.Columns.{IsWithin};

use std::alloc::{AllocError, Global};
use std::fmt::{self, Display};

/// The most octets that are shown of a line before the mark, or of a word.
pub(crate) const SHOWN_BEFORE: usize = 60;

/// The most octets that are shown of a line.
const SHOWN: usize = 120;

/// A hint: a line as it was read, a mark under what was unexpected, and one sentence on it.
#[derive(Drop)]
pub struct Hint<'a> {
    /// What is shown of the input.
    pub line: &'a [u8],
    /// The number of octets of the line before what was unexpected.
    pub column: usize,
    /// The line or the slot of this number, if it is one of them.
    place: Option<(&'static str, u64)>,
    sentence: String,
}

/// Octets as a terminal can show them: a `?` stands for each that is no printable ASCII.
#[derive(Clone, Copy)]
pub(crate) struct Shown<'a>(pub &'a [u8]);

/// The column of what was unexpected in a line, and the sentence on it.
pub(crate) type Mark = (usize, String);

/// A table of texts. A row is a line: keys with `|` between them, a colon, a space, and a text. A
/// key that ends in `..` is for all octets that begin with what precedes it.
pub(crate) type Table = &'static [u8];

/// What a call gives unless memory is refused.
pub(crate) type Result<T> = std::result::Result<T, AllocError>;

/// The first octets, or all if there are fewer.
pub(crate) fn front_of(octets: &[u8], most: usize) -> &[u8] {
    octets.get(..most).unwrap_or(octets)
}

/// A mark with a sentence that no word of the line changes.
pub(crate) fn mark_at<S: Display>(alloc: Global, column: usize, sentence: &S) -> Result<Mark> {
    Ok((column, format!(in alloc; "{sentence}")?))
}

/// The keys of a row, and its text.
pub(crate) fn sides(row: &[u8]) -> (&[u8], &[u8]) {
    match row.iter().position(|octet| *octet == b':') {
        Some(colon) => (&row[..colon], row.get(colon + 2..).unwrap_or(&[])),
        None => (row, &[]),
    }
}

/// The text of the first row with a key for these octets.
pub(crate) fn text_on<'a>(octets: &[u8], table: &'a [u8]) -> Option<&'a [u8]> {
    for row in table.split(|octet| *octet == b'\n') {
        let (keys, text) = sides(row);
        for key in keys.split(|octet| *octet == b'|') {
            match key {
                [front @ .., b'.', b'.'] if octets.starts_with(front) => return Some(text),
                _ if octets == key => return Some(text),
                _ => {}
            }
        }
    }
    None
}

impl<'a> Hint<'a> {
    /// A hint on a line. A mark after its end is at its end.
    pub(crate) fn new(place: Option<(&'static str, u64)>, line: &'a [u8], mark: Mark) -> Hint<'a>
        ensures { IsWithin result.line.now result.column }
    {
        let (column, sentence) = mark;
        let column = column.min(line.len());
        Hint {
            line,
            column,
            place,
            sentence,
        }
    }
}

impl Display for Shown<'_> {
    fn fmt<W: fmt::Write>(&self, f: &mut fmt::Formatter<W>) -> fmt::Result {
        for octet in self.0 {
            let is_shown = matches!(octet, b' '..=b'~');
            f.write_char(if is_shown { char::from(*octet) } else { '?' })?;
        }
        Ok(())
    }
}

impl Display for Hint<'_> {
    fn fmt<W: fmt::Write>(&self, f: &mut fmt::Formatter<W>) -> fmt::Result {
        match self.place {
            Some((name, number)) => writeln!(f, "{name} {number}: {}", self.sentence)?,
            None => writeln!(f, "the input: {}", self.sentence)?,
        }
        if self.line.is_empty() {
            return Ok(());
        }
        let begin = self.column.saturating_sub(SHOWN_BEFORE);
        let line = front_of(self.line.get(begin..).unwrap_or(&[]), SHOWN);
        writeln!(f, "    {}", Shown(line))?;
        writeln!(f, "    {:1$}^", "", self.column - begin)
    }
}
