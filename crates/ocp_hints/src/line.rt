//! The words of a line, and where its reader refuses it: the words of the line replace those of an
//! example, one after another, and the reader is asked each time.

use crate::hint::{Result, Table, front_of, sides};
use bpf_text::{LineFault, Scan, next_token, read_line};
use ocp_lines::{next_word, read_command};
use ocp_profile::Profile;
use std::alloc::Global;
use text_lines::first_line;

/// Octets that no line may have, with the sentences on them.
pub(crate) static MARKS: Table = b"\t..: this is a tab, and spaces separate words
\r..: this is a carriage return inside of the line
\xef\xbb\xbf..: this is a byte order mark: save the file without it
\xff\xfe..|\xfe\xff..: this is the byte order mark of UTF-16, and plain ASCII is expected
\0..: this is a zero octet: the file is UTF-16 or binary, and plain ASCII is expected
\x7fELF..: this is an ELF file: tools/c_build makes the image of one, and load takes it
#inc..|#def..: this is C: tools/c_build makes the image of a C text
#0..|#1..|#2..|#3..|#4..|#5..|#6..|#7..|#8..|#9..|#-..: a number has no # in front
#..|//..|/*..: a comment begins with ;
=..: a value is set by mov64 <register>, <register or number>
...: a text has no directives and no dots in names
(..|)..|{..|}..|*..|\"..|'..|<..|>..|&..|%..|$..: no instruction, label or number has this sign";

/// Words that begin no line.
pub(crate) static STRAYS: Table = b"error: this is the fault line of another command: mend its input
int|unsigned|static|struct|void|typedef|extern|word: \
this is C: tools/c_build makes the image of a C text";

/// Who reads a line: the console, or the assembler, which has this fault with it.
#[derive(Clone, Copy)]
pub(crate) enum Reader {
    Console(Profile),
    Assembler(LineFault),
}

/// What may follow the first word of a line, an example of it, and the number of words of the line
/// that fit the example.
pub(crate) type Fit = (&'static [u8], &'static [u8], usize);

/// A line with `head` before it, and the column of its first word.
#[derive(Clone, Copy)]
pub(crate) struct Line<'a> {
    pub alloc: Global,
    pub reader: Reader,
    pub head: &'a [u8],
    pub text: &'a [u8],
    pub begin: usize,
}

/// The line of this number, from 1; the empty line if there is none.
pub(crate) fn line_at(text: &[u8], number: u64) -> &[u8] {
    let (mut line, mut rest): (&[u8], &[u8]) = (&[], text);
    for _ in 0..number {
        if rest.is_empty() {
            return &[];
        }
        (line, rest) = first_line(rest);
    }
    line
}

/// The word of a form or an example with this many others before it, or the empty word.
pub(crate) fn word_of(text: &[u8], count: usize) -> &[u8] {
    let mut words = text.split(|octet| *octet == b' ');
    words.nth(count).unwrap_or(&[])
}

impl<'a> Line<'a> {
    /// A whole line.
    pub fn new(alloc: Global, reader: Reader, text: &'a [u8]) -> Line<'a> {
        Line {
            alloc,
            reader,
            head: b"",
            text,
            begin: 0,
        }
    }

    /// The number of octets before the first word from this column on, and the word, which is
    /// empty after the last one. Octets that begin no word are one, up to the end of the line.
    fn first_from(self, column: usize) -> (usize, &'a [u8]) {
        let rest = self.text.get(column..).unwrap_or(&[]);
        let blanks = rest.iter().position(|octet| !matches!(octet, b' ' | b'\t'));
        let rest = &rest[blanks.unwrap_or(rest.len())..];
        let word: &[u8] = match (self.reader, next_token(rest)) {
            (Reader::Console(_), _) => next_word(rest).map_or(&[], |(word, _)| word),
            (_, Scan::Found(token, _)) => token,
            (_, Scan::Bad) => rest,
            (_, Scan::End) => &[],
        };
        (self.text.len().saturating_sub(rest.len()), word)
    }

    /// In the same way, the word with this many others before it.
    pub fn at(self, count: usize) -> (usize, &'a [u8]) {
        let (mut column, mut word) = self.first_from(self.begin);
        for _ in 0..count {
            (column, word) = self.first_from(column.saturating_add(word.len()));
        }
        (column, word)
    }

    /// The number of octets before the last word.
    pub fn last(self) -> usize {
        for count in 1..=self.text.len() {
            if self.at(count).1.is_empty() {
                return self.at(count - 1).0;
            }
        }
        self.at(0).0
    }

    /// Whether its reader refuses a word at a column, after this many of the line's, and before
    /// those of an example, which begins after the first word. An assembler with a Syntax fault
    /// takes numbers out of their ranges, but not with the first word alone.
    pub fn refuses(self, count: usize, at: (usize, &'a [u8]), example: &'a [u8]) -> Result<bool> {
        let (column, word) = at;
        let mut rest = example.splitn(count.saturating_add(1), |octet| *octet == b' ');
        let (front, rest) = (front_of(self.text, column), rest.nth(count).unwrap_or(&[]));
        let line = [self.head, front, word, b" ", rest].concat(self.alloc)?;
        match self.reader {
            Reader::Console(profile) => {
                Ok(read_command(&mut Vec::new(self.alloc), profile, &line)?.is_none())
            }
            Reader::Assembler(why) => match read_line(&line) {
                Ok(_) => Ok(false),
                Err(fault) => Ok(count == 0 || why == LineFault::Range || fault == why),
            },
        }
    }

    /// The number of words before the first with which its reader refuses the line, if an example
    /// goes on after it.
    pub fn count_of_words(self, example: &[u8]) -> Result<usize> {
        for count in 0..self.text.len() {
            let at = self.at(count);
            if at.1.is_empty() || self.refuses(count, at, example)? {
                return Ok(count);
            }
        }
        Ok(self.text.len())
    }

    /// The form that its words fit best, and of several the first. If its reader takes no example
    /// after its first word, the form is empty, and fits no word.
    pub fn best_form(self, forms: Table) -> Result<Fit> {
        let mut best: Fit = (&[], &[], 0);
        for row in forms.split(|octet| *octet == b'\n') {
            let (form, examples) = sides(row);
            for example in examples.split(|octet| *octet == b'|') {
                let count = self.count_of_words(example)?;
                if count > best.2 {
                    best = (form, example, count);
                }
            }
        }
        Ok(best)
    }
}
