//! How an answer shows octets.

use std::fmt;

/// The shortest run of equal octets that is shown as one and its length.
const LONG_RUN: usize = 16;

/// Octets in the form of an argument: `-` for none, else hexadecimal digits. 16 or more equal
/// octets in a row are a piece of their own, as `00*20`.
#[derive(Clone, Copy)]
pub struct Octets<'a>(pub &'a [u8]);

/// What was shown last.
#[derive(Clone, Copy, PartialEq, Eq)]
enum Last {
    Nothing,
    Digits,
    Run,
}

impl fmt::Display for Octets<'_> {
    fn fmt<W: fmt::Write>(&self, f: &mut fmt::Formatter<W>) -> fmt::Result {
        let mut last = Last::Nothing;
        for run in self.0.chunk_by(|one, other| one == other) {
            last = show_run(run, last, f)?;
        }
        if last == Last::Nothing {
            f.write_str("-")?;
        }
        Ok(())
    }
}

/// Shows octets that are all the same, and what this shows.
fn show_run<W: fmt::Write>(
    run: &[u8],
    last: Last,
    f: &mut fmt::Formatter<W>,
) -> Result<Last, fmt::Error> {
    let [octet, ..] = run else {
        return Ok(last);
    };
    if run.len() >= LONG_RUN {
        let before = if last == Last::Nothing { "" } else { "|" };
        write!(f, "{before}{octet:02x}*{}", run.len())?;
        return Ok(Last::Run);
    }
    if last == Last::Run {
        f.write_str("|")?;
    }
    for octet in run {
        write!(f, "{octet:02x}")?;
    }
    Ok(Last::Digits)
}

/// A text in the form of an argument: `-` for none, else between double quotes, with `\n`, `\r`,
/// `\t` and `\\` for a line feed, a carriage return, a tab and a backslash.
#[derive(Clone, Copy)]
pub struct Text<'a>(pub &'a [u8]);

impl fmt::Display for Text<'_> {
    fn fmt<W: fmt::Write>(&self, f: &mut fmt::Formatter<W>) -> fmt::Result {
        if self.0.is_empty() {
            return f.write_str("-");
        }
        f.write_str("\"")?;
        for octet in self.0 {
            show_letter(*octet, f)?;
        }
        f.write_str("\"")
    }
}

fn show_letter<W: fmt::Write>(octet: u8, f: &mut fmt::Formatter<W>) -> fmt::Result {
    match octet {
        b'\n' => f.write_str("\\n"),
        b'\r' => f.write_str("\\r"),
        b'\t' => f.write_str("\\t"),
        b'\\' => f.write_str("\\\\"),
        other => write!(f, "{}", char::from(other)),
    }
}

/// Numbers, with spaces between them.
#[derive(Clone, Copy)]
pub struct Numbers<'a>(pub &'a [u64]);

impl fmt::Display for Numbers<'_> {
    fn fmt<W: fmt::Write>(&self, f: &mut fmt::Formatter<W>) -> fmt::Result {
        let mut is_first = true;
        for number in self.0 {
            if !is_first {
                f.write_str(" ")?;
            }
            is_first = false;
            write!(f, "{number}")?;
        }
        Ok(())
    }
}
