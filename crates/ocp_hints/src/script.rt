//! Hints on lines of a script.

ghost use Rattle.std.specs.Prelude.{IfSome};
ghost use Rattle.ocp_hints.specs.Columns.{IsWithin};

use crate::hint::{Hint, Mark, Result, SHOWN_BEFORE, Shown, Table, front_of, mark_at, text_on};
use crate::image::{ODD, SLOT_DIGITS};
use crate::line::{self, Fit, Line, MARKS, Reader, line_at, word_of};
use ocp_ports::{ConsoleFault, MAX_LINE_OCTETS};
use ocp_profile::Profile;
use std::alloc::Global;

/// What may follow a verb, and an example of it with the greatest numbers. A verb has the first of
/// those forms of which the console takes the example after it.
static FORMS: Table = b" [<hex>]: 0a
 <index> <value>: 18446744073709551615 18446744073709551615
 <index>: 18446744073709551615
 <seconds>: 4294967295
 <id> <n>: 65535 1000000
 <id> <place>: 65535 65535
 <id>: 65535
 <id> on|off: 65535 on
 <id> 0x<digits> <length>: 65535 0x0 256
 <workers> <budget> <turns>: 16 1000000 1000000
 <flags> <verb> ..: 15 status
:";

/// What may follow a verb of `send`, in the same way.
static REQUESTS: Table = b" <id> [<hex>]: 65535 0a
 <id> <budget> [<hex>]: 65535 4294967295 0a
 <id> <number> ..: 65535 18446744073709551615
 <id> <step>: 65535 65535
 <id>: 65535
:";

/// What is expected in the parts of forms that are no numbers.
static PARTS: Table = b"0x..: an address is 0x and 1 to 16 hexadecimal digits
on..: a switch is on or off
<verb>: a verb of send is one of load, unload, activate, stop, suspend, resume, abort, \
communicate, status";

/// Words that are no verbs, and what a line that begins with them is.
static STRAYS: Table = b"help: a script has no such line; ./ocp run --help shows them all
quit|exit: a script ends where its input ends; in a terminal Control-D
tm: this is a line of a transcript, and a script has requests
mov64|mov32|lddw|jeq64|call|ja: \
this is assembly: asm makes its image, and send <flags> load takes it";

const BUDGET: &[u8] = b"profile 1 has no budget, and arguments have two digits for each octet";

const NO_FLAGS: &str = "requests begin with send and the flags: send <flags>";

const NO_COMMAND: &[u8] = b"a line begins with send, up, time, step, round, view, mem, break, \
                            unbreak, trace, pool, put, journal, drain, work";

/// The sentence for a word that is for no part of a form, or in place of its octets.
fn sentence_on_rest(verb: &[u8], form: &[u8], is_octets: bool, word: &[u8]) -> &'static [u8] {
    let are_digits = word.iter().all(|octet| octet.is_ascii_hexdigit());
    match word {
        [b'0', b'x' | b'X', ..] if is_octets => b"hexadecimal digits have no 0x in front here",
        b"error" if is_octets => b"this is the fault line of asm or list, and no image",
        _ if is_octets && !are_digits => b"octets are hexadecimal digits only",
        _ if is_octets && word.len() % 2 == 0 => b"arguments have at most 256 octets",
        [b'#' | b';' | b'/', ..] => b"a comment is a line of its own",
        _ if verb == b"activate".as_slice() && form == b" <id> [<hex>]".as_slice() => BUDGET,
        _ if is_octets => ODD,
        _ => b"nothing more may stand here",
    }
}

/// What was unexpected in a line of this form after a verb. Both are shown after `head`.
fn mark_of_form(line: Line<'_>, head: &str, verb: &[u8], fit: Fit) -> Result<Mark> {
    let (alloc, (form, example, _)) = (line.alloc, fit);
    let count = line.count_of_words(example)?;
    let ((column, word), part) = (line.at(count), word_of(form, count));
    let takes_zero = !line.refuses(count, (column, b"0"), example)?;
    let digits = match word {
        [b'0', b'x' | b'X', ..] => ", in decimal digits, found ",
        _ => ", found ",
    };
    let (name, most): (&[u8], &[u8]) = match part {
        [b'<', name @ .., b'>'] => (name, word_of(example, count.saturating_sub(1))),
        // The part `..` is for more numbers, each of 64 bits.
        _ => (b"number", b"18446744073709551615"),
    };
    let (known, found) = (text_on(part, PARTS), front_of(word, SHOWN_BEFORE));
    let rest = sentence_on_rest(verb, form, part.starts_with(b"["), word);
    let (what, is, most, then, found): (&[u8], &str, &[u8], &str, &[u8]) = match known {
        _ if word.is_empty() => (part, " is missing", b"", "", b""),
        _ if count == 0 => (b"lines are in lower case", ": ", verb, "", b""),
        Some(what) => (what, "", b"", ", found ", found),
        None if takes_zero => (name, " is 0 to ", most, digits, found),
        None if part.starts_with(b"<") => (name, " is 1 to ", most, digits, found),
        None => (rest, "", b"", "", b""),
    };
    let (verb, form, what) = (Shown(verb), Shown(form), Shown(what));
    let (most, found) = (Shown(most), Shown(found));
    let sentence = format!(in alloc; "{head}{verb}{form}: {what}{is}{most}{then}{found}")?;
    Ok((column, sentence))
}

/// The sentence for a word that begins no line.
fn sentence_on_stray(word: &[u8]) -> &'static [u8] {
    let are_digits = word.iter().all(|octet| octet.is_ascii_hexdigit());
    match text_on(word, STRAYS).or(text_on(word, line::STRAYS)) {
        Some(sentence) => sentence,
        None if are_digits && word.len() >= SLOT_DIGITS => {
            b"digits of an image come after send <flags> load <id>"
        }
        None => NO_COMMAND,
    }
}

/// What was unexpected in the words of a line. Its text in lower case decides the form; if `send`
/// and the flags are missing, the form is that of the line with them.
fn mark_of_words(line: Line<'_>, text: &[u8]) -> Result<Mark> {
    let (lower, head) = (Line { text, ..line }, b"send 0 ".as_slice());
    let request = match (line.at(0).1 == b"send".as_slice(), line.at(2)) {
        (true, (begin, _)) => Line { begin, ..lower },
        (false, _) => Line { head, ..lower },
    };
    let ((column, word), (_, verb)) = (lower.at(0), request.at(0));
    match (request.best_form(REQUESTS)?, lower.best_form(FORMS)?) {
        (fit @ (_, _, 1..), _) if request.head.is_empty() => {
            let begin = request.begin;
            mark_of_form(Line { begin, ..line }, "send <flags> ", verb, fit)
        }
        (_, fit @ (_, _, 1..)) => mark_of_form(line, "", word, fit),
        ((form, _, 1..), _) => {
            let (verb, form) = (Shown(verb), Shown(form));
            Ok((column, format!(in line.alloc; "{NO_FLAGS} {verb}{form}")?))
        }
        _ => mark_at(line.alloc, column, &Shown(sentence_on_stray(word))),
    }
}

/// What was unexpected in a line under the profile.
fn mark_of_line(alloc: Global, profile: Profile, text: &[u8]) -> Result<Mark> {
    let Some(column) = text.iter().position(|octet| !matches!(octet, b' '..=b'~')) else {
        let lower = text.to_ascii_lowercase(alloc)?;
        let line = Line::new(alloc, Reader::Console(profile), text);
        return mark_of_words(line, &lower);
    };
    let sentence = text_on(&text[column..], MARKS).unwrap_or(b"this is no plain ASCII");
    mark_at(alloc, column, &Shown(sentence))
}

/// What was unexpected in the line of a script for which this fault was answered under a profile;
/// the text is the script without its first `before` lines. None if it is no fault of a line, or
/// memory is refused.
pub fn hint_on_script<'a>(
    alloc: Global,
    profile: Profile,
    fault: &ConsoleFault,
    text: &'a [u8],
    before: u64,
) -> Option<Hint<'a>>
    ensures within { IfSome result (λ hint. IsWithin hint.line.now hint.column) }
{
    let number = u64::from(fault.line()?);
    let line = line_at(text, number.saturating_sub(before));
    let mark = match fault {
        ConsoleFault::LineTooLong(_) => mark_at(alloc, MAX_LINE_OCTETS, fault),
        ConsoleFault::TooManyLines => mark_at(alloc, 0, fault),
        _ => mark_of_line(alloc, profile, line),
    };
    Some(Hint::new(Some(("line", number)), line, mark.ok()?))
}
