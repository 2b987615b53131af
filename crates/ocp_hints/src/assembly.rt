//! Hints on lines of assembly text.

ghost use Rattle.std.specs.Prelude.{IfSome};
ghost use Rattle.ocp_hints.specs.Columns.{IsWithin};

use crate::hint::{Hint, Mark, Result, Shown, Table, front_of, mark_at, text_on};
use crate::image::mark_of_fault;
use crate::line::{self, Line, MARKS, Reader, line_at, word_of};
use bpf_assembler::{AsmFault, Why, assemble};
use bpf_canonical::read_mnemonic;
use bpf_text::{LineFault, read_line};
use ocp_loader::LoadFault;
use ocp_profile::Profile;
use std::alloc::Global;

/// What may follow a mnemonic, and examples of it with the greatest numbers, cut into words by
/// blanks. A mnemonic has those forms of which the assembler takes an example after it.
static FORMS: Table = b"<distance with its sign, or label>: +2147483647|+32767
<register>, <number without a sign>: r0 , 18446744073709551615
<register>, <register or number>: r0 , r0
<register>: r0
<register>, <register>, 8 or 16 or 32: r0 , r0 , 32
<register>, <register>, 8 or 16: r0 , r0 , 16
<register>, 16 or 32 or 64: r0 , 64
<register>, <register or number>, <distance with its sign, or label>: r0 , r0 , +32767
<register>, [<register>+<distance>], with no blank between sign and distance: \
r0 , [ r0 +32767 ]|r0 , [ r0 ]
[<register>+<distance>], <register>: [ r0 +32767 ] , r0|[ r0 ] , r0
[<register>+<distance>], <number>: [ r0 +32767 ] , 4294967295|[ r0 ] , 4294967295
<number of an engine call>, or call local <distance or label>: 4294967295|local +2147483647
takes no operands:";

/// The sentence for a number out of its range, by the example's word in its place. A label is in
/// place of a distance that fits.
static RANGES: Table = b"18446744073709551615: \
this number is out of its range, 0 to 18446744073709551615
r0|4294967295: this number is out of its range, -2147483648 to 4294967295
+32767: this distance is out of its range, -32768 to +32767
+2147483647: this distance is out of its range, -2147483648 to +2147483647
32: this width is out of its range, which is 8, 16 and 32
16: this width is out of its range, which is 8 and 16
64: this width is out of its range, which is 16, 32 and 64
: this label is out of its range, -32768 to +32767 slots from the next instruction";

/// Words that are no mnemonics, and what to write in place of them.
static STRAYS: Table = b"goto: a jump is ja +<distance> or ja <label>
if: a conditional jump is jeq64 <register>, <register or number>, <label>
return: a procedure ends with exit
le16|le32|le64|be16|be32|be64: the width is an operand here: be <register>, 16
r0|r1|r2|r3|r4|r5|r6|r7|r8|r9|r10: \
an instruction begins with its mnemonic: mov64 r1, 5; ldxw r0, [r1+4]
send|step|view|mem|pool|drain|break|trace: this is a line of a script: a script goes to run";

const NO_LABEL: &[u8] = b"a label is a letter or _, then letters, digits and _, 32 at most";

/// What to write in place of a word that is no mnemonic.
fn sentence_on_stray(alloc: Global, word: &[u8]) -> Result<&'static [u8]> {
    if read_mnemonic(&[word, b"64"].concat(alloc)?).is_some() {
        return Ok(b"the width, 64 or 32, is a part of the mnemonic: add64, jeq32");
    }
    let text = text_on(word, STRAYS).or(text_on(word, line::STRAYS));
    Ok(match (text, word) {
        (Some(text), _) => text,
        (_, [b'A'..=b'Z', ..]) => b"mnemonics and registers are in lower case",
        (_, [b'0'..=b'9', ..]) => {
            b"a text has instructions; digits of an image go to list and to load"
        }
        _ => b"this is no mnemonic; docs/CARD.md has them all",
    })
}

/// What was unexpected in a line that is Syntax. A zero octet comes before all.
fn mark_of_syntax(line: Line<'_>) -> Result<Mark> {
    let (form, _, count) = line.best_form(FORMS)?;
    let (column, word) = match line.text.iter().position(|octet| *octet == 0) {
        Some(column) => (column, b"\0".as_slice()),
        None => line.at(count),
    };
    let sentence: &[u8] = match (text_on(word, MARKS), word) {
        (Some(sentence), _) => sentence,
        (_, [(128..), ..]) => b"outside of comments a text is plain ASCII",
        _ if line.at(1).1 == b":".as_slice() => b"a line has one label at most",
        _ if count == 0 => sentence_on_stray(line.alloc, word)?,
        _ => {
            let (mnemonic, form) = (Shown(line.at(0).1), Shown(form));
            return Ok((column, format!(in line.alloc; "{mnemonic} {form}")?));
        }
    };
    mark_at(line.alloc, column, &Shown(sentence))
}

/// What was out of its range in a line.
fn mark_of_range(line: Line<'_>) -> Result<Mark> {
    let reader = Reader::Assembler(LineFault::Range);
    let (_, example, count) = Line { reader, ..line }.best_form(FORMS)?;
    let sentence = text_on(word_of(example, count.saturating_sub(1)), RANGES).unwrap_or(&[]);
    let column = line.at(count).0.min(line.last());
    mark_at(line.alloc, column, &Shown(sentence))
}

/// What was unexpected in a line, of which the first word is at `label`.
fn mark_of_line(line: Line<'_>, label: usize, why: &Why) -> Result<Mark> {
    let (alloc, front) = (line.alloc, front_of(line.text, line.begin));
    match why {
        Why::Syntax if read_line(front).is_err() => mark_at(alloc, label, &Shown(NO_LABEL)),
        Why::Syntax => mark_of_syntax(line),
        Why::Range => mark_of_range(line),
        Why::DuplicateLabel => mark_at(alloc, label, why),
        Why::UnknownLabel => mark_at(alloc, line.last(), why),
        Why::Load(LoadFault::Decode(fault, _)) => mark_of_fault(alloc, line.at(1).0, fault),
        Why::Load(fault @ LoadFault::FallsOffEnd(_)) => mark_of_fault(alloc, line.begin, fault),
        Why::Load(fault) => mark_of_fault(alloc, line.last(), fault),
    }
}

/// What was unexpected in a line of assembly text.
fn mark_of_text(alloc: Global, text: &[u8], why: &Why) -> Result<Mark> {
    let line = Line::new(alloc, Reader::Assembler(LineFault::Syntax), text);
    let (label, _) = line.at(0);
    let has_label = line.at(1).1 == b":".as_slice();
    let (begin, _) = line.at(if has_label { 2 } else { 0 });
    mark_of_line(Line { begin, ..line }, label, why)
}

/// What was unexpected in an assembly text under a profile; None if nothing was, or if memory is
/// refused.
pub fn hint_on_text<'a>(alloc: Global, profile: Profile, text: &'a [u8]) -> Option<Hint<'a>>
    ensures within { IfSome result (λ hint. IsWithin hint.line.now hint.column) }
{
    let Err(AsmFault::At { line: number, why }) = assemble(alloc, profile, text) else {
        return None;
    };
    let line = line_at(text, number);
    let place = (number != 0).then_some(("line", number));
    Some(Hint::new(place, line, mark_of_text(alloc, line, &why).ok()?))
}
