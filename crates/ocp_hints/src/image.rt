//! Hints on images in hexadecimal digits, and the sentences on faults of images.

ghost use Rattle.std.specs.Prelude.{IfSome};
ghost use Rattle.ocp_hints.specs.Columns.{IsWithin};

use crate::hint::{Hint, Mark, Result, Shown, Table, front_of, mark_at, text_on};
use bpf_decode::{DecodeFault, decode_at};
use bpf_listing::{DisassembleFault, disassemble};
use std::alloc::Global;
use std::error::Error;
use text_lines::octets_of;

/// The number of digits of a slot.
pub(crate) const SLOT_DIGITS: usize = 16;

/// The sentence on digits that are no pairs.
pub(crate) const ODD: &[u8] = b"the number of hexadecimal digits is even";

/// Octets that no image may have, with the sentences on them.
static MARKS: Table = b"\t..: this is a tab, and digits are in one row
\xef\xbb\xbf..: this is a byte order mark: save the file without it
0x..|0X..|\\x..: digits come alone, with nothing before them
\x7fELF..: this is an ELF file: tools/c_build makes the image of one
\r..: this is a carriage return, and a newline alone may end the digits";

/// A mark with the name of a fault of an image, and what it means.
pub(crate) fn mark_of_fault<F: Error>(alloc: Global, column: usize, fault: &F) -> Result<Mark> {
    let shown = format!(in alloc; "{fault:?}")?;
    let name = shown.as_str().split('(').next().unwrap_or("");
    Ok((column, format!(in alloc; "{name}: {fault}")?))
}

/// What was unexpected in digits that spell no octets: the first octet that is no digit, or what no
/// image may have from the digit before it on.
fn mark_of_digits(alloc: Global, digits: &[u8]) -> Result<Mark> {
    let Some(end) = digits.iter().position(|octet| !octet.is_ascii_hexdigit()) else {
        return mark_at(alloc, digits.len(), &Shown(ODD));
    };
    for column in [end.saturating_sub(1), end] {
        let rest = digits.get(column..).unwrap_or(&[]);
        if let Some(sentence) = text_on(rest, MARKS) {
            return mark_at(alloc, column, &Shown(sentence));
        }
    }
    let sentence: &[u8] = match digits[end] {
        b' ' | b'\n' => b"digits are in one row: tr -d ' \\n' takes blanks and newlines away",
        b'!'..=b'~' => b"this is no hexadecimal digit; an assembly text goes to asm",
        _ => b"this is a raw image: od -An -v -tx1 | tr -d ' \\n' makes digits of it",
    };
    mark_at(alloc, end, &Shown(sentence))
}

/// The number of digits of an instruction before the field at fault: the first with which the
/// decoder has the fault if the fields after it are zero, the immediate number apart.
fn column_of_fault(code: &[u8], fault: DecodeFault) -> usize {
    let mut octets = [0u8; 16];
    for (place, octet) in octets.iter_mut().zip(code) {
        *place = *octet;
    }
    for (column, bits_after) in [(0, 128), (8, 120), (2, 116), (3, 112), (4, 96)] {
        let fields = u128::MAX.checked_shl(bits_after).unwrap_or(0) | (0xffff_ffff << 64);
        let front = u128::from_be_bytes(octets) & fields;
        if matches!(decode_at(&front.to_be_bytes(), 0), Err(found) if found == fault) {
            return column;
        }
    }
    SLOT_DIGITS
}

/// The slot at fault in an image, and the mark in its digits; None if no slot is, or if memory is
/// refused.
fn mark_of_image(alloc: Global, image: &[u8]) -> Option<(usize, Mark)> {
    let (slot, mark) = match disassemble(image, &mut Vec::new(alloc)) {
        Ok(()) | Err(DisassembleFault::Memory) => return None,
        Err(DisassembleFault::Ragged) => {
            let sentence = Shown(b"an image is whole slots of 16 digits");
            (image.len() / 8, mark_at(alloc, SLOT_DIGITS, &sentence))
        }
        Err(DisassembleFault::Decode(fault, slot)) => {
            let code = image.get(slot.saturating_mul(8)..).unwrap_or(&[]);
            let column = column_of_fault(code, fault);
            (slot, mark_of_fault(alloc, column, &fault))
        }
    };
    Some((slot, mark.ok()?))
}

/// What was unexpected in the digits of an image, which spaces and newlines may follow; None if
/// nothing was, or if memory is refused.
pub fn hint_on_image<'a>(alloc: Global, text: &'a [u8]) -> Option<Hint<'a>>
    ensures within { IfSome result (λ hint. IsWithin hint.line.now hint.column) }
{
    let last = text
        .iter()
        .rposition(|octet| !matches!(octet, b' ' | b'\n'));
    let digits = front_of(text, last.map_or(0, |last| last.saturating_add(1)));
    let mut room = Vec::new(alloc);
    let Some(image) = octets_of(&mut room, digits).ok()? else {
        return Some(Hint::new(None, digits, mark_of_digits(alloc, digits).ok()?));
    };
    let (slot, mark) = mark_of_image(alloc, image)?;
    let begin = slot.saturating_mul(SLOT_DIGITS);
    let rest = digits.get(begin..).unwrap_or(&[]);
    let slots = if rest.starts_with(b"18") { 2 } else { 1 };
    let line = front_of(rest, slots * SLOT_DIGITS);
    Some(Hint::new(Some(("slot", slot as u64)), line, mark))
}
