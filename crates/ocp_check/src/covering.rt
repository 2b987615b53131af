//! What the certificate says at a slot against what is known of the machines that come there.
ghost use Rattle.std.specs.Prelude.{◌≡◌, ◌<◌, ℕ, IsTrue, Some, None, slice_index_or, slice_index, slice_set, List, Option, IfSome, IfNone};
ghost use Rattle.bpf_moves.specs.Moves.{operand_in};
ghost use Rattle.ocp_check.specs.Mirror.Ranges.{IsIn, AreIn};
ghost use Rattle.bpf_step.specs.Machine.{State};
ghost use Rattle.ocp_regions.specs.Memory.{Octets};
ghost use Rattle.ocp_check.specs.Mirror.Words.{AreWords};
ghost use Rattle.ocp_check.specs.Mirror.Forms.{IsForm, AreFormed, bases_after};
ghost use Rattle.ocp_check.specs.Mirror.Fits.{Certificate, Covers, Fits, Matches};

use crate::certificate::{Node, Row};
use crate::form::{BASES, Form, Forms, form_of_known, form_of_sum, is_shifted, range_by_tie};
use crate::range::{Range, is_within, only};
use crate::word::{WORDS, Words, free_base, is_word_shifted, words_with_known};
use bpf_moves::REGISTERS;
use bpf_types::{Line, Operand, Reg};
use ocp_loader::Program;
use std::alloc::Allocator;

/// What is known of a register.
pub(crate) fn range_of(row: &Row, source: Reg) -> Option<Range>
    ensures value { result ≡ slice_index_or row.now source None }
    ensures meaning { (registers : List ℕ) → AreIn row.now registers →
        IsIn result (slice_index registers source) }
{
    row[usize::from(source.number())]
}

/// What is known of an operand.
pub(crate) fn range_of_operand(row: &Row, operand: Operand) -> Option<Range>
    ensures { (registers : List ℕ) → AreIn row.now registers →
        IsIn result (operand_in registers operand) }
{
    match operand {
        Operand::Immediate(imm) => only(i64::from(imm).cast_unsigned()),
        Operand::Register(register) => range_of(row, register),
    }
}

/// Whether each register of the second row follows from that of the first.
fn are_within(inner: &Row, outer: &Row) -> bool
    ensures { IsTrue result → (k : ℕ) → k < 11 → (v : ℕ) →
        IsIn (slice_index_or inner.now k None) v → IsIn (slice_index_or outer.now k None) v }
{
    for k in 0..REGISTERS {
        if !is_within(inner[k], outer[k]) {
            return false;
        }
    }
    true
}

/// Whether what the certificate says at a place follows from a node.
pub(crate) fn covers(certificate: &[Option<Node>], place: usize, from: &Node) -> bool
    ensures { IsTrue result → Covers certificate.now place from.now }
{
    match certificate.get(place) {
        Some(Some(node)) => {
            from.depth <= node.depth
                && from.kept <= node.kept
                && node.spared <= from.spared
                && is_within(node.promise, from.promise)
                && are_within(&from.row, &node.row)
                && are_tied(from, node)
        }
        _ => false,
    }
}

/// Adds what becomes of the base of a form that is one of its numbers and more.
fn add_shift(shifts: &mut [Form; BASES], to: Option<Form>, form: Option<Form>) {
    if let (Some(to), Some(form)) = (to, form) {
        if to.times == 1 && usize::from(to.base) < BASES {
            shifts[usize::from(to.base)] = form_of_sum(form, to.plus.wrapping_neg());
        }
    }
}

/// What becomes of the base of each form of a node, by the words and registers that are the base
/// and a number more.
fn shifts_of(from: &Node, node: &Node) -> [Form; BASES] {
    let mut shifts = [Form {
        base: 0,
        times: 0,
        plus: 0,
    }; BASES];
    for k in 0..WORDS {
        if let (Some(to), Some(from)) = (node.words[k], from.words[k]) {
            add_shift(&mut shifts, to.form, form_of_known(from.known, from.form));
        }
    }
    for k in 0..REGISTERS {
        add_shift(
            &mut shifts,
            node.forms[k],
            form_of_known(from.row[k], from.forms[k]),
        );
    }
    shifts
}

/// Whether registers and words that are tied in the second node are tied by the first one.
fn are_tied(from: &Node, node: &Node) -> bool
    ensures { IsTrue result → (bases : ℕ → ℕ) (registers : List ℕ) (m : Octets) →
        AreIn from.now.row registers → AreFormed from.now.forms bases registers →
        AreWords from.now.words bases m →
        (next : ℕ → ℕ) × AreFormed node.now.forms next registers
        × AreWords node.now.words next m }
{
    let shifts = shifts_of(from, node);
    are_shifted(&shifts, from, node) && are_words_shifted(&shifts, &from.words, &node.words)
}

/// Whether what is known of words in the second node follows from what is known in the first, if
/// the number of each base becomes the one of its shift.
fn are_words_shifted(shifts: &[Form; BASES], from: &Words, words: &Words) -> bool
    ensures { IsTrue result → (bases : ℕ → ℕ) (m : Octets) → AreWords from.now bases m →
        AreWords words.now (bases_after shifts.now bases) m }
{
    for k in 0..WORDS {
        if !is_word_shifted(shifts, from[k], words[k]) {
            return false;
        }
    }
    true
}

/// The same of the forms of registers.
fn are_shifted(shifts: &[Form; BASES], from: &Node, node: &Node) -> bool
    ensures { IsTrue result → (bases : ℕ → ℕ) (registers : List ℕ) →
        AreIn from.now.row registers → AreFormed from.now.forms bases registers →
        AreFormed node.now.forms (bases_after shifts.now bases) registers }
{
    for k in 0..REGISTERS {
        if !is_shifted(
            shifts,
            form_of_known(from.row[k], from.forms[k]),
            node.forms[k],
        ) {
            return false;
        }
    }
    true
}

/// A node with one register changed.
pub(crate) fn with_register(
    node: &Node,
    register: Reg,
    known: Option<Range>,
    form: Option<Form>,
) -> Node
    ensures { result ≡ record node.now {
      row = slice_set node.now.row register known;
      forms = slice_set node.now.forms register form;
    } }
{
    let mut changed = *node;
    changed.row[usize::from(register.number())] = known;
    changed.forms[usize::from(register.number())] = form;
    changed
}

/// What is known of the registers, if this is known of one of them.
fn row_with_known(row: &Row, forms: &Forms, register: Reg, known: Option<Range>) -> Row
    ensures { (bases : ℕ → ℕ) (registers : List ℕ) → AreIn row.now registers →
        AreFormed forms.now bases registers → IsIn known (slice_index registers register) →
        AreIn result registers }
{
    let mut changed = *row;
    let other = forms[usize::from(register.number())];
    for k in 0..REGISTERS {
        changed[k] = range_by_tie(row[k], forms[k], other, known);
    }
    changed[usize::from(register.number())] = known;
    changed
}

/// A node with more known of a register, and of the registers and words that are tied to it.
pub(crate) fn with_known(node: &Node, register: Reg, known: Option<Range>) -> Node
    ensures { (certificate : Certificate) (s : State) → Matches certificate node.now s →
        IsIn known (slice_index s.registers register) → Matches certificate result s }
{
    Node {
        row: row_with_known(&node.row, &node.forms, register, known),
        words: words_with_known(&node.words, form_of(&node.forms, register), known),
        ..*node
    }
}

/// A node that has a form of a register, unless its number is known or there is no free base.
pub(crate) fn with_base(node: &Node, register: Reg) -> Node
    ensures { (certificate : Certificate) (s : State) → Matches certificate node.now s →
        Matches certificate result s }
{
    let at = usize::from(register.number());
    if form_of_known(node.row[at], node.forms[at]).is_some() {
        return *node;
    }
    let Some(base) = free_base(&node.forms, &node.words) else {
        return *node;
    };
    let mut based = *node;
    based.forms[at] = Some(Form {
        base,
        times: 1,
        plus: 0,
    });
    based
}

/// The same of a register that an operand is.
pub(crate) fn with_base_of_operand(node: &Node, operand: &Operand) -> Node
    ensures { (certificate : Certificate) (s : State) → Matches certificate node.now s →
        Matches certificate result s }
{
    match operand {
        Operand::Immediate(_) => *node,
        Operand::Register(register) => with_base(node, *register),
    }
}

/// The form of a register.
pub(crate) fn form_of(forms: &Forms, register: Reg) -> Option<Form>
    ensures { (bases : ℕ → ℕ) (registers : List ℕ) → AreFormed forms.now bases registers →
        IsForm result bases (slice_index registers register) }
{
    forms[usize::from(register.number())]
}

/// The form of a register; that of its number, if it is known.
pub(crate) fn tie_of(node: &Node, register: Reg) -> Option<Form>
    ensures { (bases : ℕ → ℕ) (registers : List ℕ) → AreIn node.now.row registers →
        AreFormed node.now.forms bases registers →
        IsForm result bases (slice_index registers register) }
{
    form_of_known(
        range_of(&node.row, register),
        form_of(&node.forms, register),
    )
}

/// The form of an operand.
pub(crate) fn form_of_operand(forms: &Forms, operand: &Operand) -> Option<Form>
    ensures { (bases : ℕ → ℕ) (registers : List ℕ) → AreFormed forms.now bases registers →
        IsForm result bases (operand_in registers operand.now) }
{
    match operand {
        Operand::Immediate(_) => None,
        Operand::Register(register) => form_of(forms, *register),
    }
}

/// What the certificate says at a slot, if the slot may be reached.
pub(crate) fn node_at(certificate: &[Option<Node>], slot: u16) -> Option<Node>
    ensures some { IfSome result (λ node. (s : State) → s.place ≡ slot → Fits certificate.now s →
        Matches certificate.now node s) }
    ensures none { IfNone result ((s : State) → s.place ≡ slot → Fits certificate.now s → ⊥) }
{
    match certificate.get(usize::from(slot)) {
        Some(Some(node)) => Some(*node),
        _ => None,
    }
}

/// What the certificate says at a slot, and the line there, if the slot may be reached.
pub(crate) fn node_and_line<A: Allocator>(
    program: &Program<A>,
    certificate: &[Option<Node>],
    slot: u16,
) -> Option<(Node, Line)> {
    let node = node_at(certificate, slot)?;
    let line = program.line_at(slot)?;
    Some((node, line))
}

/// What the certificate says of the registers at a place, if the place may be reached.
pub(crate) fn row_at(certificate: &[Option<Node>], place: usize) -> Option<Row>
    ensures some { IfSome result (λ row. (s : State) → s.place ≡ place → Fits certificate.now s →
        AreIn row s.registers) }
    ensures none { IfNone result ((s : State) → s.place ≡ place → Fits certificate.now s → ⊥) }
{
    match certificate.get(place) {
        Some(Some(node)) => Some(node.row),
        _ => None,
    }
}
