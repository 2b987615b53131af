//! One instruction against a certificate.
ghost use Rattle.std.specs.Prelude.{◌≡◌, ◌≤◌, ◌<◌, ◌+◌, ◌^◌, ℕ, ℤ, true, slice_index_or, IsTrue, IfSome, Some, None, Ok, List, slice_index, slice_set, Option};
ghost use Rattle.bpf_types.specs.Line.{octets_in, slots_in};
ghost use Rattle.bpf_types.specs.declared.line.Line.TheVariants as kind;
ghost use Rattle.bpf_types.specs.declared.line.Comparison.{Comparison};
ghost use Rattle.bpf_types.specs.declared.line.Operand.{Operand};
ghost use Rattle.bpf_types.specs.declared.line.Width.{Width};
ghost use Rattle.ocp_regions.specs.Memory.{Octets, number_in_memory, memory_after_store, zeros, zeros_over};
ghost use Rattle.bpf_moves.specs.Moves.{operand_in, address_in};
ghost use Rattle.bpf_values.specs.Value.{arithmetic_result, is_taken};
ghost use Rattle.ocp_loader.specs.LineAt.{target};
ghost use Rattle.bpf_step.specs.Machine.{State, state_after_write, state_after_jump, place_by};
ghost use Rattle.bpf_step.specs.Step.{step};
ghost use Rattle.bpf_step.specs.Answers.{IsAnswer};
ghost use Rattle.bpf_step.specs.Calls.{state_after_engine_call, local_call, exit_to, last_frame};
ghost use Rattle.ocp_regions.specs.Access.{HasOctets};
ghost use Rattle.ocp_check.specs.Mirror.Ranges.{IsIn, AreIn, IsThere};
ghost use Rattle.ocp_check.specs.Mirror.Words.{IsWord, AreWords};
ghost use Rattle.ocp_check.specs.Mirror.Forms.{IsForm, AreFormed};
ghost use Rattle.ocp_check.specs.Mirror.Fits.{Certificate, AccessIsThere, Fits, LeadsTo, Matches, FitsAfter};

use crate::answers::after_engine_call;
use crate::certificate::{Node, Row, after_return};
use crate::covering::{
    covers, form_of, form_of_operand, range_of, range_of_operand, with_base, with_base_of_operand,
    with_known, with_register,
};
use crate::form::{Form, form_of_result};
use crate::laws::accesses_are_there;
use crate::loading::{numbers_in, numbers_of, numbers_of_width};
use crate::range::{
    Range, Test, is_empty, is_there, is_within, number_of, only, refinement, result_of, sum,
};
use crate::word::{Word, index_of, kept_after, words_with};
use bpf_step::{FRAME_OCTETS, MAX_LOCAL_CALLS};
use bpf_types::{Line, Operand, Operation, Reg, Size, Width};
use bpf_values::size_of;

/// Where a distance leads to, unless that is a negative slot.
pub(crate) fn target(slot: u16, distance: i32) -> Option<usize>
    ensures { IfSome result (λ place. place ≡ target slot distance) }
{
    usize::try_from(i64::from(slot) + 1 + i64::from(distance)).ok()
}

/// What is known after a write to a register, of which this is known afterwards.
fn after_write(node: &Node, dst: Reg, known: Option<Range>) -> Node
    ensures { (certificate : Certificate) (s : State) (v slots : ℕ) →
        Matches certificate node.now s → IsIn known v →
        Matches certificate result (state_after_write s dst v slots) }
{
    with_register(node, dst, known, None)
}

/// What is known after an operation.
pub(crate) fn after_operation(
    node: &Node,
    width: Width,
    operation: Operation,
    dst: Reg,
    operand: Operand,
) -> Node
    ensures stands { (certificate : Certificate) (s : State) → Matches certificate node.now s →
        Matches certificate result (state_after_write s dst (arithmetic_result width operation
        (slice_index s.registers dst) (operand_in s.registers operand)) 1) }
    ensures tied { (bases : ℕ → ℕ) (registers : List ℕ) → AreIn node.now.row registers →
        AreFormed node.now.forms bases registers →
        let next = slice_set registers dst (arithmetic_result width operation
        (slice_index registers dst) (operand_in registers operand)) in
        AreIn result.row next × AreFormed result.forms bases next }
{
    let a = form_of(&node.forms, dst);
    let b = form_of_operand(&node.forms, &operand);
    let first = range_of(&node.row, dst);
    let second = range_of_operand(&node.row, operand);
    let value = result_of(width, operation, first, second);
    let form = form_of_result(width, operation, a, b, first, second);
    with_register(node, dst, value, form)
}

/// The place after a jump that is taken or not, unless that is a negative slot.
pub(crate) fn place_after(slot: u16, distance: Option<i32>) -> Option<usize>
    ensures { IfSome result (λ place. place ≡ place_by slot distance) }
{
    match distance {
        Some(distance) => target(slot, distance),
        None => Some(usize::from(slot) + 1),
    }
}

/// Whether a jump that is taken or not, after which this is known of a register, fits the
/// certificate.
fn is_kept_jumping(
    certificate: &[Option<Node>],
    slot: u16,
    distance: Option<i32>,
    node: &Node,
    register: Reg,
    known: Option<Range>,
) -> bool
    ensures { IsTrue result → (s : State) → s.place ≡ slot → Matches certificate.now node.now s →
        IsIn known (slice_index s.registers register) →
        Fits certificate.now (state_after_jump s distance) }
{
    if is_empty(known) {
        return true;
    }
    match place_after(slot, distance) {
        Some(place) => covers(certificate, place, &with_known(node, register, known)),
        None => false,
    }
}

/// What is known of the address of an access.
fn address_range(row: &Row, base: Reg, offset: i16) -> Option<Range>
    ensures { (registers : List ℕ) → AreIn row.now registers →
        IsIn result (address_in registers base offset) }
{
    sum(range_of(row, base), only(i64::from(offset).cast_unsigned()))
}

/// Whether an access is inside a region; a store may not be to the arguments.
fn is_inside_at(node: &Node, base: Reg, offset: i16, size: Size, writes: bool) -> bool
    ensures { IsTrue result → (registers : List ℕ) → AreIn node.now.row registers →
        IsThere writes (address_in registers base offset) (octets_in size) }
{
    is_there(
        range_of(&node.row, base),
        offset,
        size.octets() as u64,
        writes,
    )
}

/// The same of the access of a line, if it has one.
pub(crate) fn is_inside(node: &Node, line: &Line) -> bool
    ensures { IsTrue result → (registers : List ℕ) → AreIn node.now.row registers →
        AccessIsThere line.now registers }
{
    match *line {
        Line::Load {
            size,
            base,
            offset,
            ..
        } => is_inside_at(node, base, offset, size, false),
        Line::LoadExtended {
            size,
            base,
            offset,
            ..
        } => is_inside_at(node, base, offset, size_of(size), false),
        Line::StoreImmediate {
            size,
            base,
            offset,
            ..
        } => is_inside_at(node, base, offset, size, true),
        Line::Store {
            size,
            base,
            offset,
            ..
        } => is_inside_at(node, base, offset, size, true),
        _ => true,
    }
}

/// The word, if it is at an address.
fn word_with_address(word: Option<Word>, address: u64) -> Option<Word>
    ensures { IfSome result (λ found. (bases : ℕ → ℕ) (m : Octets) (v : ℕ) → IsWord word bases m →
        number_in_memory m address 8 ≡ Ok v → IsIn found.known v × IsForm found.form bases v) }
{
    match word {
        Some(word) if word.address == address => Some(word),
        _ => None,
    }
}

/// The word of the stack that a load reads, if something is known of it.
fn word_read(node: &Node, base: Reg, offset: i16, size: Size) -> Option<Word>
    ensures { IfSome result (λ word. (bases : ℕ → ℕ) (registers : List ℕ) (m : Octets) (v : ℕ) →
        AreIn node.now.row registers → AreWords node.now.words bases m →
        number_in_memory m (address_in registers base offset) (octets_in size) ≡ Ok v →
        IsIn word.known v × IsForm word.form bases v) }
{
    if size.octets() != 8 {
        return None;
    }
    let Some(address) = number_of(address_range(&node.row, base, offset)) else {
        return None;
    };
    word_with_address(node.words[index_of(address)], address)
}

/// What is known after a load.
fn after_load(node: &Node, dst: Reg, base: Reg, offset: i16, size: Size) -> Node
    ensures { (certificate : Certificate) (s : State) (v : ℕ) → Matches certificate node.now s →
        number_in_memory s.memory (address_in s.registers base offset) (octets_in size) ≡ Ok v →
        v < 256 ^ octets_in size → Matches certificate result (state_after_write s dst v 1) }
{
    match word_read(node, base, offset, size) {
        Some(word) => with_register(node, dst, word.known, word.form),
        None => with_register(node, dst, numbers_of(size), None),
    }
}

/// What is known after a store of a number.
fn after_store(
    node: &Node,
    base: Reg,
    offset: i16,
    size: Size,
    known: Option<Range>,
    form: Option<Form>,
) -> Node
    ensures { (certificate : Certificate) (s : State) (t : Octets) (v : ℕ) →
        (m : Matches certificate node.now s) → IsIn known v → IsForm form m.bases v →
        IsThere true (address_in s.registers base offset) (octets_in size) →
        memory_after_store s.memory (address_in s.registers base offset) (octets_in size) v ≡ Ok t →
        zeros_over t ≡ zeros m.profile → HasOctets t →
        Matches certificate result (record s { memory = t }) }
{
    let at = address_range(&node.row, base, offset);
    let octets = size.octets() as u64;
    Node {
        words: words_with(&node.words, at, octets, known, form),
        kept: kept_after(node.kept, at, octets),
        ..*node
    }
}

/// What is known at the next slot after a line that writes a register or the memory.
pub(crate) fn after_line(node: &Node, line: &Line) -> Option<Node>
    ensures { IfSome result (λ next. (certificate : Certificate) (s : State) →
        Matches certificate node.now s → AccessIsThere line.now s.registers →
        LeadsTo certificate next (s.place + slots_in line.now) (step line.now s)) }
{
    accesses_are_there();
    match *line {
        Line::Negate { width, dst } => Some(after_write(node, dst, numbers_of_width(width))),
        Line::MoveExtended { dst, .. } => Some(after_write(node, dst, None)),
        Line::ByteOrder { width, dst, .. } => Some(after_write(node, dst, numbers_in(width))),
        Line::LoadExtended { dst, .. } => Some(after_write(node, dst, None)),
        Line::LoadWide { dst, value } => Some(after_write(node, dst, only(value))),
        Line::Arithmetic {
            width,
            operation,
            dst,
            operand,
        } => {
            let based = with_base_of_operand(node, &operand);
            Some(after_operation(&based, width, operation, dst, operand))
        }
        Line::Load {
            size,
            dst,
            base,
            offset,
        } => Some(after_load(node, dst, base, offset, size)),
        Line::StoreImmediate {
            size,
            base,
            offset,
            ..
        } => Some(after_store(node, base, offset, size, None, None)),
        Line::Store {
            size,
            base,
            offset,
            src,
        } => {
            let based = with_base(node, src);
            let known = range_of(&based.row, src);
            let form = form_of(&based.forms, src);
            Some(after_store(&based, base, offset, size, known, form))
        }
        _ => None,
    }
}

/// Whether a line that writes a register or the memory fits the certificate, and its access is
/// inside a region.
fn is_kept_moving(certificate: &[Option<Node>], slot: u16, node: &Node, line: &Line) -> bool
    ensures { IsTrue result → (s : State) → s.place ≡ slot → Matches certificate.now node.now s →
        FitsAfter certificate.now s (step line.now s) }
{
    let next = usize::from(slot) + usize::from(line.slots());
    match after_line(node, line) {
        Some(after) => is_inside(node, line) && covers(certificate, next, &after),
        None => false,
    }
}

/// Whether an engine call fits the certificate, whatever it answers.
fn is_kept_calling(certificate: &[Option<Node>], slot: u16, node: &Node, number: i32) -> bool
    ensures { IsTrue result → (s : State) (r0 : ℕ) (r1 : Option ℕ) → s.place ≡ slot →
        Matches certificate.now node.now s → IsAnswer number r0 r1 →
        Fits certificate.now (state_after_engine_call s r0 r1) }
{
    covers(
        certificate,
        usize::from(slot) + 1,
        &after_engine_call(node, number),
    )
}

/// What is known of the first operand of a conditional jump after a test that held, or did not.
pub(crate) fn range_by_test(row: &Row, line: &Line, held: bool) -> Option<Range>
    ensures { (width : Width) (comparison : Comparison) (dst : ℕ) (operand : Operand)
        (distance : ℤ) (registers : List ℕ) →
        line.now ≡ kind.JumpIf width comparison dst operand distance → AreIn row.now registers →
        is_taken width comparison (slice_index registers dst) (operand_in registers operand)
        ≡ held → IsIn result (slice_index registers dst) }
{
    match *line {
        Line::JumpIf {
            width,
            comparison,
            dst,
            operand,
            ..
        } => {
            let test = Test {
                width,
                comparison,
                held,
            };
            refinement(test, range_of(row, dst), range_of_operand(row, operand))
        }
        _ => None,
    }
}

/// Whether both ways of a conditional jump fit the certificate, by what its test shows.
fn is_kept_branching(certificate: &[Option<Node>], slot: u16, node: &Node, line: &Line) -> bool
    ensures { IsTrue result → (s : State) → s.place ≡ slot → Matches certificate.now node.now s →
        FitsAfter certificate.now s (step line.now s) }
{
    let Line::JumpIf { dst, distance, .. } = *line else {
        return false;
    };
    let taken = range_by_test(&node.row, line, true);
    let passed = range_by_test(&node.row, line, false);
    let distance = i32::from(distance);
    is_kept_jumping(certificate, slot, Some(distance), node, dst, taken)
        && is_kept_jumping(certificate, slot, None, node, dst, passed)
}

/// What is known at the first slot of a local call: as at the call, but for R10 and the promises.
pub(crate) fn at_call(
    node: &Node,
    pointer: Option<Range>,
    promise: Option<Range>,
    spared: u64,
) -> Node
    requires { node.now.depth < MAX_LOCAL_CALLS }
    ensures { result ≡ record {
      row = slice_set node.now.row 10 pointer;
      forms = slice_set node.now.forms 10 None;
      words = node.now.words;
      kept = 0;
      depth = node.now.depth + 1;
      promise = promise;
      spared = spared;
    } }
{
    let mut row = node.row;
    let mut forms = node.forms;
    row[10] = pointer;
    forms[10] = None;
    Node {
        row,
        forms,
        kept: 0,
        depth: node.depth + 1,
        promise,
        spared,
        ..*node
    }
}

/// Whether a local call is not too deep, and fits the certificate both at its first slot and after
/// its end.
fn is_kept_opening(certificate: &[Option<Node>], slot: u16, distance: i32, node: &Node) -> bool
    ensures { IsTrue result → (s : State) → s.place ≡ slot → Matches certificate.now node.now s →
        FitsAfter certificate.now s (local_call s distance) }
{
    let Some(place) = target(slot, distance) else {
        return false;
    };
    let Some(Some(first)) = certificate.get(place) else {
        return false;
    };
    if usize::from(node.depth) >= MAX_LOCAL_CALLS {
        return false;
    }
    let pointer = sum(node.row[10], only(FRAME_OCTETS.wrapping_neg()));
    let called = at_call(node, pointer, first.promise, first.spared);
    let returned = after_return(node, first.promise, first.spared);
    covers(certificate, place, &called) && covers(certificate, usize::from(slot) + 1, &returned)
}

/// Whether R0 and the stack are as it was promised for the end of the innermost local call.
fn keeps_promise(node: &Node) -> bool
    ensures same { IsTrue result → node.now.kept ≤ node.now.spared }
    ensures r0 { IsTrue result → (v : ℕ) → IsIn (slice_index_or node.now.row 0 None) v →
        IsIn node.now.promise v }
{
    node.kept <= node.spared && is_within(node.row[0], node.promise)
}

/// Whether the end of a local call keeps what is promised of R0. The end of the procedure keeps
/// everything.
fn is_kept_ending(certificate: &[Option<Node>], node: &Node) -> bool
    ensures { IsTrue result → (s : State) → Matches certificate.now node.now s →
        FitsAfter certificate.now s (exit_to s (last_frame s)) }
{
    node.depth == 0 || keeps_promise(node)
}

/// Whether what a machine at the slot does next fits the certificate, and is no fault.
pub(crate) fn is_kept(certificate: &[Option<Node>], slot: u16, node: &Node, line: Line) -> bool
    ensures { IsTrue result → (s : State) → s.place ≡ slot → Matches certificate.now node.now s →
        FitsAfter certificate.now s (step line s) }
{
    // A jump without a test shows nothing new: it passes R0 with what is known of it.
    let r0 = Reg::zero();
    let known = range_of(&node.row, r0);
    match line {
        Line::Jump { distance } => {
            is_kept_jumping(
                certificate,
                slot,
                Some(i32::from(distance)),
                node,
                r0,
                known,
            )
        }
        Line::LongJump { distance } => {
            is_kept_jumping(certificate, slot, Some(distance), node, r0, known)
        }
        Line::JumpIf { .. } => is_kept_branching(certificate, slot, node, &line),
        Line::Call { number } => is_kept_calling(certificate, slot, node, number),
        Line::CallLocal { distance } => is_kept_opening(certificate, slot, distance, node),
        Line::Exit => is_kept_ending(certificate, node),
        _ => is_kept_moving(certificate, slot, node, &line),
    }
}
