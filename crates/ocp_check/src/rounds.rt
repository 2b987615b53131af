//! How many instructions follow one another before a step ends.
ghost use Rattle.std.specs.Prelude.{◌≡◌, ◌≤◌, ◌<◌, ◌+◌, ℕ, Bool, IsTrue, IfSome, if◌then◌else◌, None, Some, [], length, slice_get, slice_index, slice_set, List, Option, Result};
ghost use Rattle.ocp_regions.specs.declared.fault.AccessFault.{AccessFault};
ghost use Rattle.ocp_regions.specs.Memory.{Octets};
ghost use Rattle.bpf_moves.specs.Moves.{operand_in, load_register, store_memory, move_by_jump};
ghost use Rattle.bpf_types.specs.declared.line.Line.TheVariants as kind;
ghost use Rattle.bpf_types.specs.declared.line.Operand.{Operand};
ghost use Rattle.bpf_types.specs.declared.line.Operation.{Operation};
ghost use Rattle.bpf_types.specs.declared.line.Width.{Width};
ghost use Rattle.bpf_values.specs.Value.{arithmetic_result};
ghost use Rattle.bpf_step.specs.declared.answer.Need.TheVariants as need;
ghost use Rattle.bpf_step.specs.Machine.{State, Next, Needs, NoInstruction, state_after_write, state_after_jump};
ghost use Rattle.bpf_step.specs.Step.{step, one_step, outcome_by};
ghost use Rattle.bpf_step.specs.Calls.{local_call, exit_to, frame_of, last_frame, maybe_set};
ghost use Rattle.ocp_check.specs.declared.counting.Counter.{Counter};
ghost use Rattle.ocp_check.specs.Mirror.Ranges.{IsIn, AreIn};
ghost use Rattle.ocp_check.specs.Mirror.Forms.{IsForm};
ghost use Rattle.ocp_check.specs.Mirror.Fits.{Certificate, Fits, FitsAfter, Matches};
ghost use Rattle.ocp_check.specs.Rounds.{IsWithin};
ghost use Rattle.ocp_check.specs.Mirror.Ranks.{AreMoved, AreSteady, Falls, IsMoved, IsSteady, SavedAreSame, total_share, kept_steps, registers_of, share_of, value_at};

use crate::answers::STEP_END;
use crate::certificate::{Node, Row};
use crate::checker::check;
use crate::counting::Step::{Anywhere, By, Kept};
use crate::counting::{COUNTERS, Counter, Rank, Step, Steps, ahead_by, counter_at};
use crate::covering::{node_at, range_of, row_at, tie_of, with_base};
use crate::form::Form;
use crate::range::Range;
use crate::steps::{after_operation, place_after, target};
use bpf_moves::REGISTERS;
use bpf_types::{Line, Operand, Operation, Reg, Width};
use ocp_loader::{MAX_SLOTS, Program};
use std::alloc::Allocator;

/// Ranks of the slots, the counters to which they refer, and what is known at each slot.
#[derive(Clone, Copy)]
pub(crate) struct Ranks<'a> {
    pub nodes: &'a [Option<Node>],
    pub ranks: &'a [Rank],
    pub counters: &'a [Counter],
}

/// What becomes of a number, by its forms before and after.
fn step_between(old: Option<Form>, new: Option<Form>, known: Option<Range>) -> Step
    ensures { (bases : ℕ → ℕ) (v w : ℕ) → IsForm old bases v → IsForm new bases w →
        IsIn known w → IsMoved result v w }
{
    match (old, new, known) {
        (Some(old), Some(new), Some(_)) if old.base == new.base && old.times == new.times => {
            By(new.plus.wrapping_sub(old.plus))
        }
        _ => Anywhere,
    }
}

/// What becomes of the first operand of an operation: it grows by a number if the result is tied
/// to it, also as the copy of another register.
fn step_by(node: &Node, width: Width, operation: Operation, dst: Reg, operand: Operand) -> Step
    ensures { (certificate : Certificate) (s : State) → Matches certificate node.now s →
        IsMoved result (slice_index s.registers dst) (arithmetic_result width operation
        (slice_index s.registers dst) (operand_in s.registers operand)) }
{
    let based = with_base(node, dst);
    let after = after_operation(&based, width, operation, dst, operand);
    step_between(
        tie_of(&based, dst),
        tie_of(&after, dst),
        range_of(&after.row, dst),
    )
}

/// What becomes of the register that a line writes.
pub(crate) fn step_of_line(node: &Node, line: &Line) -> Step
    ensures { (certificate : Certificate) (s : State) (width : Width) (operation : Operation)
        (dst : ℕ) (operand : Operand) → line.now ≡ kind.Arithmetic width operation dst operand →
        Matches certificate node.now s → IsMoved result (slice_index s.registers dst)
        (arithmetic_result width operation (slice_index s.registers dst)
        (operand_in s.registers operand)) }
{
    let Line::Arithmetic {
        width,
        operation,
        dst,
        operand,
    } = *line
    else {
        return Anywhere;
    };
    step_by(node, width, operation, dst, operand)
}

/// One register is changed.
pub(crate) fn steps_with(register: Reg, step: Step) -> Steps
    ensures { result ≡ slice_set kept_steps register step }
{
    let mut steps = [Kept; REGISTERS];
    steps[usize::from(register.number())] = step;
    steps
}

/// An engine call changes R0, and may change R1.
pub(crate) fn steps_of_call() -> Steps
    ensures { (old : List ℕ) (r0 : ℕ) (r1 : Option ℕ) → length old ≡ 11 →
        AreMoved result old (maybe_set (slice_set old 0 r0) 1 r1) }
{
    [
        Anywhere, Anywhere, Kept, Kept, Kept, Kept, Kept, Kept, Kept, Kept, Kept,
    ]
}

/// What becomes of the registers from a local call to its end: R0 to R5 may be any numbers.
fn steps_of_return() -> Steps
    ensures { (s : State) → AreMoved result s.registers (registers_of (frame_of s)) }
{
    [
        Anywhere, Anywhere, Anywhere, Anywhere, Anywhere, Anywhere, Kept, Kept, Kept, Kept, Kept,
    ]
}

/// What a frame has saved of registers of which this is known.
fn saved_row(row: &Row) -> Row
    ensures { (s : State) → AreIn row.now s.registers → AreIn result (registers_of (frame_of s)) }
{
    [
        None, None, None, None, None, None, row[6], row[7], row[8], row[9], row[10],
    ]
}

/// The rank of a place, if it is in the image.
fn rank_at(ranks: &[Rank], place: usize) -> Option<Rank>
    ensures { result ≡ slice_get ranks.now place }
{
    match ranks.get(place) {
        Some(rank) => Some(*rank),
        None => None,
    }
}

/// How many instructions may follow at a place to which an instruction leads.
pub(crate) fn ahead_at(
    all: &Ranks<'_>,
    was: &[bool; COUNTERS],
    before: &Row,
    place: usize,
    steps: &Steps,
) -> Option<u64>
    ensures { IfSome result (λ most. (old : List ℕ) (t : State) → AreIn before.now old →
        t.place ≡ place → Fits all.now.nodes.now t → AreMoved steps.now old t.registers →
        value_at all.now.ranks.now all.now.counters.now t.place t.registers
        ≤ most + total_share all.now.counters.now was.now old 8) }
{
    match row_at(all.nodes, place) {
        Some(after) => match rank_at(all.ranks, place) {
            Some(rank) => ahead_by(all.counters, was, &rank, before, &after, steps),
            None => None,
        },
        None => Some(0),
    }
}

/// How many instructions may follow at a place, whatever leads there.
pub(crate) fn most_at(all: &Ranks<'_>, place: usize) -> Option<u64>
    ensures { IfSome result (λ most. (t : State) → t.place ≡ place → Fits all.now.nodes.now t →
        value_at all.now.ranks.now all.now.counters.now t.place t.registers ≤ most) }
{
    ahead_at(
        all,
        &[false; COUNTERS],
        &[None; REGISTERS],
        place,
        &[Anywhere; REGISTERS],
    )
}

/// How many instructions may follow after a local call has ended.
pub(crate) fn ahead_after(
    all: &Ranks<'_>,
    was: &[bool; COUNTERS],
    before: &Row,
    place: usize,
) -> Option<u64>
    ensures { IfSome result (λ most. (s : State) → AreIn before.now s.registers →
        value_at all.now.ranks.now all.now.counters.now place (registers_of (frame_of s))
        ≤ most + total_share all.now.counters.now was.now s.registers 8) }
{
    match rank_at(all.ranks, place) {
        Some(rank) => ahead_by(
            all.counters,
            was,
            &rank,
            before,
            &saved_row(before),
            &steps_of_return(),
        ),
        None => None,
    }
}

/// Whether an instruction at a slot that leads to a place leaves fewer instructions ahead.
fn lowers(all: &Ranks<'_>, slot: u16, node: &Node, place: usize, steps: &Steps) -> bool
    ensures { IsTrue result → (s t : State) → s.place ≡ slot →
        Matches all.now.nodes.now node.now s → t.place ≡ place → Fits all.now.nodes.now t →
        AreMoved steps.now s.registers t.registers →
        value_at all.now.ranks.now all.now.counters.now t.place t.registers
        < value_at all.now.ranks.now all.now.counters.now s.place s.registers }
{
    let Some(here) = rank_at(all.ranks, usize::from(slot)) else {
        return false;
    };
    match ahead_at(all, &here.counts, &node.row, place, steps) {
        Some(most) => most < here.base,
        None => false,
    }
}

/// The same of a write to a register, of which this becomes.
fn write_lowers(all: &Ranks<'_>, slot: u16, slots: u16, node: &Node, dst: Reg, step: Step) -> bool
    ensures { IsTrue result → (s : State) (most v : ℕ) → s.place ≡ slot →
        Matches all.now.nodes.now node.now s →
        AreSteady all.now.ranks.now all.now.counters.now s.frames →
        IsMoved step (slice_index s.registers dst) v →
        Fits all.now.nodes.now (state_after_write s dst v slots) →
        Falls all.now.ranks.now all.now.counters.now most s
        (Next (state_after_write s dst v slots)) }
{
    slots <= 2
        && lowers(
            all,
            slot,
            node,
            usize::from(slot) + usize::from(slots),
            &steps_with(dst, step),
        )
}

/// The same of a jump that is taken or not.
fn jump_lowers(all: &Ranks<'_>, slot: u16, distance: Option<i32>, node: &Node) -> bool
    ensures { IsTrue result → (s : State) (most : ℕ) → s.place ≡ slot →
        Matches all.now.nodes.now node.now s →
        AreSteady all.now.ranks.now all.now.counters.now s.frames →
        Fits all.now.nodes.now (state_after_jump s distance) →
        Falls all.now.ranks.now all.now.counters.now most s (Next (state_after_jump s distance)) }
{
    match place_after(slot, distance) {
        Some(place) => lowers(all, slot, node, place, &[Kept; REGISTERS]),
        None => false,
    }
}

/// The same of a load, whatever it reads.
fn load_lowers(all: &Ranks<'_>, slot: u16, node: &Node, dst: Reg) -> bool
    ensures { IsTrue result → (s : State) (most : ℕ) (f : ℕ → ℕ) (read : Result ℕ AccessFault) →
        s.place ≡ slot → Matches all.now.nodes.now node.now s →
        AreSteady all.now.ranks.now all.now.counters.now s.frames →
        FitsAfter all.now.nodes.now s
        (outcome_by s (load_register s.registers s.memory dst f read) NoInstruction) →
        Falls all.now.ranks.now all.now.counters.now most s
        (outcome_by s (load_register s.registers s.memory dst f read) NoInstruction) }
{
    write_lowers(all, slot, 1, node, dst, Anywhere)
}

/// The same of a store.
fn store_lowers(all: &Ranks<'_>, slot: u16, node: &Node) -> bool
    ensures { IsTrue result → (s : State) (most : ℕ) (written : Result Octets AccessFault) →
        s.place ≡ slot → Matches all.now.nodes.now node.now s →
        AreSteady all.now.ranks.now all.now.counters.now s.frames →
        FitsAfter all.now.nodes.now s
        (outcome_by s (store_memory s.registers written) NoInstruction) →
        Falls all.now.ranks.now all.now.counters.now most s
        (outcome_by s (store_memory s.registers written) NoInstruction) }
{
    lowers(all, slot, node, usize::from(slot) + 1, &[Kept; REGISTERS])
}

/// The same of both ways of a conditional jump.
fn branch_lowers(all: &Ranks<'_>, slot: u16, node: &Node, distance: i32) -> bool
    ensures { IsTrue result → (s : State) (most : ℕ) (taken : Bool) → s.place ≡ slot →
        Matches all.now.nodes.now node.now s →
        AreSteady all.now.ranks.now all.now.counters.now s.frames →
        FitsAfter all.now.nodes.now s (outcome_by s (move_by_jump s.registers s.memory
        (if taken then Some distance else None)) NoInstruction) →
        Falls all.now.ranks.now all.now.counters.now most s (outcome_by s (move_by_jump s.registers
        s.memory (if taken then Some distance else None)) NoInstruction) }
{
    jump_lowers(all, slot, Some(distance), node) && jump_lowers(all, slot, None, node)
}

/// Whether fewer instructions than the most may follow at a place.
fn is_under(all: &Ranks<'_>, place: usize, most: u32) -> bool
    ensures { IsTrue result → (t : State) → t.place ≡ place → Fits all.now.nodes.now t →
        value_at all.now.ranks.now all.now.counters.now t.place t.registers < most }
{
    match most_at(all, place) {
        Some(ahead) => ahead < u64::from(most),
        None => false,
    }
}

/// Whether an engine call leaves fewer instructions ahead, or is the end of a step outside of all
/// local calls after which there are fewer than the most.
fn call_lowers(all: &Ranks<'_>, slot: u16, node: &Node, number: i32, most: u32) -> bool
    ensures { IsTrue result → (s : State) → s.place ≡ slot → Matches all.now.nodes.now node.now s →
        AreSteady all.now.ranks.now all.now.counters.now s.frames →
        FitsAfter all.now.nodes.now s (Needs (need.Call number)) →
        Falls all.now.ranks.now all.now.counters.now most s (Needs (need.Call number)) }
{
    let next = usize::from(slot) + 1;
    if number == STEP_END && node.depth == 0 {
        is_under(all, next, most)
    } else {
        lowers(all, slot, node, next, &steps_of_call())
    }
}

/// Whether the rank at a place goes by registers alone that a local call keeps.
fn is_steady(all: &Ranks<'_>, place: usize) -> bool
    ensures { IsTrue result → IsSteady all.now.ranks.now all.now.counters.now place }
{
    match rank_at(all.ranks, place) {
        Some(rank) => are_saved(all.counters, &rank.counts),
        None => false,
    }
}

/// Whether a local call keeps what some counters add.
fn are_saved(counters: &[Counter], counts: &[bool; COUNTERS]) -> bool
    ensures { IsTrue result → (old new : List ℕ) → SavedAreSame old new →
        total_share counters.now counts.now new 8 ≡ total_share counters.now counts.now old 8 }
{
    for k in 0..COUNTERS {
        if counts[k] && !is_saved(counters, k) {
            return false;
        }
    }
    true
}

/// Whether a local call keeps what a counter adds.
fn is_saved(counters: &[Counter], k: usize) -> bool
    ensures { IsTrue result → (counts : Bool) (old new : List ℕ) → SavedAreSame old new →
        share_of (slice_get counters.now k) counts new
        ≡ share_of (slice_get counters.now k) counts old }
{
    match counter_at(counters, k) {
        Some(counter) => counter.register.number() > 5,
        None => true,
    }
}

/// Whether a local call leaves fewer instructions ahead, those after its end among them.
fn open_lowers(all: &Ranks<'_>, slot: u16, distance: i32, node: &Node) -> bool
    ensures { IsTrue result → (s : State) (most : ℕ) → s.place ≡ slot →
        Matches all.now.nodes.now node.now s →
        AreSteady all.now.ranks.now all.now.counters.now s.frames →
        FitsAfter all.now.nodes.now s (local_call s distance) →
        Falls all.now.ranks.now all.now.counters.now most s (local_call s distance) }
{
    let Some(place) = target(slot, distance) else {
        return false;
    };
    let Some(here) = rank_at(all.ranks, usize::from(slot)) else {
        return false;
    };
    let next = usize::from(slot) + 1;
    if !is_steady(all, next) {
        return false;
    }
    let Some(first) = most_at(all, place) else {
        return false;
    };
    let Some(after) = ahead_after(all, &here.counts, &node.row, next) else {
        return false;
    };
    first < here.base && after < here.base - first
}

/// Whether the rank of a slot is over zero.
fn is_over_zero(ranks: &[Rank], slot: u16) -> bool
    ensures { IsTrue result → (counters : List Counter) (registers : List ℕ) →
        0 < value_at ranks.now counters slot registers }
{
    match rank_at(ranks, usize::from(slot)) {
        Some(here) => here.base > 0,
        None => false,
    }
}

/// Whether the end of a local call has a rank over zero. The end of the procedure may have any.
fn end_lowers(ranks: &[Rank], slot: u16, depth: u8) -> bool
    ensures { IsTrue result → (s : State) (counters : List Counter) (most : ℕ) → s.place ≡ slot →
        (depth ≡ 0 → s.frames ≡ []) → length s.registers ≡ 11 →
        AreSteady ranks.now counters s.frames →
        Falls ranks.now counters most s (exit_to s (last_frame s)) }
{
    depth == 0 || is_over_zero(ranks, slot)
}

/// Whether the line at a slot leaves fewer instructions ahead, or ends a step.
fn falls(all: &Ranks<'_>, slot: u16, node: &Node, line: Line, most: u32) -> bool
    ensures { IsTrue result → (s : State) → s.place ≡ slot → Matches all.now.nodes.now node.now s →
        AreSteady all.now.ranks.now all.now.counters.now s.frames →
        FitsAfter all.now.nodes.now s (step line s) →
        Falls all.now.ranks.now all.now.counters.now most s (step line s) }
{
    match line {
        Line::Arithmetic { dst, .. } => {
            write_lowers(all, slot, 1, node, dst, step_of_line(node, &line))
        }
        Line::Negate { dst, .. } | Line::MoveExtended { dst, .. } | Line::ByteOrder { dst, .. } => {
            write_lowers(all, slot, 1, node, dst, Anywhere)
        }
        Line::Jump { distance } => jump_lowers(all, slot, Some(i32::from(distance)), node),
        Line::LongJump { distance } => jump_lowers(all, slot, Some(distance), node),
        Line::JumpIf { distance, .. } => branch_lowers(all, slot, node, i32::from(distance)),
        Line::Call { number } => call_lowers(all, slot, node, number, most),
        Line::CallLocal { distance } => open_lowers(all, slot, distance, node),
        Line::Exit => end_lowers(all.ranks, slot, node.depth),
        Line::LoadWide { dst, .. } => write_lowers(all, slot, 2, node, dst, Anywhere),
        Line::Load { dst, .. } | Line::LoadExtended { dst, .. } => {
            load_lowers(all, slot, node, dst)
        }
        Line::StoreImmediate { .. } | Line::Store { .. } => store_lowers(all, slot, node),
    }
}

/// The same of a slot of the image. No machine comes to a slot of which the certificate says
/// nothing.
fn falls_at<A: Allocator>(program: &Program<A>, all: &Ranks<'_>, slot: u16, most: u32) -> bool
    ensures { IsTrue result → (s : State) → s.place ≡ slot → Fits all.now.nodes.now s →
        AreSteady all.now.ranks.now all.now.counters.now s.frames →
        FitsAfter all.now.nodes.now s (one_step program.now s) →
        Falls all.now.ranks.now all.now.counters.now most s (one_step program.now s) }
{
    match node_at(all.nodes, slot) {
        Some(node) => match program.line_at(slot) {
            Some(line) => falls(all, slot, &node, line, most),
            None => true,
        },
        None => true,
    }
}

/// Whether a certificate, ranks and counters show that at most this many instructions of the image
/// follow one another up to the end of a step or of the procedure. Nothing rests on how they were
/// found.
pub fn check_rounds<A: Allocator>(
    program: &Program<A>,
    certificate: &[Option<Node>],
    ranks: &[Rank],
    counters: &[Counter],
    most: u32,
) -> bool
    ensures { IsTrue result → IsWithin program.now most }
{
    let all = Ranks {
        nodes: certificate,
        ranks,
        counters,
    };
    if !check(program, certificate) || certificate.len() > MAX_SLOTS || !is_under(&all, 0, most) {
        return false;
    }
    for slot in 0..certificate.len() as u16 {
        if !falls_at(program, &all, slot, most) {
            return false;
        }
    }
    true
}
