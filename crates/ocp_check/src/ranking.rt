//! The search for ranks. Nothing rests on it: `check_rounds` tests what it finds.
//!
//! Each jump back makes a loop: the slots from its target to it. A register that only rises or only
//! falls there may count how often the loop repeats. Its weight is the most instructions from one
//! change of it to the next.

use crate::answers::{STEP_END, may_write_r1};
use crate::certificate::Node;
use crate::counting::{COUNTERS, Counter, Rank, Step, Steps};
use crate::covering::{node_and_line, range_of};
use crate::rounds::{
    Ranks, ahead_after, ahead_at, most_at, step_of_line, steps_of_call, steps_with,
};
use crate::steps::target;
use bpf_moves::REGISTERS;
use bpf_types::{Line, Reg};
use ocp_loader::Program;
use std::alloc::{AllocError, Allocator};

/// The most passes over the slots for the final ranks.
const PASSES: u32 = 64;

/// The most passes for one register of one loop.
const LOOP_PASSES: u32 = 12;

/// The most loops.
const LOOPS: usize = 12;

/// How often a loop is tried: what it calls may have loops that come later.
const TURNS: u32 = 3;

/// The most registers that are tried for a loop each time.
const TRIES: u32 = 2;

/// Ranks do not grow further.
const HIGHEST: u64 = 1 << 40;

/// The slots from a first to a last one.
#[derive(Clone, Copy)]
struct Span {
    first: usize,
    last: usize,
}

impl Span {
    /// Whether a place is among them.
    fn holds(self, place: usize) -> bool {
        self.first <= place && place <= self.last
    }
}

/// The slots from a place to the last jump back to it.
#[derive(Clone, Copy)]
struct Loop {
    span: Span,
    /// It is known to end.
    is_done: bool,
    /// The first turn in which it may be tried again.
    next_turn: u32,
}

/// Where the search for a weight ends: at the ends of a loop, and at changes of a register.
#[derive(Clone, Copy)]
struct Cut {
    span: Span,
    /// The register's number.
    register: Option<u8>,
}

/// Ranks of the slots, and the counters to which they refer.
#[derive(Drop)]
pub(crate) struct Ranking<A: Allocator> {
    pub ranks: Vec<Rank, A>,
    pub counters: Vec<Counter, A>,
}

/// The base of the rank at a place so far; 0 outside of the image.
fn base_of(ranks: &[Rank], place: usize) -> u64 {
    match ranks.get(place) {
        Some(rank) => rank.base,
        None => 0,
    }
}

/// Which counters count at a slot.
fn counts_of(ranks: &[Rank], place: usize) -> [bool; COUNTERS] {
    match ranks.get(place) {
        Some(rank) => rank.counts,
        None => [false; COUNTERS],
    }
}

/// Whether a line changes the register of a number.
fn changes(line: Line, register: u8) -> bool {
    match line {
        Line::Call { number } => register == 0 || (register == 1 && may_write_r1(number)),
        Line::CallLocal { .. } => register <= 5,
        _ => match line.written_dst() {
            Some(dst) => dst.number() == register,
            None => false,
        },
    }
}

/// One more than what an instruction leaves ahead at a place.
fn over(ahead: Option<u64>) -> u64 {
    match ahead {
        Some(ahead) if ahead < HIGHEST => ahead + 1,
        _ => HIGHEST,
    }
}

/// What one way of a line leaves ahead, and one more; 0 if it leaves the loop of a cut.
fn rank_by(
    all: &Ranks<'_>,
    slot: u16,
    node: &Node,
    place: usize,
    steps: &Steps,
    cut: Option<Cut>,
) -> u64 {
    let here = usize::from(slot);
    if let Some(cut) = cut {
        if cut.span.holds(here) && !cut.span.holds(place) {
            return 0;
        }
    }
    let counts = counts_of(all.ranks, here);
    over(ahead_at(all, &counts, &node.row, place, steps))
}

/// The same of a jump by a distance.
fn rank_of_jump(all: &Ranks<'_>, slot: u16, node: &Node, distance: i32, cut: Option<Cut>) -> u64 {
    match target(slot, distance) {
        Some(place) => rank_by(all, slot, node, place, &[Step::Kept; REGISTERS], cut),
        None => 0,
    }
}

/// The same of a local call, with what follows its end.
fn rank_of_call(all: &Ranks<'_>, slot: u16, node: &Node, distance: i32) -> u64 {
    let here = usize::from(slot);
    let Some(place) = target(slot, distance) else {
        return 0;
    };
    let first = over(most_at(all, place));
    let counts = counts_of(all.ranks, here);
    match ahead_after(all, &counts, &node.row, here + 1) {
        Some(after) => first.saturating_add(after).min(HIGHEST),
        None => HIGHEST,
    }
}

/// The rank of a slot by those of the slots that may follow.
fn rank_before(all: &Ranks<'_>, slot: u16, node: &Node, line: Line, cut: Option<Cut>) -> u64 {
    let next = usize::from(slot) + usize::from(line.slots());
    match line {
        Line::Jump { distance } => rank_of_jump(all, slot, node, i32::from(distance), cut),
        Line::LongJump { distance } => rank_of_jump(all, slot, node, distance, cut),
        Line::JumpIf { distance, .. } => {
            let taken = rank_of_jump(all, slot, node, i32::from(distance), cut);
            let passed = rank_of_jump(all, slot, node, 0, cut);
            taken.max(passed)
        }
        Line::Call { number } if number == STEP_END && node.depth == 0 => 0,
        Line::Call { .. } => rank_by(all, slot, node, next, &steps_of_call(), cut),
        Line::CallLocal { distance } => rank_of_call(all, slot, node, distance),
        Line::Exit => u64::from(node.depth > 0),
        _ => match line.written_dst() {
            Some(dst) => {
                let steps = steps_with(dst, step_of_line(node, &line));
                rank_by(all, slot, node, next, &steps, cut)
            }
            None => rank_of_jump(all, slot, node, 0, cut),
        },
    }
}

/// Whether a slot is where the search for a weight ends: its line changes the register of the cut.
fn is_cut<A: Allocator>(program: &Program<A>, slot: u16, cut: Option<Cut>) -> bool {
    match (cut, program.line_at(slot)) {
        (Some(cut), Some(line)) => match cut.register {
            Some(register) => cut.span.holds(usize::from(slot)) && changes(line, register),
            None => false,
        },
        _ => false,
    }
}

/// The rank of a slot that may be reached; else 0.
fn rank_here<A: Allocator>(
    program: &Program<A>,
    all: &Ranks<'_>,
    slot: u16,
    cut: Option<Cut>,
) -> u64 {
    match node_and_line(program, all.nodes, slot) {
        Some((node, line)) if !is_cut(program, slot, cut) => {
            rank_before(all, slot, &node, line, cut)
        }
        _ => 0,
    }
}

/// Whether a slot is in the loop of a cut; every slot is if there is none.
fn is_watched(slot: usize, cut: Option<Cut>) -> bool {
    match cut {
        Some(cut) => cut.span.holds(slot),
        None => true,
    }
}

/// How a line counts in a register, by what is known of the register before it.
fn counter_by_line(node: &Node, line: Line, register: Reg) -> Option<Counter> {
    let Step::By(by) = step_of_line(node, &line) else {
        return None;
    };
    let known = range_of(&node.row, register)?;
    let rises = by < 1 << 63;
    let limit = if rises {
        known.high.checked_add(by)?
    } else {
        known.low.checked_sub(by.wrapping_neg())?
    };
    Some(Counter {
        register,
        rises,
        limit,
        weight: 0,
    })
}

/// One counter for two changes of a register, if they go the same way.
fn wider(first: Counter, second: Counter) -> Option<Counter> {
    if first.rises != second.rises {
        return None;
    }
    let is_farther = if first.rises {
        first.limit < second.limit
    } else {
        second.limit < first.limit
    };
    Some(if is_farther { second } else { first })
}

/// How a register counts in a loop, if it only rises or only falls there.
fn counter_of<A: Allocator>(
    program: &Program<A>,
    nodes: &[Option<Node>],
    span: Span,
    register: Reg,
) -> Option<Counter> {
    let mut found = None;
    for slot in 0..program.slots() as u16 {
        if let Some((node, line)) = node_and_line(program, nodes, slot) {
            if span.holds(usize::from(slot)) && changes(line, register.number()) {
                let one = counter_by_line(&node, line, register)?;
                found = Some(match found {
                    Some(other) => wider(other, one)?,
                    None => one,
                });
            }
        }
    }
    found
}

impl<A: Allocator> Ranking<A> {
    /// The ranks, with what is known at the slots.
    pub fn by<'a>(&'a self, nodes: &'a [Option<Node>]) -> Ranks<'a> {
        Ranks {
            nodes,
            ranks: &self.ranks,
            counters: &self.counters,
        }
    }

    /// One pass over the slots, the last first: whether a rank has grown that is watched.
    fn sweep(&mut self, program: &Program<A>, nodes: &[Option<Node>], cut: Option<Cut>) -> bool {
        let mut has_grown = false;
        for slot in (0..program.slots() as u16).rev() {
            let base = rank_here(program, &self.by(nodes), slot, cut);
            if let Some(rank) = self.ranks.get_mut(usize::from(slot)) {
                if rank.base < base {
                    rank.base = base;
                    has_grown = has_grown || is_watched(usize::from(slot), cut);
                }
            }
        }
        has_grown
    }

    /// Finds all ranks anew: whether they came to rest.
    fn settle(
        &mut self,
        program: &Program<A>,
        nodes: &[Option<Node>],
        cut: Option<Cut>,
        passes: u32,
    ) -> bool {
        for rank in self.ranks.iter_mut() {
            rank.base = 0;
        }
        for _ in 0..passes {
            if !self.sweep(program, nodes, cut) {
                return true;
            }
        }
        false
    }

    /// The most instructions from one change of the register of a cut to the next.
    fn weight(&self, program: &Program<A>, nodes: &[Option<Node>], cut: Cut) -> Option<u32> {
        let mut weight = 1;
        for slot in 0..program.slots() as u16 {
            if let Some((node, line)) = node_and_line(program, nodes, slot) {
                if is_cut(program, slot, Some(cut)) {
                    let ahead = rank_before(&self.by(nodes), slot, &node, line, Some(cut));
                    weight = weight.max(u32::try_from(ahead).ok()?);
                }
            }
        }
        Some(weight)
    }

    /// The number of a counter, which may count in another loop too; of a new one if there is room.
    fn number_of(&mut self, counter: Counter) -> Result<Option<usize>, AllocError> {
        for (number, other) in self.counters.iter().enumerate() {
            if counter == *other {
                return Ok(Some(number));
            }
        }
        let number = self.counters.len();
        if number >= COUNTERS {
            return Ok(None);
        }
        self.counters.push(counter)?;
        Ok(Some(number))
    }

    /// Has a counter count in a loop, if there is room for one.
    fn add(&mut self, counter: Counter, span: Span) -> Result<bool, AllocError> {
        let Some(number) = self.number_of(counter)? else {
            return Ok(false);
        };
        for (slot, rank) in self.ranks.iter_mut().enumerate() {
            if span.holds(slot) && number < COUNTERS {
                rank.counts[number] = true;
            }
        }
        Ok(true)
    }

    /// Tries to have a register count in a loop.
    fn count_by(
        &mut self,
        program: &Program<A>,
        nodes: &[Option<Node>],
        span: Span,
        counter: Counter,
    ) -> Result<bool, AllocError> {
        let cut = Cut {
            span,
            register: Some(counter.register.number()),
        };
        if !self.settle(program, nodes, Some(cut), LOOP_PASSES) {
            return Ok(false);
        }
        match self.weight(program, nodes, cut) {
            Some(weight) => self.add(Counter { weight, ..counter }, span),
            None => Ok(false),
        }
    }

    /// Whether a loop is known to end: without a counter, or now with one.
    fn count(
        &mut self,
        program: &Program<A>,
        nodes: &[Option<Node>],
        span: Span,
    ) -> Result<bool, AllocError> {
        let cut = Cut {
            span,
            register: None,
        };
        if self.settle(program, nodes, Some(cut), LOOP_PASSES) {
            return Ok(true);
        }
        let mut tries = 0;
        for number in 0..10 {
            if tries >= TRIES {
                return Ok(false);
            }
            if let Some(register) = Reg::new(number) {
                if let Some(counter) = counter_of(program, nodes, span, register) {
                    tries += 1;
                    if self.count_by(program, nodes, span, counter)? {
                        return Ok(true);
                    }
                }
            }
        }
        Ok(false)
    }
}

/// Where the line at a slot jumps, if it is a jump.
fn place_of_jump<A: Allocator>(program: &Program<A>, slot: u16) -> Option<usize> {
    match program.line_at(slot)? {
        Line::Jump { distance } => target(slot, i32::from(distance)),
        Line::LongJump { distance } => target(slot, distance),
        Line::JumpIf { distance, .. } => target(slot, i32::from(distance)),
        _ => None,
    }
}

/// Adds a jump back to the loops: to the one with this target if jumps are joined, else as a loop
/// of its own, which is not tried in the first turn.
fn note_loop<A: Allocator>(
    loops: &mut Vec<Loop, A>,
    first: usize,
    last: usize,
    are_joined: bool,
) -> Result<(), AllocError> {
    for one in loops.iter_mut() {
        if one.span.first == first && (are_joined || one.span.last == last) {
            one.span.last = one.span.last.max(last);
            return Ok(());
        }
    }
    if loops.len() < LOOPS {
        loops.push(Loop {
            span: Span { first, last },
            is_done: false,
            next_turn: u32::from(!are_joined),
        })?;
    }
    Ok(())
}

/// The loops of an image, up to `LOOPS`: those of all jumps back to a place, and then, since a jump
/// back may also begin a loop, those of one jump each.
fn find_loops<A: Allocator>(alloc: A, program: &Program<A>) -> Result<Vec<Loop, A>, AllocError> {
    let mut loops = Vec::new(alloc);
    for are_joined in [true, false] {
        for slot in 0..program.slots() as u16 {
            if let Some(place) = place_of_jump(program, slot) {
                if place <= usize::from(slot) {
                    note_loop(&mut loops, place, usize::from(slot), are_joined)?;
                }
            }
        }
    }
    Ok(loops)
}

/// The shortest loop that is not known to end and was not tried in this turn.
fn shortest(loops: &[Loop], turn: u32) -> Option<usize> {
    let mut found = None;
    let mut length = usize::MAX;
    for (k, one) in loops.iter().enumerate() {
        let its = one.span.last.saturating_sub(one.span.first);
        if !one.is_done && one.next_turn <= turn && its < length {
            length = its;
            found = Some(k);
        }
    }
    found
}

/// Has counters count in loops, in each turn the shortest ones first.
fn count_in_loops<A: Allocator>(
    ranking: &mut Ranking<A>,
    program: &Program<A>,
    nodes: &[Option<Node>],
    loops: &mut [Loop],
) -> Result<(), AllocError> {
    for turn in 0..TURNS {
        for _ in 0..LOOPS {
            if let Some(k) = shortest(loops, turn) {
                if let Some(one) = loops.get_mut(k) {
                    one.next_turn = turn + 1;
                    one.is_done = ranking.count(program, nodes, one.span)?;
                }
            }
        }
    }
    Ok(())
}

/// Ranks of the slots, if the search finished: at least how many instructions may follow
/// before the step or the local call ends.
pub(crate) fn find_ranks<A: Allocator + Copy>(
    alloc: A,
    program: &Program<A>,
    nodes: &[Option<Node>],
) -> Result<Ranking<A>, AllocError> {
    let none = Rank {
        base: 0,
        counts: [false; COUNTERS],
    };
    let mut ranking = Ranking {
        ranks: vec![in alloc; none; nodes.len()]?,
        counters: Vec::new(alloc),
    };
    let mut loops = find_loops(alloc, program)?;
    count_in_loops(&mut ranking, program, nodes, &mut loops)?;
    ranking.settle(program, nodes, None, PASSES);
    Ok(ranking)
}

/// The most instructions from a start or the end of a step on, by the ranks.
pub(crate) fn most_of<A: Allocator>(program: &Program<A>, all: &Ranks<'_>) -> Option<u32> {
    let mut most = most_at(all, 0)?;
    for slot in 0..program.slots() as u16 {
        if let Some((node, Line::Call { number })) = node_and_line(program, all.nodes, slot) {
            if number == STEP_END && node.depth == 0 {
                most = most.max(most_at(all, usize::from(slot) + 1)?);
            }
        }
    }
    u32::try_from(most).ok()?.checked_add(1)
}

/// That of two places which has the greater rank.
fn greater(ranks: &[Rank], first: Option<usize>, second: usize) -> usize {
    match first {
        Some(first) if base_of(ranks, first) > base_of(ranks, second) => first,
        _ => second,
    }
}

/// The place that follows a line with the greatest rank, unless the step or the call ends.
fn highest_place_after(ranks: &[Rank], slot: u16, line: Line, depth: u8) -> Option<usize> {
    let next = usize::from(slot) + 1;
    match line {
        Line::Jump { distance } => target(slot, i32::from(distance)),
        Line::LongJump { distance } => target(slot, distance),
        Line::JumpIf { distance, .. } => Some(greater(
            ranks,
            target(slot, i32::from(distance)),
            next,
        )),
        Line::CallLocal { distance } => Some(greater(ranks, target(slot, distance), next)),
        Line::Call { number } if number == STEP_END && depth == 0 => None,
        Line::Exit => None,
        Line::LoadWide { .. } => Some(next + 1),
        _ => Some(next),
    }
}

/// The same of a slot.
fn slot_after<A: Allocator>(program: &Program<A>, all: &Ranks<'_>, slot: u16) -> Option<u16> {
    let (node, line) = node_and_line(program, all.nodes, slot)?;
    u16::try_from(highest_place_after(all.ranks, slot, line, node.depth)?).ok()
}

/// The slot with the greatest rank.
fn highest<A: Allocator>(program: &Program<A>, ranks: &[Rank]) -> u16 {
    let mut found = 0;
    for slot in 0..program.slots() as u16 {
        if base_of(ranks, usize::from(slot)) > base_of(ranks, usize::from(found)) {
            found = slot;
        }
    }
    found
}

/// Slots that may follow one another without end and without the end of a step, if the greatest
/// ranks lead to such.
pub(crate) fn cycle<A: Allocator>(
    alloc: A,
    program: &Program<A>,
    all: &Ranks<'_>,
) -> Result<Vec<u16, A>, AllocError> {
    let mut slots = Vec::new(alloc);
    let mut first = highest(program, all.ranks);
    for _ in 0..program.slots() {
        match slot_after(program, all, first) {
            Some(next) => first = next,
            None => return Ok(slots),
        }
    }
    let mut slot = first;
    for _ in 0..program.slots() {
        slots.push(slot)?;
        match slot_after(program, all, slot) {
            Some(next) if next != first => slot = next,
            _ => break,
        }
    }
    Ok(slots)
}
