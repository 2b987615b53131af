//! The search for a certificate. Nothing rests on it: `check` tests what it finds.
//!
//! It goes over the slots in order, again and again, until nothing changes, at most `PASSES` times.
//! A range that still grows at the target of a jump back after `PLAIN_PASSES` is widened to the
//! next of some numbers, and after `WIDE_PASSES` to all numbers. So the time is linear in the
//! slots.

use crate::answers::after_engine_call;
use crate::certificate::{Node, after_return};
use crate::checker::{at_start, is_kept_at};
use crate::covering::{node_and_line, with_known};
use crate::form::Form;
use crate::range::{Range, WORK_OCTETS, is_empty, lesser, only, stride_of, sum, top_of};
use crate::steps::{after_line, at_call, range_by_test, target};
use crate::tying::{CELLS, cells_of, narrow_by_forms, ties_of};
use crate::word::{WORDS, Word};
use bpf_moves::REGISTERS;
use bpf_step::{FRAME_OCTETS, MAX_LOCAL_CALLS};
use bpf_types::{Line, Operand, Reg};
use ocp_loader::Program;
use ocp_regions::{ARGUMENT_OCTETS, ARGUMENTS, STACK, STACK_OCTETS, WORK};
use std::alloc::{AllocError, Allocator};

/// The most passes over the slots.
const PASSES: u32 = 64;

/// How often ranges grow as they are.
const PLAIN_PASSES: u32 = 3;

/// From which pass on a range that grows becomes all numbers.
const WIDE_PASSES: u32 = 40;

/// How often ranges are narrowed again, if they were widened too far.
const NARROW_PASSES: u32 = 3;

/// The most numbers to which ranges are widened.
const LANDMARKS: usize = 64;

/// The landmarks of every image: ends of the regions, of an index of one octet in them, and of the
/// numbers of fewer octets.
const FIRST_LANDMARKS: [u64; 16] = [
    0,
    1,
    0xff,
    0x100,
    0xffff,
    0xffff_ffff,
    STACK,
    STACK + STACK_OCTETS as u64,
    ARGUMENTS,
    ARGUMENTS + 0xfe,
    ARGUMENTS + 0xff,
    ARGUMENTS + ARGUMENT_OCTETS as u64,
    WORK,
    WORK + 0xff,
    WORK + 0x100,
    WORK + WORK_OCTETS,
];

/// What is known at the ends of local calls.
#[derive(Clone, Copy)]
struct Ending {
    /// Of R0, if there is such an end.
    known: Option<Option<Range>>,
    /// From which address on the stack is as it was when the call was opened.
    spared: u64,
}

/// What is known at each slot so far.
#[derive(Drop)]
struct Search<A: Allocator> {
    nodes: Vec<Option<Node>, A>,
    landmarks: Vec<u64, A>,
    ending: Ending,
    pass: u32,
    has_changed: bool,
}

/// The least range with both; what has no numbers is left out.
fn hull(a: Option<Range>, b: Option<Range>) -> Option<Range> {
    if is_empty(a) {
        return b;
    }
    if is_empty(b) {
        return a;
    }
    match (a, b) {
        (Some(a), Some(b)) => Some(Range {
            low: a.low.min(b.low),
            high: a.high.max(b.high),
            stride: lesser(stride_of(a), stride_of(b)),
        }),
        _ => None,
    }
}

/// The greatest landmark up to a number.
fn landmark_below(landmarks: &[u64], number: u64) -> u64 {
    let mut found = 0;
    for landmark in landmarks {
        if *landmark <= number && found < *landmark {
            found = *landmark;
        }
    }
    found
}

/// The least landmark from a number on, if there is one.
fn landmark_above(landmarks: &[u64], number: u64) -> Option<u64> {
    let mut found = None;
    for landmark in landmarks {
        if *landmark >= number {
            match found {
                Some(least) if least <= *landmark => {}
                _ => found = Some(*landmark),
            }
        }
    }
    found
}

/// A range that was `old` and has become `new`, widened where it has grown.
fn widening(landmarks: &[u64], old: Option<Range>, new: Option<Range>) -> Option<Range> {
    let (Some(old), Some(new)) = (old, new) else {
        return None;
    };
    let low = if new.low < old.low {
        landmark_below(landmarks, new.low)
    } else {
        new.low
    };
    let high = if new.high <= old.high {
        new.high
    } else {
        landmark_above(landmarks, new.high)?
    };
    let wide = Range {
        low,
        high,
        stride: new.stride,
    };
    if high < low {
        return Some(wide);
    }
    Some(Range {
        high: top_of(wide),
        ..wide
    })
}

/// What becomes of a range that grows to `new` at a slot.
fn growth(
    landmarks: &[u64],
    pass: u32,
    is_back: bool,
    old: Option<Range>,
    new: Option<Range>,
) -> Option<Range> {
    if old == new {
        old
    } else if pass >= WIDE_PASSES {
        None
    } else if is_back && pass >= PLAIN_PASSES {
        widening(landmarks, old, new)
    } else {
        new
    }
}

/// A node at which machines are as the old one says, or as the new one, with what is known of its
/// cells. What is known of words is left out if they are not at the same address.
fn node_of(
    old: &Node,
    from: &Node,
    row: &[Option<Range>; CELLS],
    forms: &[Option<Form>; CELLS],
) -> Node {
    let mut node = *old;
    for k in 0..REGISTERS {
        node.row[k] = row[k];
        node.forms[k] = forms[k];
    }
    for k in 0..WORDS {
        node.words[k] = match (old.words[k], from.words[k]) {
            (Some(word), Some(same)) if word.address == same.address => Some(Word {
                address: word.address,
                known: row[REGISTERS + k],
                form: forms[REGISTERS + k],
            }),
            _ => None,
        };
    }
    node
}

impl<A: Allocator> Search<A> {
    /// A machine that is as the node says may come from a slot to a place.
    fn enter(&mut self, slot: u16, place: usize, from: &Node) {
        if place >= self.nodes.len() {
            return;
        }
        let Some(old) = self.nodes[place] else {
            self.nodes[place] = Some(*from);
            self.has_changed = true;
            return;
        };
        let is_back = place <= usize::from(slot);
        let before = cells_of(&old, &old);
        let after = cells_of(from, &old);
        let mut row = before.row;
        for k in 0..CELLS {
            row[k] = growth(
                &self.landmarks,
                self.pass,
                is_back,
                before.row[k],
                hull(before.row[k], after.row[k]),
            );
        }
        let forms = ties_of(&before, &after, self.pass < WIDE_PASSES);
        let narrow = narrow_by_forms(&row, &forms);
        for k in 0..CELLS {
            row[k] = hull(narrow[k], hull(before.row[k], after.row[k]));
        }
        let mut joined = node_of(&old, from, &row, &forms);
        joined.depth = joined.depth.max(from.depth);
        joined.kept = joined.kept.max(from.kept);
        if joined != old {
            self.nodes[place] = Some(joined);
            self.has_changed = true;
        }
    }

    /// The same of a jump that is taken or not, after which this is known of a register.
    fn jump(&mut self, slot: u16, distance: i32, node: &Node, register: Reg, known: Option<Range>) {
        if let Some(place) = target(slot, distance) {
            if !is_empty(known) {
                self.enter(slot, place, &with_known(node, register, known));
            }
        }
    }

    /// The same of a local call that is not too deep, and of what follows its end.
    fn open(&mut self, slot: u16, distance: i32, node: &Node) {
        if usize::from(node.depth) >= MAX_LOCAL_CALLS {
            return;
        }
        let pointer = sum(node.row[10], only(FRAME_OCTETS.wrapping_neg()));
        if let Some(place) = target(slot, distance) {
            self.enter(slot, place, &at_call(node, pointer, None, 0));
        }
        if let Some(end) = self.ending.known {
            self.enter(
                slot,
                usize::from(slot) + 1,
                &after_return(node, end, self.ending.spared),
            );
        }
    }

    /// A machine may end a local call.
    fn close(&mut self, node: &Node) {
        if node.depth == 0 {
            return;
        }
        if self.ending.spared < node.kept {
            self.ending.spared = node.kept;
            self.has_changed = true;
        }
        let end = match self.ending.known {
            Some(end) => hull(end, node.row[0]),
            None => node.row[0],
        };
        if self.ending.known != Some(end) {
            self.ending.known = Some(if self.pass < WIDE_PASSES { end } else { None });
            self.has_changed = true;
        }
    }

    /// What a machine at a slot does next.
    fn flow(&mut self, slot: u16, node: &Node, line: Line) {
        let next = usize::from(slot) + usize::from(line.slots());
        // A jump without a test shows nothing new: it passes R0 with what is known of it.
        let r0 = Reg::zero();
        match line {
            Line::Jump { distance } => {
                self.jump(slot, i32::from(distance), node, r0, node.row[0]);
            }
            Line::LongJump { distance } => self.jump(slot, distance, node, r0, node.row[0]),
            Line::JumpIf { dst, distance, .. } => {
                let taken = range_by_test(&node.row, &line, true);
                let passed = range_by_test(&node.row, &line, false);
                self.jump(slot, i32::from(distance), node, dst, taken);
                self.jump(slot, 0, node, dst, passed);
            }
            Line::Call { number } => self.enter(slot, next, &after_engine_call(node, number)),
            Line::CallLocal { distance } => self.open(slot, distance, node),
            Line::Exit => self.close(node),
            _ => {
                if let Some(after) = after_line(node, &line) {
                    self.enter(slot, next, &after);
                }
            }
        }
    }

    /// Passes over the slots until nothing changes.
    fn settle(&mut self, program: &Program<A>, slots: u16) {
        for pass in 0..PASSES {
            self.pass = pass;
            self.sweep(program, slots);
            if !self.has_changed {
                break;
            }
        }
    }

    /// One pass over the slots.
    fn sweep(&mut self, program: &Program<A>, slots: u16) {
        self.has_changed = false;
        for slot in 0..slots {
            if let Some((node, line)) = node_and_line(program, &self.nodes, slot) {
                self.flow(slot, &node, line);
            }
        }
    }
}

/// Adds a landmark, unless it is there or there are enough.
fn add_landmark<A: Allocator>(landmarks: &mut Vec<u64, A>, number: u64) -> Result<(), AllocError> {
    if landmarks.len() < LANDMARKS && !landmarks.contains(&number) {
        landmarks.push(number)?;
    }
    Ok(())
}

/// Adds the number with which the line at a slot compares a register, if it does, and the number's
/// neighbours.
fn add_compared<A: Allocator>(
    landmarks: &mut Vec<u64, A>,
    program: &Program<A>,
    slot: u16,
) -> Result<(), AllocError> {
    if let Some(
        Line::JumpIf {
            operand: Operand::Immediate(imm),
            ..
        },
    ) = program.line_at(slot)
    {
        let number = i64::from(imm).cast_unsigned();
        add_landmark(landmarks, number.wrapping_sub(1))?;
        add_landmark(landmarks, number)?;
        add_landmark(landmarks, number.wrapping_add(1))?;
    }
    Ok(())
}

/// The numbers to which ranges are widened: the ends of the regions, and those with which the image
/// compares registers, with their neighbours.
fn landmarks_of<A: Allocator>(
    alloc: A,
    program: &Program<A>,
    slots: u16,
) -> Result<Vec<u64, A>, AllocError> {
    let mut landmarks = Vec::new(alloc);
    for number in FIRST_LANDMARKS {
        add_landmark(&mut landmarks, number)?;
    }
    for slot in 0..slots {
        add_compared(&mut landmarks, program, slot)?;
    }
    Ok(landmarks)
}

/// Says at each slot what is promised at the ends of local calls.
fn promise_to(nodes: &mut [Option<Node>], ending: Ending) {
    let promise = ending.known.flatten();
    for node in nodes.iter_mut() {
        if let Some(node) = node {
            node.promise = promise;
            node.spared = ending.spared;
        }
    }
}

/// Takes the depths of local calls from another certificate of the image.
fn take_depths(nodes: &mut [Option<Node>], certificate: &[Option<Node>]) {
    for (node, known) in nodes.iter_mut().zip(certificate) {
        if let (Some(node), Some(known)) = (node, known) {
            node.depth = known.depth;
        }
    }
}

/// How many slots a certificate does not keep.
fn unkept<A: Allocator>(program: &Program<A>, certificate: &[Option<Node>]) -> u32 {
    let mut count = 0u32;
    for slot in 0..program.slots() as u16 {
        if !is_kept_at(program, certificate, slot) {
            count = count.saturating_add(1);
        }
    }
    count
}

/// A new search: the first slot has what is known of a machine that is started.
fn search_from<A: Allocator + Copy>(
    alloc: A,
    slots: usize,
    landmarks: Vec<u64, A>,
    ending: Ending,
) -> Result<Search<A>, AllocError> {
    let mut nodes = vec![in alloc; None; slots]?;
    if let Some(first) = nodes.first_mut() {
        *first = Some(at_start());
    }
    Ok(Search {
        nodes,
        landmarks,
        ending,
        pass: 0,
        has_changed: true,
    })
}

/// What is known at each slot by what was known at the slots before it: no more numbers than there,
/// and fewer if a range was widened too far.
fn narrower<A: Allocator + Copy>(
    alloc: A,
    program: &Program<A>,
    wide: &[Option<Node>],
    ending: Ending,
) -> Result<Vec<Option<Node>, A>, AllocError> {
    let mut search = search_from(alloc, wide.len(), Vec::new(alloc), ending)?;
    for slot in 0..program.slots() as u16 {
        if let Some((node, line)) = node_and_line(program, wide, slot) {
            search.flow(slot, &node, line);
        }
    }
    Ok(search.nodes)
}

/// Narrows a certificate, if one that is narrower keeps no fewer slots. Whether it did.
fn narrow<A: Allocator + Copy>(
    alloc: A,
    program: &Program<A>,
    nodes: &mut Vec<Option<Node>, A>,
    ending: Ending,
) -> Result<bool, AllocError> {
    let least = unkept(program, nodes);
    if least == 0 {
        return Ok(false);
    }
    let mut next = narrower(alloc, program, nodes, ending)?;
    promise_to(&mut next, ending);
    take_depths(&mut next, nodes);
    if unkept(program, &next) > least {
        return Ok(false);
    }
    *nodes = next;
    Ok(true)
}

/// What is known at each slot after the passes, and at the ends of local calls.
fn search_slots<A: Allocator + Copy>(
    alloc: A,
    program: &Program<A>,
) -> Result<(Vec<Option<Node>, A>, Ending), AllocError> {
    let slots = program.slots();
    let landmarks = landmarks_of(alloc, program, slots as u16)?;
    let ending = Ending {
        known: None,
        spared: 0,
    };
    let mut search = search_from(alloc, slots, landmarks, ending)?;
    search.settle(program, slots as u16);
    Ok((search.nodes, search.ending))
}

/// What is known at each slot that may be reached: a certificate, if the search finished.
pub(crate) fn find<A: Allocator + Copy>(
    alloc: A,
    program: &Program<A>,
) -> Result<Vec<Option<Node>, A>, AllocError> {
    let (mut nodes, ending) = search_slots(alloc, program)?;
    promise_to(&mut nodes, ending);
    for _ in 0..NARROW_PASSES {
        if !narrow(alloc, program, &mut nodes, ending)? {
            break;
        }
    }
    Ok(nodes)
}
