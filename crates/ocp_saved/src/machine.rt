//! The machine of a procedure.
ghost use Rattle.std.specs.Prelude.{◌≡◌, ◌≤◌, ◌+◌, ◌*◌, ◌∷◌, ◌++◌, length, IfOk};
ghost use Rattle.std.specs.List.{flat_map};
ghost use Rattle.byteorder.specs.Endian.{big_bytes};
ghost use Rattle.ocp_regions.specs.Memory.{memory_of, work_octets};
ghost use Rattle.ocp_saved.specs.Format.{frame_octets, machine_octets, words_octets};
ghost use Rattle.ocp_saved.specs.Shown.{machine_of};
ghost use Rattle.ocp_saved.specs.Reading.{Gives, frame_in, frames_at, items_in, memory_at};

use crate::RestoreFault;
use crate::fields::{WORD_LENGTH, put_u16, put_words, u8_up_to};
use arrayvec::ArrayVec;
use bpf_moves::{REGISTERS, Registers};
use bpf_step::{Frame, MAX_LOCAL_CALLS};
use byteorder::{BigEndian, ByteOrder};
use ocp_profile::Profile;
use ocp_regions::{ARGUMENT_OCTETS, STACK_OCTETS};

/// The octets of the three regions, apart.
#[derive(Clone, Copy)]
pub struct Parts<'a> {
    pub stack: &'a [u8],
    pub arguments: &'a [u8],
    pub work: &'a [u8],
}

/// The octets of what a local call has saved.
pub(crate) const FRAME_LENGTH: usize = 42;

// The octets before the frames: registers, place, and how many frames there are.
const HEAD_LENGTH: usize = WORD_LENGTH * REGISTERS + 3;

// The most octets of a work region.
const MAX_WORK_OCTETS: usize = 4096;

// The octets of stack and arguments.
const FIXED_LENGTH: usize = STACK_OCTETS + ARGUMENT_OCTETS;

// What a local call has saved.
fn frame_of(octets: &[u8]) -> Frame
    requires { FRAME_LENGTH ≤ length octets.now }
    ensures { result ≡ frame_in octets.now }
{
    Frame {
        r6: BigEndian::read_u64(octets),
        r7: BigEndian::read_u64(&octets[8..]),
        r8: BigEndian::read_u64(&octets[16..]),
        r9: BigEndian::read_u64(&octets[24..]),
        r10: BigEndian::read_u64(&octets[32..]),
        place: BigEndian::read_u16(&octets[40..]),
    }
}

// A number of frames.
fn frames_of(count: usize, octets: &[u8]) -> ArrayVec<Frame, MAX_LOCAL_CALLS>
    requires few { count ≤ MAX_LOCAL_CALLS }
    requires long { FRAME_LENGTH * count ≤ length octets.now }
    ensures { result.items ≡ items_in frame_in FRAME_LENGTH count octets.now }
{
    let mut frames = ArrayVec::new();
    let mut rest = octets;
    for _ in 0..count {
        frames.push(frame_of(rest));
        let (_, after) = rest.split_at(FRAME_LENGTH);
        rest = after;
    }
    frames
}

/// The frames of the open local calls, with their number before them.
#[tactic(auto, unfolding(crate::specs::Reading::frames_at))]
pub(crate) fn frames_at(
    octets: &[u8],
) -> Result<(ArrayVec<Frame, MAX_LOCAL_CALLS>, &[u8]), RestoreFault>
    ensures { Gives (λ x. (x.0.items, x.1.now)) result (frames_at octets.now) }
{
    let (count, rest) = u8_up_to(MAX_LOCAL_CALLS as u8, RestoreFault::Frames, octets)?;
    let count = usize::from(count);
    if rest.len() < FRAME_LENGTH * count {
        return Err(RestoreFault::Short);
    }
    let frames = frames_of(count, rest);
    let (_, rest) = rest.split_at(FRAME_LENGTH * count);
    Ok((frames, rest))
}

// Writes what a local call has saved.
fn put_frame(out: &mut [u8], frame: &Frame)
    requires { length out.old ≡ FRAME_LENGTH }
    ensures { out.new ≡ frame_octets frame.now }
{
    let (words, place) = out.split_at_mut(40);
    put_words(words, &[frame.r6, frame.r7, frame.r8, frame.r9, frame.r10]);
    put_u16(place, frame.place);
}

// Writes frames.
fn put_frames(out: &mut [u8], frames: &[Frame])
    requires { length out.old ≡ FRAME_LENGTH * length frames.now }
    ensures { out.new ≡ flat_map frame_octets frames.now }
{
    for index in 0..frames.len() {
        let at = FRAME_LENGTH * index;
        put_frame(&mut out[at..at + FRAME_LENGTH], &frames[index]);
    }
}

// Writes the octets of a memory.
fn put_parts(out: &mut [u8], parts: Parts<'_>)
    requires { length out.old ≡
        length parts.stack.now + (length parts.arguments.now + length parts.work.now) }
    ensures { out.new ≡
        parts.entry.stack.now ++ (parts.entry.arguments.now ++ parts.entry.work.now) }
{
    let (stack, out) = out.split_at_mut(parts.stack.len());
    stack.copy_from_slice(parts.stack);
    let (arguments, work) = out.split_at_mut(parts.arguments.len());
    arguments.copy_from_slice(parts.arguments);
    work.copy_from_slice(parts.work);
}

// Writes registers, place, and frames with their number.
fn put_registers(out: &mut [u8], registers: &Registers, place: u16, frames: &[Frame])
    requires few { length frames.now ≤ MAX_LOCAL_CALLS }
    requires exact { length out.old ≡ HEAD_LENGTH + FRAME_LENGTH * length frames.now }
    ensures { out.new ≡ words_octets registers.now ++ (big_bytes 2 place
        ++ (length frames.now ∷ flat_map frame_octets frames.now)) }
{
    let (first, out) = out.split_at_mut(WORD_LENGTH * REGISTERS);
    put_words(first, registers);
    let (second, out) = out.split_at_mut(2);
    put_u16(second, place);
    let (third, last) = out.split_at_mut(1);
    third[0] = frames.len() as u8;
    put_frames(last, frames);
}

/// How many octets a machine has.
pub(crate) fn machine_length(frames: &[Frame], memory: &Parts<'_>) -> usize
    requires few { length frames.now ≤ MAX_LOCAL_CALLS }
    requires work { length memory.now.work.now ≤ MAX_WORK_OCTETS }
    ensures { result ≡ HEAD_LENGTH + FRAME_LENGTH * length frames.now + FIXED_LENGTH
        + length memory.now.work.now }
{
    HEAD_LENGTH + FRAME_LENGTH * frames.len() + FIXED_LENGTH + memory.work.len()
}

/// Writes a machine.
pub(crate) fn put_machine(
    out: &mut [u8],
    registers: &Registers,
    place: u16,
    frames: &[Frame],
    memory: Parts<'_>,
)
    requires few { length frames.now ≤ MAX_LOCAL_CALLS }
    requires stack { length memory.stack.now ≡ STACK_OCTETS }
    requires arguments { length memory.arguments.now ≡ ARGUMENT_OCTETS }
    requires exact { length out.old ≡ HEAD_LENGTH + FRAME_LENGTH * length frames.now + FIXED_LENGTH
        + length memory.work.now }
    ensures { out.new ≡ machine_octets (machine_of registers.now place frames.now
        memory.entry.stack.now memory.entry.arguments.now memory.entry.work.now) }
{
    let (head, octets) = out.split_at_mut(HEAD_LENGTH + FRAME_LENGTH * frames.len());
    put_registers(head, registers, place, frames);
    put_parts(octets, memory);
}

// The octets of the work region.
const fn work_length(profile: Profile) -> usize
    ensures { result ≡ work_octets profile }
{
    match profile {
        Profile::One => 1024,
        Profile::Two => 4096,
    }
}

/// The memory of a profile.
#[tactic(auto, unfolding(crate::specs::InOrder::memory_with))]
pub(crate) fn parts_at<'a>(
    profile: Profile,
    octets: &'a [u8],
) -> Result<(Parts<'a>, &'a [u8]), RestoreFault>
    ensures value { Gives (λ x. (memory_of x.0.stack.now x.0.arguments.now x.0.work.now, x.1.now))
        result (memory_at profile octets.now) }
    ensures stack { IfOk result (λ x. length x.0.stack.now ≡ STACK_OCTETS) }
    ensures arguments { IfOk result (λ x. length x.0.arguments.now ≡ ARGUMENT_OCTETS) }
    ensures work { IfOk result (λ x. length x.0.work.now ≡ work_octets profile) }
{
    let work = work_length(profile);
    if octets.len() < FIXED_LENGTH + work {
        return Err(RestoreFault::Short);
    }
    let (memory, rest) = octets.split_at(FIXED_LENGTH + work);
    let (stack, memory) = memory.split_at(STACK_OCTETS);
    let (arguments, work) = memory.split_at(ARGUMENT_OCTETS);
    let parts = Parts {
        stack,
        arguments,
        work,
    };
    Ok((parts, rest))
}
