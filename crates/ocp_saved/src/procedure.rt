//! A procedure of the table.
ghost use Rattle.std.specs.Prelude.{◌≡◌, ◌≤◌, ◌*◌, ◌+◌, ◌/◌, length};
ghost use Rattle.byteorder.specs.Endian.{big_number};
ghost use Rattle.ocp_saved.specs.Format.{breakpoints_octets, image_octets, mailbox_octets, procedure_octets};
ghost use Rattle.ocp_saved.specs.Reading.{Gives, breakpoints_at, image_at, items_in, mailbox_at, procedure_at, words_in};
ghost use Rattle.ocp_saved.specs.Shown.{IsWritable, entry_of, entry_that_was_read};

use crate::RestoreFault;
use crate::control::{
    control_at, control_length, put_control, put_remaining, remaining_at, remaining_length,
};
use crate::fields::{WORD_LENGTH, put_u16, put_words, registers_at, u8_up_to, u16_at};
use crate::machine::{Parts, frames_at, machine_length, parts_at, put_machine};
use arrayvec::ArrayVec;
use bpf_moves::Registers;
use bpf_step::{Frame, MAX_LOCAL_CALLS, MAX_SLOTS};
use byteorder::{BigEndian, ByteOrder};
use ocp_pool::MAX_MAILBOX_WORDS;
use ocp_profile::Profile;
use ocp_table::{Control, MAX_BREAKPOINTS};

/// The octets of a place.
const PLACE_LENGTH: usize = 2;

/// The octets of a slot.
const SLOT_LENGTH: usize = 8;

/// A procedure that is saved: all that a table holds of it.
#[derive(Clone, Copy)]
pub struct Procedure<'a> {
    pub id: u16,
    pub control: Control,
    pub traced: bool,
    /// How many instructions are left of the budget, if one is set.
    pub remaining: Option<u32>,
    pub breakpoints: &'a [u16],
    /// The words of the mailbox, the oldest first.
    pub mailbox: &'a [u64],
    pub image: &'a [u8],
    pub registers: Registers,
    pub place: u16,
    /// What the open local calls have saved, the latest last.
    pub frames: &'a [Frame],
    pub memory: Parts<'a>,
}

/// A procedure that was read. Its image and its memory lie in the octets that were read.
#[derive(Drop)]
pub struct SavedProcedure<'a> {
    pub id: u16,
    pub control: Control,
    pub traced: bool,
    /// How many instructions are left of the budget, if one is set.
    pub remaining: Option<u32>,
    pub breakpoints: ArrayVec<u16, MAX_BREAKPOINTS>,
    /// The words of the mailbox, the oldest first.
    pub mailbox: ArrayVec<u64, MAX_MAILBOX_WORDS>,
    pub image: &'a [u8],
    pub registers: Registers,
    pub place: u16,
    /// What the open local calls have saved, the latest last.
    pub frames: ArrayVec<Frame, MAX_LOCAL_CALLS>,
    pub memory: Parts<'a>,
}

// A number of places.
fn places_of(count: usize, octets: &[u8]) -> ArrayVec<u16, MAX_BREAKPOINTS>
    requires few { count ≤ MAX_BREAKPOINTS }
    requires long { PLACE_LENGTH * count ≤ length octets.now }
    ensures { result.items ≡ items_in (big_number 2) PLACE_LENGTH count octets.now }
{
    let mut places = ArrayVec::new();
    let mut rest = octets;
    for _ in 0..count {
        places.push(BigEndian::read_u16(rest));
        let (_, after) = rest.split_at(PLACE_LENGTH);
        rest = after;
    }
    places
}

// The breakpoints, with their number before them.
#[tactic(auto, unfolding(crate::specs::Reading::breakpoints_at))]
fn breakpoints_at(octets: &[u8]) -> Result<(ArrayVec<u16, MAX_BREAKPOINTS>, &[u8]), RestoreFault>
    ensures { Gives (λ x. (x.0.items, x.1.now)) result (breakpoints_at octets.now) }
{
    let (count, rest) = u8_up_to(MAX_BREAKPOINTS as u8, RestoreFault::Breakpoints, octets)?;
    let count = usize::from(count);
    if rest.len() < PLACE_LENGTH * count {
        return Err(RestoreFault::Short);
    }
    let places = places_of(count, rest);
    let (_, rest) = rest.split_at(PLACE_LENGTH * count);
    Ok((places, rest))
}

// A number of words.
fn words_of(count: usize, octets: &[u8]) -> ArrayVec<u64, MAX_MAILBOX_WORDS>
    requires few { count ≤ MAX_MAILBOX_WORDS }
    requires long { WORD_LENGTH * count ≤ length octets.now }
    ensures { result.items ≡ words_in count octets.now }
{
    let mut words = ArrayVec::new();
    let mut rest = octets;
    for _ in 0..count {
        words.push(BigEndian::read_u64(rest));
        let (_, after) = rest.split_at(WORD_LENGTH);
        rest = after;
    }
    words
}

// The words of the mailbox, with their number before them.
#[tactic(auto, unfolding(crate::specs::Reading::mailbox_at))]
fn mailbox_at(octets: &[u8]) -> Result<(ArrayVec<u64, MAX_MAILBOX_WORDS>, &[u8]), RestoreFault>
    ensures { Gives (λ x. (x.0.items, x.1.now)) result (mailbox_at octets.now) }
{
    let (count, rest) = u8_up_to(MAX_MAILBOX_WORDS as u8, RestoreFault::Mailbox, octets)?;
    let count = usize::from(count);
    if rest.len() < WORD_LENGTH * count {
        return Err(RestoreFault::Short);
    }
    let words = words_of(count, rest);
    let (_, rest) = rest.split_at(WORD_LENGTH * count);
    Ok((words, rest))
}

// The image.
#[tactic(auto, unfolding(crate::specs::Reading::image_at))]
fn image_at(octets: &[u8]) -> Result<(&[u8], &[u8]), RestoreFault>
    ensures { Gives (λ x. (x.0.now, x.1.now)) result (image_at octets.now) }
{
    let (slots, rest) = u16_at(octets)?;
    let length = 8 * usize::from(slots);
    if rest.len() < length {
        return Err(RestoreFault::Short);
    }
    let (image, rest) = rest.split_at(length);
    Ok((image, rest))
}

/// The procedure. What it is tested for is octets alone: a table tests the rest.
#[tactic(auto, unfolding(crate::specs::Reading::procedure_at, crate::specs::Reading::machine_at))]
pub fn procedure_at<'a>(
    profile: Profile,
    octets: &'a [u8],
) -> Result<(SavedProcedure<'a>, &'a [u8]), RestoreFault>
    ensures { Gives (λ x. (entry_that_was_read x.0, x.1.now)) result
        (procedure_at profile octets.now) }
{
    let (id, rest) = u16_at(octets)?;
    let ((control, traced), rest) = control_at(rest)?;
    let (remaining, rest) = remaining_at(rest)?;
    let (breakpoints, rest) = breakpoints_at(rest)?;
    let (mailbox, rest) = mailbox_at(rest)?;
    let (image, rest) = image_at(rest)?;
    let (registers, rest) = registers_at(rest)?;
    let (place, rest) = u16_at(rest)?;
    let (frames, rest) = frames_at(rest)?;
    let (memory, rest) = parts_at(profile, rest)?;
    let saved = SavedProcedure {
        id,
        control,
        traced,
        remaining,
        breakpoints,
        mailbox,
        image,
        registers,
        place,
        frames,
        memory,
    };
    Ok((saved, rest))
}

// Writes the breakpoints, with their number before them.
fn put_breakpoints(out: &mut [u8], places: &[u16])
    requires few { length places.now ≤ MAX_BREAKPOINTS }
    requires exact { length out.old ≡ 1 + PLACE_LENGTH * length places.now }
    ensures { out.new ≡ breakpoints_octets places.now }
{
    let (count, rest) = out.split_at_mut(1);
    count[0] = places.len() as u8;
    BigEndian::write_u16_into(places, rest);
}

// Writes the words of the mailbox, with their number before them.
fn put_mailbox(out: &mut [u8], words: &[u64])
    requires few { length words.now ≤ MAX_MAILBOX_WORDS }
    requires exact { length out.old ≡ 1 + WORD_LENGTH * length words.now }
    ensures { out.new ≡ mailbox_octets words.now }
{
    let (count, rest) = out.split_at_mut(1);
    count[0] = words.len() as u8;
    put_words(rest, words);
}

// Writes the image, with the number of its slots before it.
fn put_image(out: &mut [u8], image: &[u8])
    requires few { length image.now / SLOT_LENGTH ≤ MAX_SLOTS }
    requires exact { length out.old ≡ 2 + length image.now }
    ensures { out.new ≡ image_octets image.now }
{
    let (slots, rest) = out.split_at_mut(2);
    put_u16(slots, (image.len() / SLOT_LENGTH) as u16);
    rest.copy_from_slice(image);
}

/// How many octets a procedure has.
pub fn procedure_length(procedure: &Procedure<'_>) -> usize
    requires { IsWritable procedure.now }
    ensures { result ≡ length (procedure_octets (entry_of procedure.now)) }
{
    // There are eleven registers.
    let _registers = procedure.registers;
    2 + control_length(&procedure.control)
        + remaining_length(procedure.remaining)
        + (1 + PLACE_LENGTH * procedure.breakpoints.len())
        + (1 + WORD_LENGTH * procedure.mailbox.len())
        + (2 + procedure.image.len())
        + machine_length(procedure.frames, &procedure.memory)
}

/// Writes a procedure over octets that are exactly as many.
#[tactic(auto, unfolding(crate::specs::Format::procedure_octets))]
pub fn put_procedure(out: &mut [u8], procedure: &Procedure<'_>)
    requires fits { IsWritable procedure.now }
    requires exact { length out.old ≡ length (procedure_octets (entry_of procedure.now)) }
    ensures { out.new ≡ procedure_octets (entry_of procedure.now) }
{
    let (id, out) = out.split_at_mut(2);
    put_u16(id, procedure.id);
    let (control, out) = out.split_at_mut(control_length(&procedure.control));
    put_control(control, &procedure.control, procedure.traced);
    let (remaining, out) = out.split_at_mut(remaining_length(procedure.remaining));
    put_remaining(remaining, procedure.remaining);
    let (places, out) = out.split_at_mut(1 + PLACE_LENGTH * procedure.breakpoints.len());
    put_breakpoints(places, procedure.breakpoints);
    let (words, out) = out.split_at_mut(1 + WORD_LENGTH * procedure.mailbox.len());
    put_mailbox(words, procedure.mailbox);
    let (image, machine) = out.split_at_mut(2 + procedure.image.len());
    put_image(image, procedure.image);
    put_machine(
        machine,
        &procedure.registers,
        procedure.place,
        procedure.frames,
        procedure.memory,
    );
}
