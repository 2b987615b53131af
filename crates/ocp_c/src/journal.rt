//! The journal's calls: its room, the entries that it holds, their octets, and their release.

ghost use Rattle.std.specs.Prelude.{◌≡◌, length};
ghost use Rattle.ocp_flight.specs.Flown.{entry_answer, entry_written, first, release_after, release_answer, room};
ghost use Rattle.ocp_c.specs.declared.status.Status.TheVariants as status;
ghost use Rattle.ocp_c.specs.Statuses.{status_of_entry, status_of_release};
ghost use Rattle.ocp_c.specs.Calls.{answers, leaves, writes};
ghost use Rattle.ocp_c.specs.Journals.{length_or};

use crate::status::write_value;
use crate::{Handle, Status};
use ocp_flight::EntryFault;
use std::alloc::Global;

/// How many entries more, and how many octets of entries more, the journal holds.
#[unsafe(no_mangle)]
pub extern "C" fn ocp_room(
    alloc: Global,
    handle: &mut Handle,
    entries: &mut u64,
    octets: &mut u64,
) -> u32
    ensures status { result ≡ answers handle.old.held (λ flown. status.Done) }
    ensures engine { handle.new.held ≡ handle.old.held }
    ensures entries { entries.new ≡ writes handle.old.held entries.old
        (λ flown. (room flown).entries) }
    ensures octets { octets.new ≡ writes handle.old.held octets.old
        (λ flown. (room flown).octets) }
{
    let Some(room) = handle.with_engine(alloc, |engine| engine.room()) else {
        return Status::NotOpen.number();
    };
    *entries = room.entries as u64;
    *octets = room.octets as u64;
    Status::Done.number()
}

/// The index of the oldest entry that is held, or of the next one if none is.
#[unsafe(no_mangle)]
pub extern "C" fn ocp_first_entry(alloc: Global, handle: &mut Handle, index: &mut u64) -> u32
    ensures status { result ≡ answers handle.old.held (λ flown. status.Done) }
    ensures engine { handle.new.held ≡ handle.old.held }
    ensures index { index.new ≡ writes handle.old.held index.old (λ flown. first flown) }
{
    let given = handle.with_engine(alloc, |engine| engine.first());
    write_value(given.ok_or(Status::NotOpen), index)
}

/// Drops the oldest `count` entries.
#[unsafe(no_mangle)]
pub extern "C" fn ocp_release(alloc: Global, handle: &mut Handle, count: u64) -> u32
    ensures status { result ≡ answers handle.old.held
        (λ flown. status_of_release (release_answer flown count)) }
    ensures engine { handle.new.held ≡ leaves handle.old.held
        (λ flown. release_after flown count) }
{
    handle.answer(alloc, |engine| engine.release(count).into())
}

// Writes how long an entry is.
fn tell_length(given: Result<usize, EntryFault>, told: &mut usize)
    ensures { told.new ≡ length_or given told.old }
{
    match given {
        Ok(length) | Err(EntryFault::TooShort { length }) => *told = length,
        Err(EntryFault::Released | EntryFault::NotYet) => {}
    }
}

/// The octets of an entry, by its index, which counts from the first of all.
#[unsafe(no_mangle)]
pub extern "C" fn ocp_entry(
    alloc: Global,
    handle: &mut Handle,
    index: u64,
    octets: &mut [u8],
    written: &mut usize,
) -> u32
    ensures status { result ≡ answers handle.old.held
        (λ flown. status_of_entry (entry_answer flown index (length octets.old))) }
    ensures engine { handle.new.held ≡ handle.old.held }
    ensures octets { octets.new ≡ writes handle.old.held octets.old
        (λ flown. entry_written flown index octets.old) }
    ensures written { written.new ≡ writes handle.old.held written.old
        (λ flown. length_or (entry_answer flown index (length octets.old)) written.old) }
{
    let Some(given) = handle.with_buffer(alloc, octets, |open, octets| {
        open.engine.entry(index, octets)
    }) else {
        return Status::NotOpen.number();
    };
    tell_length(given, written);
    Status::from(given).number()
}
