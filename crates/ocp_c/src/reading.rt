//! What C reads of an engine.

ghost use Rattle.std.specs.Prelude.{◌≡◌, ◌≢◌, ◌≤◌, ◌++◌, ℕ, length, drop};
ghost use Rattle.std.specs.FinMap.{get};
ghost use Rattle.std.specs.declared.option.Option.TheVariants.{None, Some};
ghost use Rattle.ocp_table.specs.Shown.{view_at};
ghost use Rattle.ocp_debug.specs.Memory.{memory_at};
ghost use Rattle.ocp_world.specs.NextRunning.{IsNextRunning, Runs};
ghost use Rattle.ocp_flight.specs.Flown.{Flown, world_of};
ghost use Rattle.ocp_c.specs.declared.status.Status.TheVariants as status;
ghost use Rattle.ocp_c.specs.Statuses.{number_of};
ghost use Rattle.ocp_c.specs.Calls.{answers, writes};
ghost use Rattle.ocp_c.specs.Reading.{identifier_in, status_of_read, octets_or, view_status, procedure_or, registers_or};
ghost use Rattle.ocp_c.specs.Records.{kept_record, record_or, record_status, traced_or};

use crate::status::write_value;
use crate::{Handle, Procedure, Record, Status};
use bpf_moves::{REGISTERS, Registers};
use std::alloc::Global;

// Writes registers to the beginning of a buffer that has room for them.
fn write_registers(buffer: &mut [u64], registers: &Registers)
    requires { 11 ≤ length buffer.old }
    ensures { buffer.new ≡ registers.now ++ drop 11 buffer.old }
{
    buffer[..REGISTERS].copy_from_slice(registers);
}

/// The procedure whose turn is next.
#[unsafe(no_mangle)]
pub extern "C" fn ocp_next_running(
    alloc: Global,
    handle: &mut Handle,
    after: u32,
    id: &mut u16,
) -> u32
    ensures closed { handle.old.held ≡ None → result ≡ number_of status.NotOpen }
    ensures engine { handle.new.held ≡ handle.old.held }
    ensures next { (flown : Flown) → handle.old.held ≡ Some flown → result ≡ number_of status.Done →
        IsNextRunning (world_of flown).records (identifier_in after) (Some id.new) }
    ensures refused { (flown : Flown) → handle.old.held ≡ Some flown →
        result ≢ number_of status.Done → result ≡ number_of status.NoneRunning }
    ensures none { (flown : Flown) → handle.old.held ≡ Some flown →
        result ≡ number_of status.NoneRunning →
        (id : ℕ) → Runs (world_of flown).records id → ⊥ }
    ensures same { result ≢ number_of status.Done → id.new ≡ id.old }
{
    let after = u16::try_from(after).ok();
    let given = handle.with_engine(alloc, |engine| {
        engine.next_running(after).ok_or(Status::NoneRunning)
    });
    write_value(given.unwrap_or(Err(Status::NotOpen)), id)
}

/// Reads octets of a procedure's memory.
#[unsafe(no_mangle)]
pub extern "C" fn ocp_memory(
    alloc: Global,
    handle: &mut Handle,
    id: u16,
    address: u64,
    octets: &mut [u8],
) -> u32
    ensures status { result ≡ answers handle.old.held (λ flown. status_of_read
        (memory_at (get (world_of flown).records id) address (length octets.old))) }
    ensures engine { handle.new.held ≡ handle.old.held }
    ensures octets { octets.new ≡ writes handle.old.held octets.old (λ flown. octets_or
        (memory_at (get (world_of flown).records id) address (length octets.old)) octets.old) }
{
    let Some(held) = handle.take(alloc) else {
        return Status::NotOpen.number();
    };
    let given = held.engine.memory(id, address, octets);
    handle.put(held);
    Status::from(given).number()
}

/// What is shown of a procedure, and its registers.
#[unsafe(no_mangle)]
pub extern "C" fn ocp_view(
    alloc: Global,
    handle: &mut Handle,
    id: u16,
    view: &mut Procedure,
    registers: &mut [u64],
) -> u32
    ensures status { result ≡ answers handle.old.held (λ flown.
        view_status (length registers.old) (view_at (get (world_of flown).records id))) }
    ensures engine { handle.new.held ≡ handle.old.held }
    ensures view { view.new ≡ writes handle.old.held view.old (λ flown. procedure_or
        (length registers.old) (view_at (get (world_of flown).records id)) view.old) }
    ensures registers { registers.new ≡ writes handle.old.held registers.old (λ flown.
        registers_or (length registers.old) (view_at (get (world_of flown).records id))
        registers.old) }
{
    if registers.len() < REGISTERS {
        return handle.answer(alloc, |_| Status::BufferTooSmall);
    }
    match handle.with_engine(alloc, |engine| engine.view(id)) {
        Some(Some(found)) => {
            *view = found.into();
            write_registers(registers, &found.registers);
            Status::Done.number()
        }
        Some(None) => Status::NotLoaded.number(),
        None => Status::NotOpen.number(),
    }
}

/// A trace record that is kept, the oldest at 0, and the registers after its instruction.
#[unsafe(no_mangle)]
pub extern "C" fn ocp_trace_record(
    alloc: Global,
    handle: &mut Handle,
    index: u64,
    record: &mut Record,
    registers: &mut [u64],
) -> u32
    ensures status { result ≡ answers handle.old.held
        (λ flown. record_status (length registers.old) (kept_record flown index)) }
    ensures engine { handle.new.held ≡ handle.old.held }
    ensures record { record.new ≡ writes handle.old.held record.old
        (λ flown. record_or (length registers.old) (kept_record flown index) record.old) }
    ensures registers { registers.new ≡ writes handle.old.held registers.old
        (λ flown. traced_or (length registers.old) (kept_record flown index) registers.old) }
{
    if registers.len() < REGISTERS {
        return handle.answer(alloc, |_| Status::BufferTooSmall);
    }
    match handle.with_engine(alloc, |engine| engine.trace_record(index).copied()) {
        Some(Some(found)) => {
            record.show(&found);
            write_registers(registers, &found.registers);
            Status::Done.number()
        }
        Some(None) => Status::NoRecord.number(),
        None => Status::NotOpen.number(),
    }
}
