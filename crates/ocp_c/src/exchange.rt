//! Requests and drains, whose reports go into a buffer of C's.

ghost use Rattle.std.specs.Prelude.{◌≡◌, ◌≤◌, ◌==◌, if◌then◌else◌, length, IfOk, IfErr};
ghost use Rattle.std.specs.declared.option.Option.TheVariants.{None, Some};
ghost use Rattle.ocp_world.specs.World.{Request, Drain};
ghost use Rattle.ocp_flight.specs.Flown.{Flown};
ghost use Rattle.ocp_flight.specs.Calls.{answer_in, flown_after};
ghost use Rattle.ocp_c.specs.declared.status.Status.TheVariants as status;
ghost use Rattle.ocp_c.specs.Statuses.{number_of};
ghost use Rattle.ocp_c.specs.Calls.{leaves, writes};
ghost use Rattle.ocp_c.specs.Packets.{buffer_after};
ghost use Rattle.ocp_c.specs.Replies.{replies, reports_in, IsReplied, IsRefused};

use crate::status::write_value;
use crate::{Handle, OpenEngine, SEAT, Status};
use std::alloc::Global;

// Writes octets to the front of a buffer. It returns how many they are.
fn pour(octets: &[u8], buffer: &mut [u8]) -> usize
    requires { length octets.now ≤ length buffer.old }
    ensures buffer { buffer.new ≡ buffer_after octets.now buffer.old }
    ensures length { result ≡ length octets.now }
{
    buffer[..octets.len()].copy_from_slice(octets);
    octets.len()
}

// The octets of reports that a request writes to a buffer.
fn request_into(
    held: &mut OpenEngine,
    time: u32,
    packet: &[u8],
    reports: &mut [u8],
) -> Result<usize, Status>
    ensures done { IfOk result (λ count. IsReplied 272 (Request 0 time packet.now)
        held.old reports.old count held.new reports.new) }
    ensures refused { IfErr result (λ why. IsRefused 272 (Request 0 time packet.now)
        held.old reports.old why held.new reports.new) }
    ensures least { length (reports_in (answer_in held.old (Request 0 time packet.now))) ≤ 272 }
{
    held.engine.bounds();
    if reports.len() < 272 {
        return Err(Status::BufferTooSmall);
    }
    held.engine.request(SEAT, time, packet, &mut held.packets)?;
    Ok(pour(held.packets.octets(), reports))
}

/// Takes the octets of a telecommand packet. It asks for no memory.
#[unsafe(no_mangle)]
pub extern "C" fn ocp_request(
    alloc: Global,
    handle: &mut Handle,
    time: u32,
    packet: &[u8],
    reports: &mut [u8],
    written: &mut usize,
) -> u32
    ensures closed { handle.old.held ≡ None → result ≡ number_of status.NotOpen }
    ensures answer { (flown : Flown) → handle.old.held ≡ Some flown →
        result ≡ number_of (replies 272 (length reports.old)
        (answer_in flown (Request 0 time packet.now))) }
    ensures engine { handle.new.held ≡ leaves handle.old.held (λ flown.
        if result == 0 then flown_after flown (Request 0 time packet.now) else flown) }
    ensures least { (flown : Flown) → handle.old.held ≡ Some flown →
        length (reports_in (answer_in flown (Request 0 time packet.now))) ≤ 272 }
    ensures reports { reports.new ≡ writes handle.old.held reports.old (λ flown. if result == 0
        then buffer_after (reports_in (answer_in flown (Request 0 time packet.now)))
        reports.old else reports.old) }
    ensures written { written.new ≡ writes handle.old.held written.old (λ flown. if result == 0
        then length (reports_in (answer_in flown (Request 0 time packet.now)))
        else written.old) }
{
    let given = handle.with_buffer(alloc, reports, |held, reports| {
        request_into(held, time, packet, reports)
    });
    write_value(given.unwrap_or(Err(Status::NotOpen)), written)
}

// The octets of reports that a drain writes to a buffer.
fn drain_into(held: &mut OpenEngine, time: u32, reports: &mut [u8]) -> Result<usize, Status>
    ensures done { IfOk result (λ count. IsReplied 1600 (Drain 0 time)
        held.old reports.old count held.new reports.new) }
    ensures refused { IfErr result (λ why. IsRefused 1600 (Drain 0 time)
        held.old reports.old why held.new reports.new) }
    ensures least { length (reports_in (answer_in held.old (Drain 0 time))) ≤ 1600 }
{
    held.engine.bounds();
    if reports.len() < 1600 {
        return Err(Status::BufferTooSmall);
    }
    held.engine.drain(SEAT, time, &mut held.packets)?;
    Ok(pour(held.packets.octets(), reports))
}

/// Reports the completions that wait. It asks for no memory.
#[unsafe(no_mangle)]
pub extern "C" fn ocp_drain(
    alloc: Global,
    handle: &mut Handle,
    time: u32,
    reports: &mut [u8],
    written: &mut usize,
) -> u32
    ensures closed { handle.old.held ≡ None → result ≡ number_of status.NotOpen }
    ensures answer { (flown : Flown) → handle.old.held ≡ Some flown →
        result ≡ number_of (replies 1600 (length reports.old)
        (answer_in flown (Drain 0 time))) }
    ensures engine { handle.new.held ≡ leaves handle.old.held (λ flown.
        if result == 0 then flown_after flown (Drain 0 time) else flown) }
    ensures least { (flown : Flown) → handle.old.held ≡ Some flown →
        length (reports_in (answer_in flown (Drain 0 time))) ≤ 1600 }
    ensures reports { reports.new ≡ writes handle.old.held reports.old (λ flown. if result == 0
        then buffer_after (reports_in (answer_in flown (Drain 0 time))) reports.old
        else reports.old) }
    ensures written { written.new ≡ writes handle.old.held written.old (λ flown. if result == 0
        then length (reports_in (answer_in flown (Drain 0 time)))
        else written.old) }
{
    let given = handle.with_buffer(alloc, reports, |held, reports| {
        drain_into(held, time, reports)
    });
    write_value(given.unwrap_or(Err(Status::NotOpen)), written)
}
