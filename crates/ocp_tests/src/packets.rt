//! Telecommand packets, written by a script that knows only the tables of the profile, and engines
//! that took them.

ghost use Rattle.std.specs.Prelude.{◌≤◌, length};

use ocp_profile::Profile;
use ocp_slices::{Engine, Naming, Seat, SharedEngine};
use ocp_table::{Cause, Status, View};
use pus_fields::crc16;
use std::alloc::Global;
use std::sync::Wait;

// A request for the status report by source 7, with the flags acceptance and completion.
pub(crate) const STATUS: [u8; 13] = [
    0x19, 0x23, 0xc0, 0x05, 0x00, 0x06, 0x29, 0x12, 0x08, 0x00, 0x07, 0xd9, 0x42,
];

// A load of `mov64 r1, 499`, `sub64 r1, 1`, `jne64 r1, 0, -2`, `exit` as procedure 1, its activation, and its suspend at the end of
// step 2, with no flag.
const LOAD_LOOP: [u8; 49] = [
    0x19, 0x23, 0xc0, 0x00, 0x00, 0x2a, 0x20, 0x12, 0x01, 0x00, 0x00, 0x00, 0x01, 0x00, 0x20, 0xb7,
    0x01, 0x00, 0x00, 0xf3, 0x01, 0x00, 0x00, 0x17, 0x01, 0x00, 0x00, 0x01, 0x00, 0x00, 0x00, 0x55,
    0x01, 0xfe, 0xff, 0x00, 0x00, 0x00, 0x00, 0x95, 0x00, 0x00, 0x00, 0x00, 0x00, 0x00, 0x00, 0xc5,
    0x7c,
];

const ACTIVATE_LOOP: [u8; 17] = [
    0x19, 0x23, 0xc0, 0x00, 0x00, 0x0a, 0x20, 0x12, 0x03, 0x00, 0x00, 0x00, 0x01, 0x00, 0x00, 0x18,
    0x71,
];

const SUSPEND_LOOP: [u8; 17] = [
    0x19, 0x23, 0xc0, 0x00, 0x00, 0x0a, 0x20, 0x12, 0x05, 0x00, 0x00, 0x00, 0x01, 0x00, 0x02, 0x99,
    0x16,
];

// Writes the error control of a packet after the octets before it.
fn seal(packet: &mut [u8])
    requires { 2 ≤ length packet.old }
{
    let end = packet.len() - 2;
    let control = crc16(&packet[..end]).to_be_bytes();
    packet[end..].copy_from_slice(&control);
}

// The load of a loop as another procedure.
pub(crate) fn load_loop(id: u8) -> [u8; 49] {
    let mut packet = LOAD_LOOP;
    packet[12] = id;
    seal(&mut packet);
    packet
}

// The load of the loop as procedure 1 with a count of 0x7f00_01f3, which takes over 4,000,000,000 instructions.
pub(crate) fn load_long() -> [u8; 49] {
    let mut packet = LOAD_LOOP;
    packet[22] = 0x7f;
    seal(&mut packet);
    packet
}

// Its activation.
pub(crate) fn activate_loop(id: u8) -> [u8; 17] {
    of_loop(ACTIVATE_LOOP, id)
}

// Its suspend.
pub(crate) fn suspend_loop(id: u8) -> [u8; 17] {
    of_loop(SUSPEND_LOOP, id)
}

// A request for another loop.
fn of_loop(mut packet: [u8; 17], id: u8) -> [u8; 17] {
    packet[12] = id;
    seal(&mut packet);
    packet
}

// Whether an engine takes a packet of seat 0.
pub(crate) fn takes(alloc: Global, engine: &mut Engine, octets: &[u8]) -> bool {
    engine.request(alloc, 0, 0, octets).is_ok()
}

// Whether an engine takes the loops with the ids 1 to `count`, each loaded and activated.
fn takes_loops(alloc: Global, engine: &mut Engine, count: u8) -> bool
    requires { count ≤ 16 }
{
    for id in 1..count + 1 {
        if !takes(alloc, engine, &load_loop(id)) || !takes(alloc, engine, &activate_loop(id)) {
            return false;
        }
    }
    true
}

// A new engine with room for `capacity` entries that took the loops with the ids 1 to `count`.
pub(crate) fn with_loops(alloc: Global, capacity: u32, count: u8) -> Option<Engine>
    requires capacity_from { 1 ≤ capacity }
    requires capacity_to { capacity ≤ 10000 }
    requires count { count ≤ 16 }
{
    let mut engine = Engine::new(alloc, Profile::One, 0x123, 16, capacity).ok()?;
    takes_loops(alloc, &mut engine, count).then_some(engine)
}

// Whether a procedure is shown as a loop at its end.
pub(crate) fn is_done(view: Option<View>) -> bool {
    match view {
        Some(view) => {
            view.status == Status::Inactive
                && view.cause == Cause::Exited
                && view.place == 3
                && view.registers[1] == 0
        }
        None => false,
    }
}

// Whether a shared engine takes a packet of a seat.
pub(crate) fn is_taken<L: Naming, R: Wait>(
    rt: &R,
    alloc: Global,
    shared: &SharedEngine<L>,
    seat: &mut Seat<L>,
    octets: &[u8],
) -> bool {
    shared.request(rt, alloc, seat, 0, octets).is_ok()
}
