//! Journal entries as octets.

ghost use Rattle.std.specs.Prelude.{◌≡◌, ◌∷◌, ◌++◌, length};
ghost use Rattle.byteorder.specs.Endian.{big_bytes};
ghost use Rattle.ocp_core.specs.Log.{entry_for};
ghost use Rattle.ocp_core.specs.Journal.{event_of};
ghost use Rattle.ocp_flight.specs.Entries.{IsCommandInRange, command_octets, entry_octets};

use ocp_core::{Command, Event};

/// The fields of a request before its packet, or of a drain.
pub(crate) fn time_fields(kind: u8, by: u16, time: u32) -> [u8; 7]
    ensures { result ≡ kind ∷ big_bytes 2 by ++ big_bytes 4 time }
{
    let [by_high, by_low] = by.to_be_bytes();
    let [first, second, third, fourth] = time.to_be_bytes();
    [kind, by_high, by_low, first, second, third, fourth]
}

/// The fields of instructions.
pub(crate) fn steps_fields(by: u16, id: u16, count: u32) -> [u8; 9]
    ensures { result ≡ 2 ∷ big_bytes 2 by ++ big_bytes 2 id ++ big_bytes 4 count }
{
    let [by_high, by_low] = by.to_be_bytes();
    let [id_high, id_low] = id.to_be_bytes();
    let [first, second, third, fourth] = count.to_be_bytes();
    [
        2, by_high, by_low, id_high, id_low, first, second, third, fourth,
    ]
}

// The fields of a debugger's command of a kind.
fn kind_fields(kind: u8, by: u16, id: u16, number: u16) -> [u8; 7]
    ensures { result ≡ kind ∷ big_bytes 2 by ++ big_bytes 2 id ++ big_bytes 2 number }
{
    let [by_high, by_low] = by.to_be_bytes();
    let [id_high, id_low] = id.to_be_bytes();
    let [high, low] = number.to_be_bytes();
    [kind, by_high, by_low, id_high, id_low, high, low]
}

/// The fields of a debugger's command.
pub(crate) fn command_fields(by: u16, id: u16, command: Command) -> [u8; 7]
    ensures octets { result ≡ command_octets by id command }
    ensures range { IsCommandInRange command }
{
    match command {
        Command::SetBreak(place) => kind_fields(3, by, id, place),
        Command::ClearBreak(place) => kind_fields(4, by, id, place),
        Command::SetTrace(on) => kind_fields(5, by, id, u16::from(on)),
    }
}

/// The fields of a write of a pool word.
pub(crate) fn word_fields(by: u16, index: u16, value: u64) -> [u8; 13]
    ensures { result ≡ 7 ∷ big_bytes 2 by ++ big_bytes 2 index ++ big_bytes 8 value }
{
    let [by_high, by_low] = by.to_be_bytes();
    let [high, low] = index.to_be_bytes();
    let [first, second, third, fourth, fifth, sixth, seventh, eighth] = value.to_be_bytes();
    [
        7, by_high, by_low, high, low, first, second, third, fourth, fifth, sixth, seventh, eighth,
    ]
}

/// The number of octets of an event's entry.
pub(crate) fn length_of(event: &Event<'_>) -> usize
    ensures { result ≡ length (entry_octets (entry_for (event_of event.now))) }
{
    match event {
        Event::Request { octets, .. } => 7 + octets.len(),
        Event::Step { .. } => 9,
        Event::SetBreak { .. } | Event::ClearBreak { .. } | Event::Trace { .. } => 7,
        Event::Drain { .. } => 7,
        Event::PutWord { .. } => 13,
    }
}
