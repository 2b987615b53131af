//! The console and the ground commands with devices that fail, and with memory that is refused.

ghost use Rattle.std.specs.Prelude.{◌≡◌};

use crate::devices::{Giver, Taker};
use crate::heap::Refusing;
use ocp_commands::{asm, list};
use ocp_console::run;
use ocp_core::{Engine, Entry};
use ocp_ports::{ConsoleFault, Crew, CrewFault, Device};
use ocp_profile::Profile;
use ocp_words::Settings;
use std::alloc::{Allocator, Global};

/// The most growths that are refused before a call has to succeed.
const MOST: u64 = 400;

/// More octets than any of these outputs has.
const ROOM: usize = 4_096;

/// A procedure of three instructions is loaded, activated, done and shown.
const SCRIPT: &[u8] = b"send 9 load 7 b700000005000000070000000200000095000000\
00000000\nsend 1 activate 7\nstep 7 3\nview 7\n";

const TRANSCRIPT: &[u8] = b"tm 1 1 seq 0 dest 0 data 1923c000
tm 1 7 seq 1 dest 0 data 1923c000
tm 1 1 seq 2 dest 0 data 1923c001
step 7 3 Ended
view 7 inactive exited place 2 depth 0 pending none
r0 0000000000000007
r1 0000000020000000
r2 0000000000000000
r3 0000000000000000
r4 0000000000000000
r5 0000000000000000
r6 0000000000000000
r7 0000000000000000
r8 0000000000000000
r9 0000000000000000
r10 0000000010001000
";

const TEXT: &[u8] = b"mov64 r1, 3\nsub64 r1, 1\njne64 r1, 0, -2\nexit\n";

const IMAGE: &[u8] = b"b70100000300000017010000010000005501feff000000009500000000000000\n";

/// The commands. A script is run with a crew that refuses each work with this fault.
#[derive(Clone, Copy)]
enum Command {
    Assemble,
    List,
    Run(CrewFault),
}

/// What each of them reads, and what it writes.
const COMMANDS: [(Command, &[u8], &[u8]); 3] = [
    (Command::Assemble, TEXT, IMAGE),
    (Command::List, IMAGE, TEXT),
    (Command::Run(CrewFault::Workers), SCRIPT, TRANSCRIPT),
];

/// How a command ended: whether it was done, or its fault.
type End = Result<bool, ConsoleFault>;

/// A crew that refuses each work.
#[derive(Drop)]
struct Refuser(CrewFault);

impl<E: Drop> Crew<E> for Refuser {
    ghost ready = { λ _. Unit {0} };

    ghost answers = { λ _ _ _ _ _ _. Unit {0} };

    fn work(&self, _engine: E, _workers: u16, _budget: u32, _turns: u32) -> Result<E, CrewFault> {
        Err(self.0)
    }
}

/// A reader or a writer that has not failed.
fn device<D: Drop>(inner: D) -> Device<D>
    ensures { result.failed ≡ 0 }
{
    Device { inner, failed: 0 }
}

/// Runs a script with a crew, and returns how it ended and what the other device holds.
fn perform_run<A: Allocator + Copy, C: Crew<Engine<A>>>(
    alloc: A,
    crew: &C,
    giver: Giver,
    taker: Taker,
) -> (End, Taker)
    requires { C.ready crew.now }
{
    let (mut reader, mut writer) = (device(giver), device(taker));
    let Some(settings) = Settings::new(Profile::One, 0x123, 16, 10) else {
        return (Ok(false), writer.inner);
    };
    let end = match run(alloc, settings, crew, &mut reader, &mut writer) {
        Ok(()) => Ok(true),
        Err(fault) => Err(fault),
    };
    (end, writer.inner)
}

/// Does a command from one device to the other, and returns how it ended and what the other device
/// holds.
fn perform<A: Allocator + Copy>(
    alloc: A,
    command: Command,
    giver: Giver,
    taker: Taker,
) -> (End, Taker) {
    if let Command::Run(fault) = command {
        return perform_run(alloc, &Refuser(fault), giver, taker);
    }
    let (mut reader, mut writer) = (device(giver), device(taker));
    let end = match command {
        Command::Assemble => asm(alloc, Profile::One, &mut reader, &mut writer),
        Command::List => list(alloc, &mut reader, &mut writer),
        Command::Run(_) => Ok(false),
    };
    (end, writer.inner)
}

/// Whether a command is done, and the other device holds the whole output.
fn is_done(alloc: Global, command: Command, giver: Giver, taker: Taker, output: &[u8]) -> bool {
    let (end, taker) = perform(alloc, command, giver, taker);
    matches!(end, Ok(true)) && taker.kept() == output
}

/// Whether a command whose writer takes `room` octets ends with a failed write, and the writer has
/// the first octets of the output.
fn is_cut(
    alloc: Global,
    command: Command,
    input: &'static [u8],
    output: &[u8],
    room: usize,
    fails: bool,
) -> bool {
    let giver = Giver::new(input, ROOM, MOST);
    let taker = Taker::new(alloc, 50, room, fails);
    let (end, taker) = perform(alloc, command, giver, taker);
    matches!(end, Err(ConsoleFault::Write))
        && taker.kept().len() == room
        && output.starts_with(taker.kept())
}

#[test]
fn a_writer_of_some_octets_holds_the_first(rt: HostRuntime) {
    for (command, input, output) in COMMANDS {
        for room in 0..output.len() {
            assert!(rt; is_cut(rt.alloc(), command, input, output, room, false));
            assert!(rt; is_cut(rt.alloc(), command, input, output, room, true));
        }
        let giver = Giver::new(input, ROOM, MOST);
        let taker = Taker::new(rt.alloc(), 1, output.len(), true);
        assert!(rt; is_done(rt.alloc(), command, giver, taker, output));
    }
}

/// Whether a command whose reader fails after `good` calls ends with a failed read, and wrote a
/// prefix of the output.
fn is_unread(
    alloc: Global,
    command: Command,
    input: &'static [u8],
    output: &[u8],
    good: u64,
) -> bool {
    let taker = Taker::new(alloc, ROOM, ROOM, true);
    let (end, taker) = perform(alloc, command, Giver::new(input, 1, good), taker);
    matches!(end, Err(ConsoleFault::Read)) && output.starts_with(taker.kept())
}

#[test]
fn a_reader_that_fails_ends_a_command(rt: HostRuntime) {
    for (command, input, output) in COMMANDS {
        // One call for each octet, and one that finds the end.
        for good in 0..input.len() as u64 + 1 {
            assert!(rt;
                is_unread(rt.alloc(), command, input, output, good),
                "{good} calls"
            );
        }
        let giver = Giver::new(input, 1, input.len() as u64 + 1);
        let taker = Taker::new(rt.alloc(), ROOM, ROOM, true);
        assert!(rt; is_done(rt.alloc(), command, giver, taker, output));
    }
}

/// Does a command, at first with no memory, then with one more block each time, until it is done.
/// It answers whether a growth was refused, and whether after each refusal a prefix of the output
/// was written.
fn is_refused(
    heap: &Refusing<Global>,
    alloc: Global,
    command: Command,
    input: &'static [u8],
    output: &[u8],
) -> bool {
    for growths in 0..MOST {
        let taker = Taker::new(alloc, ROOM, ROOM, true);
        heap.allow(growths);
        let (end, taker) = perform(heap, command, Giver::new(input, 40, MOST), taker);
        match end {
            Ok(true) => return growths > 0 && taker.kept() == output,
            Err(ConsoleFault::Memory) if output.starts_with(taker.kept()) => {}
            _ => return false,
        }
    }
    false
}

#[test]
fn each_growth_of_a_command_is_refused(rt: HostRuntime) {
    let heap = Refusing::new(rt.alloc(), 0);
    for (command, input, output) in COMMANDS {
        assert!(rt; is_refused(&heap, rt.alloc(), command, input, output));
    }
}

/// A script whose second line asks for the crew.
const WORKED: &[u8] = b"journal\nwork 2 100 1000\njournal\n";

/// How a script ends with a crew that refuses with this fault, if it wrote what comes before.
fn end_with_a_refuser(alloc: Global, fault: CrewFault) -> Option<End> {
    let giver = Giver::new(WORKED, ROOM, MOST);
    let taker = Taker::new(alloc, ROOM, ROOM, true);
    let (end, taker) = perform(alloc, Command::Run(fault), giver, taker);
    if taker.kept() == b"journal 0\n".as_slice() {
        Some(end)
    } else {
        None
    }
}

#[test]
fn a_crew_that_refuses_ends_the_run(rt: HostRuntime) {
    let end = end_with_a_refuser(rt.alloc(), CrewFault::Workers);
    assert!(rt; matches!(end, Some(Err(ConsoleFault::Workers))));
    let end = end_with_a_refuser(rt.alloc(), CrewFault::Memory);
    assert!(rt; matches!(end, Some(Err(ConsoleFault::Memory))));
}

/// Each kind of line that leaves an entry; between them the time is set twice. The last line
/// gives the crew the engine.
const JOURNALED: &[u8] = b"send 0 load 7 9500000000000000
time 86400
send 0 activate 7
send 0 stop 7 1
step 7 1
break 7 0
break 7 0
unbreak 7 0
trace 7 on
time 4294967295
up 1923c00500062912080007d942
drain
work 1 1 1
";

/// The seat of each of its entries, and the time of a request or a drain, or else the identifier of
/// the procedure.
const ENTRIES: [(u16, u32); 9] = [
    (0, 0),
    (0, 86_400),
    (0, 86_400),
    (0, 7),
    (0, 7),
    (0, 7),
    (0, 7),
    (0, 4_294_967_295),
    (0, 4_294_967_295),
];

fn seat_and_time(entry: &Entry) -> (u16, u32) {
    let time = match entry {
        Entry::Request { time, .. } | Entry::Drain { time, .. } => *time,
        Entry::Steps { id, .. }
        | Entry::SetBreak { id, .. }
        | Entry::ClearBreak { id, .. }
        | Entry::Trace { id, .. } => u32::from(*id),
        Entry::PutWord { index, .. } => u32::from(*index),
    };
    (entry.by(), time)
}

/// Whether these are the entries of the lines.
fn are_the_entries(entries: &[Entry]) -> bool {
    if entries.len() != ENTRIES.len() {
        return false;
    }
    for (entry, wanted) in entries.iter().zip(ENTRIES) {
        if seat_and_time(entry) != wanted {
            return false;
        }
    }
    true
}

/// A crew that refuses each work, except on an engine whose journal has the entries of the lines.
#[derive(Drop)]
struct Auditor;

impl Crew<Engine> for Auditor {
    ghost ready = { λ _. Unit {0} };

    ghost answers = { λ _ _ _ _ _ _. Unit {0} };

    fn work(
        &self,
        engine: Engine,
        _workers: u16,
        _budget: u32,
        _turns: u32,
    ) -> Result<Engine, CrewFault> {
        if are_the_entries(engine.journal().entries()) {
            Ok(engine)
        } else {
            Err(CrewFault::Workers)
        }
    }
}

/// How a script ends whose crew looks at the journal.
fn end_with_an_auditor(alloc: Global, script: &'static [u8]) -> End {
    let giver = Giver::new(script, ROOM, MOST);
    let (end, _taker) = perform_run(alloc, &Auditor, giver, Taker::new(alloc, ROOM, ROOM, true));
    end
}

#[test]
fn entries_have_seat_0_and_the_time_of_the_last_time_line(rt: HostRuntime) {
    let end = end_with_an_auditor(rt.alloc(), JOURNALED);
    assert!(rt; matches!(end, Ok(true)));
    let end = end_with_an_auditor(rt.alloc(), b"work 1 1 1\n");
    assert!(rt; matches!(end, Err(ConsoleFault::Workers)));
}
