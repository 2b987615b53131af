//! `lib_times`: single calls of the libraries by the clock. Each line has what was called, for how
//! many units at a time, the nanoseconds of the fastest of many blocks of calls, and how many calls
//! a block has. With the word `once` each block is done once, and the line has the sum of what the
//! calls gave instead of the nanoseconds.
#![tactic(auto)]

ghost use Rattle.std.specs.Prelude.{◌≤◌};

use ocp_core::Engine;
use ocp_profile::{MAX_CAPACITY, Profile};
use pus_fields::crc16;
use std::alloc::AllocError;
use std::process::ExitCode;
use std::time::Instant;
use std::{env, io};

/// How often a block of calls is done if the least time is wanted.
const BLOCKS: u32 = 200;

/// A load of procedure 3: `add64 r0, 1` and a jump back to it.
const LOAD: &str = "1923c000001a29120100000003001007000000010000000500feff000000005a04";

/// Its activation, with no arguments.
const ACTIVATE: &str = "1923c001000a291203000000030000b7b8";

/// The application process that these are for.
const APID: u16 = 0x123;

const POOL_WORDS: u16 = 16;

/// The octets of which the error control is taken: a full image.
const OCTETS: usize = 16_384;

/// The sum of the error controls of the octets, `calls` times.
#[inline(never)]
fn error_controls(octets: &[u8], calls: u32) -> u32 {
    let mut sum = 0u32;
    for _ in 0..calls {
        sum = sum.wrapping_add(u32::from(crc16(octets)));
    }
    sum
}

/// The nanoseconds of the fastest block so far, and the sum over all blocks.
#[derive(Clone, Copy)]
struct Timed {
    least: u128,
    sum: u32,
}

/// Prints a line: with the nanoseconds if blocks are timed, else with the sum.
fn say(
    rt: &HostRuntime,
    blocks: u32,
    what: &str,
    units: u32,
    calls: u32,
    timed: Timed,
) -> io::Result<()> {
    if blocks > 1 {
        println!(rt; "{what} {units} {} {calls}", timed.least)
    } else {
        println!(rt; "{what} {units} {calls} sum {}", timed.sum)
    }
}

fn time_error_control(rt: &HostRuntime, blocks: u32) -> io::Result<()> {
    let calls = 4;
    let octets = vec![in rt.alloc(); 0x5au8; OCTETS]?;
    let mut timed = Timed {
        least: u128::MAX,
        sum: 0,
    };
    for _ in 0..blocks {
        let start = Instant::now(rt)?;
        timed.sum = timed.sum.wrapping_add(error_controls(&octets, calls));
        timed.least = timed.least.min(start.elapsed(rt)?.as_nanos());
    }
    say(rt, blocks, "error_control", OCTETS as u32, calls, timed)
}

/// How many instructions some slices of procedure 3 do.
#[inline(never)]
fn slices(engine: &mut Engine, budget: u32, calls: u32) -> u32
    requires { 1 ≤ budget }
{
    let mut done = 0u32;
    for _ in 0..calls {
        done = done.wrapping_add(engine.slice(0, 3, budget).count);
    }
    done
}

fn time_slices(
    rt: &HostRuntime,
    blocks: u32,
    engine: &mut Engine,
    budget: u32,
    calls: u32,
) -> io::Result<()>
    requires { 1 ≤ budget }
{
    let mut timed = Timed {
        least: u128::MAX,
        sum: 0,
    };
    for _ in 0..blocks {
        let start = Instant::now(rt)?;
        timed.sum = timed.sum.wrapping_add(slices(engine, budget, calls));
        timed.least = timed.least.min(start.elapsed(rt)?.as_nanos());
    }
    say(rt, blocks, "slice", budget, calls, timed)
}

/// Has an engine do a request of these octets, in hexadecimal digits.
fn request(rt: &HostRuntime, engine: &mut Engine, packet: &str) -> io::Result<()> {
    let Ok(octets) = hex::decode(rt.alloc(), packet) else {
        return Err(AllocError.into());
    };
    match engine.request(rt.alloc(), 0, 0, &octets) {
        Ok(_) => Ok(()),
        Err(_) => Err(AllocError.into()),
    }
}

/// Times slices of procedure 3, which it loads and activates.
fn time_procedure(rt: &HostRuntime, blocks: u32, engine: &mut Engine) -> io::Result<()> {
    request(rt, engine, LOAD)?;
    request(rt, engine, ACTIVATE)?;
    time_slices(rt, blocks, engine, 1, 1_000)?;
    time_slices(rt, blocks, engine, 10, 1_000)?;
    time_slices(rt, blocks, engine, 100, 1_000)?;
    time_slices(rt, blocks, engine, 1_000, 200)?;
    time_slices(rt, blocks, engine, 1_000_000, 1)
}

fn time_engine(rt: &HostRuntime, blocks: u32) -> io::Result<()> {
    let mut engine = Engine::new(rt.alloc(), Profile::One, APID, POOL_WORDS, MAX_CAPACITY)?;
    time_procedure(rt, blocks, &mut engine)
}

/// Times the error control of a full image, and slices, over a number of blocks of calls.
fn time_calls(rt: &HostRuntime, blocks: u32) -> io::Result<()> {
    time_error_control(rt, blocks)?;
    time_engine(rt, blocks)
}

/// How many blocks of calls the words after the program's name have timed, if they are its words.
fn blocks_of(words: &[String]) -> Option<u32> {
    match words {
        [] => Some(BLOCKS),
        [once] if once.as_str() == "once" => Some(1),
        _ => None,
    }
}

fn run(rt: &HostRuntime) -> io::Result<ExitCode> {
    let words: Vec<String> = env::args(rt)?.skip(1).collect(rt.alloc())?;
    let Some(blocks) = blocks_of(&words) else {
        return Ok(ExitCode::from(1));
    };
    time_calls(rt, blocks)?;
    Ok(ExitCode::SUCCESS)
}

fn main(rt: HostRuntime) -> io::Result<ExitCode> {
    run(&rt)
}
