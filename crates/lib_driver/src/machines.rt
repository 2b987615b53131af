//! Calls of ocp_regions and bpf_step, on memories and machines that earlier lines made.

ghost use Rattle.std.specs.Prelude.{◌≤◌, IfOk, length};

use crate::output::Output;
use bpf_step::{MAX_SLOTS, Machine};
use bpf_types::Size;
use driver_lines::*;
use ocp_regions::{ARGUMENT_OCTETS, Regions};
use std::alloc::AllocError;

/// A table of calls, the first of which make, copy, compare and read a memory or a machine.
macro_rules! made {
    ($alloc:expr, $words:expr, $made:expr, $type:ident;
            $new:literal, $copy:literal, $same:literal, $octets:literal; $($rows:tt)+) => {
        calls! { $alloc, $words;
            $new profile: profile -> "the number of the one made, from 0 on" => {
                add($alloc, $made, $type::new($alloc, profile))
            };
            $copy one: number -> "the number of the copy" => {
                let copy = one_of($made, one)?.copy($alloc);
                add($alloc, $made, copy)
            };
            $same one: number other: number -> "flag" => {
                text_of($alloc, one_of($made, one)?.is_same(one_of($made, other)?))
            };
            $octets one: number address: number before -> "as many octets" => {
                append!($alloc, before, Octets, out => one_of($made, one)?.octets(address, out))
            };
            $($rows)+
        }
    };
}

/// The answer of a call of ocp_regions.
pub(crate) fn memory_answer(made: &mut Vec<Regions>, alloc: Global, words: &[&str]) -> Answer {
    made! { alloc, words, made, Regions;
        "ocp_regions.new", "ocp_regions.copy", "ocp_regions.is_same", "ocp_regions.octets";
        "ocp_regions.load" memory: number address: number size: size_of -> "number" => {
            match one_of(made, memory)?.load(address, size) {
                Ok(number) => text!(alloc; "Ok", number),
                Err(fault) => name_of(alloc, fault),
            }
        };
        "ocp_regions.store" memory: number address: number size: size_of number: number
                -> "`Ok`, or why not" => {
            show_done(alloc, at(made, memory)?.store(address, size, number))
        };
        "ocp_regions.set_arguments" memory: number arguments: octets -> "`Ok`" => {
            show_end(alloc, at(made, memory)?.set_arguments(few(&arguments)?))
        };
        "ocp_regions.clear" memory: number -> "`Ok`" => show_end(alloc, at(made, memory)?.clear());
    }
}

/// The answer of a call of bpf_step.
pub(crate) fn machine_answer(made: &mut Vec<Machine>, alloc: Global, words: &[&str]) -> Answer {
    made! { alloc, words, made, Machine;
        "bpf_step.new", "bpf_step.copy", "bpf_step.is_same", "bpf_step.octets";
        "bpf_step.start" machine: number arguments: octets -> "`Ok`" => {
            show_end(alloc, at(made, machine)?.start(few(&arguments)?))
        };
        "bpf_step.registers" machine: number -> "eleven numbers" => {
            text_of(alloc, Numbers(&one_of(made, machine)?.registers()))
        };
        "bpf_step.place" machine: number -> "number" => {
            text_of(alloc, one_of(made, machine)?.place())
        };
        "bpf_step.depth" machine: number -> "number" => {
            text_of(alloc, one_of(made, machine)?.depth())
        };
        "bpf_step.finish_call" machine: number r0: number -> "`Ok`" => {
            finish_call(alloc, at(made, machine)?, r0, None)
        };
        "bpf_step.finish_call" machine: number r0: number r1: number -> "`Ok`" => {
            finish_call(alloc, at(made, machine)?, r0, Some(r1))
        };
    }
}

/// The memory or the machine of a number, from 0 on.
fn one_of<'a, T>(made: &'a [T], number: usize) -> Result<&'a T, Fault> {
    made.get(number).ok_or(Fault::Syntax)
}

/// The same, to be changed.
pub(crate) fn at<'a, T>(made: &'a mut [T], number: usize) -> Result<&'a mut T, Fault> {
    made.get_mut(number).ok_or(Fault::Syntax)
}

/// Adds a memory or a machine, and shows its number.
fn add<T: Drop>(alloc: Global, made: &mut Vec<T>, one: Result<T, AllocError>) -> Answer {
    let number = made.len();
    made.push(or_memory(one)?)?;
    text_of(alloc, number)
}

/// The size of a name.
fn size_of(word: &str) -> Result<Size, Fault> {
    value_of(names!(Size: Byte, Half, Word, Double), word)
}

/// The arguments, if they are at most as many octets as a procedure takes.
pub(crate) fn few(arguments: &[u8]) -> Result<&[u8], Fault>
    ensures { IfOk result (λ few. length few.now ≤ ARGUMENT_OCTETS) }
{
    if arguments.len() > ARGUMENT_OCTETS {
        return Err(Fault::Syntax);
    }
    Ok(arguments)
}

/// `Ok`, after a call that has no refusal.
pub(crate) fn show_end(alloc: Global, _done: ()) -> Answer {
    text_of(alloc, "Ok")
}

fn finish_call(alloc: Global, machine: &mut Machine, r0: u64, r1: Option<u64>) -> Answer {
    if usize::from(machine.place()) >= MAX_SLOTS {
        return Err(Fault::Syntax);
    }
    show_end(alloc, machine.finish_call(r0, r1))
}
