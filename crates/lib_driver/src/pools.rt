//! Calls of ocp_pool: a pool and a mailbox that earlier lines made, at a machine of theirs.

use crate::machines::{at, show_end};
use bpf_step::{MAX_SLOTS, Machine};
use driver_lines::*;
use ocp_pool::{Called, MAX_POOL_WORDS, Mailbox, Pool, PoolOperation, engine_call};

/// The pool and the mailbox of engine calls.
#[derive(Drop)]
pub(crate) struct Words {
    pool: Option<Pool>,
    mailbox: Mailbox,
}

impl Words {
    pub fn new() -> Words {
        Words {
            pool: None,
            mailbox: Mailbox::new(),
        }
    }
}

/// The answer of a call.
pub(crate) fn answer(
    made: &mut Words,
    machines: &mut [Machine],
    alloc: Global,
    words: &[&str],
) -> Answer {
    calls! { alloc, words;
        "ocp_pool.new" words: number -> "`Ok`" => {
            made.pool = Some(pool_of(alloc, words)?);
            text_of(alloc, "Ok")
        };
        "ocp_pool.append" [numbers] -> "`Ok`" =>
            append(alloc, &mut made.mailbox, &numbers_of(alloc, numbers)?);
        "ocp_pool.engine_call" machine: number call: number -> "R0 and R1" => {
            make_call(alloc, call, made, at(machines, machine)?)
        };
        "ocp_pool.word" index: number -> "number" => word(alloc, &made.pool, index);
        "ocp_pool.operation" [call] -> "what it did to the pool, as `Set 2 7` after `PoolSet 2 7 9`" => {
            show_operation(alloc, some!(alloc, call_of(call)?.operation()))
        };
    }
}

/// A pool of this number of words.
pub(crate) fn pool_of(alloc: Global, count: u16) -> Result<Pool, Fault> {
    if count == 0 || count > MAX_POOL_WORDS {
        return Err(Fault::Syntax);
    }
    or_memory(Pool::new(alloc, count))
}

/// Appends numbers to the mailbox, if it has room for them.
fn append(alloc: Global, mailbox: &mut Mailbox, numbers: &[u64]) -> Answer {
    if !mailbox.has_room(numbers.len()) {
        return Err(Fault::Syntax);
    }
    show_end(alloc, mailbox.append(numbers))
}

fn word(alloc: Global, pool: &Option<Pool>, index: usize) -> Answer {
    let pool = pool.as_ref().ok_or(Fault::Syntax)?;
    if index >= pool.words() {
        return text_of(alloc, "None");
    }
    text_of(alloc, pool.word(index))
}

fn make_call(alloc: Global, number: i32, made: &mut Words, machine: &mut Machine) -> Answer {
    let pool = made.pool.as_mut().ok_or(Fault::Syntax)?;
    if number < 1 || number > 6 || usize::from(machine.place()) >= MAX_SLOTS {
        return Err(Fault::Syntax);
    }
    match engine_call(number, machine, pool, &mut made.mailbox) {
        Ok(_called) => {
            let [r0, r1, ..] = machine.registers();
            text!(alloc; "Ok", r0, r1)
        }
        Err(fault) => name_of(alloc, fault),
    }
}

/// What an engine call did, in words.
fn call_of(words: &[&str]) -> Result<Called, Fault> {
    table! { (), words;
        "PoolGet" index: number word: number => Ok(Called::PoolGet { index, word });
        "PoolSet" index: number value: number old: number => {
            Ok(Called::PoolSet { index, value, old })
        };
        "PoolAdd" index: number value: number new: number => {
            Ok(Called::PoolAdd { index, value, new })
        };
        "PoolCompareSet" index: number expected: number value: number old: number => {
            Ok(Called::PoolCompareSet { index, expected, value, old })
        };
        "NextParam" word: number => Ok(Called::NextParam(Some(word)));
        "StepEnd" step: number => Ok(Called::StepEnd(step));
    }
}

fn show_operation(alloc: Global, operation: PoolOperation) -> Answer {
    variant! { alloc, operation, PoolOperation;
        Set { index, value } => index, value;
        Add { index, value } => index, value;
        CompareSet { index, expected, value } => index, expected, value;
    }
}
