//! The engine calls.
ghost use Rattle.std.specs.Prelude.{◌≡◌, ◌<◌, true, IfOk, OnErr};
ghost use Rattle.ocp_loader.specs.Image.{is_engine_call};
ghost use Rattle.ocp_profile.specs.declared.profile.Profile.TheVariants.{Two};
ghost use Rattle.bpf_step.specs.Machine.{read};
ghost use Rattle.bpf_step.specs.Calls.{state_after_engine_call};
ghost use Rattle.ocp_pool.specs.Call.{r0_of, r1_of, engine_call, result_of, pool_after, mailbox_after, pool_by, mailbox_by};

use crate::call::{Called, PoolFault};
use crate::mailbox::Mailbox;
use crate::pool::Pool;
use bpf_step::{MAX_SLOTS, Machine};
use std::alloc::Allocator;

/// What the call of a number does, with what it does to pool and mailbox.
fn call_of<A: Allocator>(
    number: i32,
    r1: u64,
    r2: u64,
    r3: u64,
    pool: &mut Pool<A>,
    mailbox: &mut Mailbox,
) -> Option<Called>
    requires { is_engine_call Two number ≡ true }
    ensures result { result ≡ engine_call number r1 r2 r3 pool.old mailbox.old }
    ensures pool { pool.new ≡ pool_by result pool.old }
    ensures mailbox { mailbox.new ≡ mailbox_by result mailbox.old }
{
    match number {
        1 => {
            let word = pool.get(r1)?;
            Some(Called::PoolGet { index: r1, word })
        }
        2 => {
            let old = pool.get(r1)?;
            pool.set(r1 as usize, r2);
            Some(Called::PoolSet {
                index: r1,
                value: r2,
                old,
            })
        }
        3 => {
            let new = pool.get(r1)?.wrapping_add(r2);
            pool.set(r1 as usize, new);
            Some(Called::PoolAdd {
                index: r1,
                value: r2,
                new,
            })
        }
        4 => Some(Called::NextParam(mailbox.take())),
        5 => Some(Called::StepEnd((r1 % 0x1_0000) as u16)),
        6 => {
            let old = pool.get(r1)?;
            if old == r2 {
                pool.set(r1 as usize, r3);
            }
            Some(Called::PoolCompareSet {
                index: r1,
                expected: r2,
                value: r3,
                old,
            })
        }
        _ => unreachable!(),
    }
}

/// Executes an engine call: R0, and R1 if the call writes it, get its answer, every other register
/// is unchanged, and the place moves one slot on. Refused with BadPoolIndex if R1 is no index of
/// the pool at a call 1 to 3 or 6; then nothing changes.
pub fn engine_call<A: Allocator, B: Allocator>(
    number: i32,
    machine: &mut Machine<A>,
    pool: &mut Pool<B>,
    mailbox: &mut Mailbox,
) -> Result<Called, PoolFault>
    requires number { is_engine_call Two number ≡ true }
    requires place { machine.old.place < MAX_SLOTS }
    ensures result { result ≡ result_of
        (engine_call number (read machine.old 1) (read machine.old 2) (read machine.old 3)
        pool.old mailbox.old) }
    ensures machine { IfOk result (λ called.
        machine.new ≡ state_after_engine_call machine.old (r0_of called) (r1_of called)) }
    ensures pool { IfOk result (λ called. pool.new ≡ pool_after called pool.old) }
    ensures mailbox { IfOk result (λ called. mailbox.new ≡ mailbox_after called mailbox.old) }
    ensures machine_kept { OnErr result (machine.new ≡ machine.old) }
    ensures pool_kept { OnErr result (pool.new ≡ pool.old) }
    ensures mailbox_kept { OnErr result (mailbox.new ≡ mailbox.old) }
{
    let registers = machine.registers();
    match call_of(
        number,
        registers[1],
        registers[2],
        registers[3],
        pool,
        mailbox,
    ) {
        Some(called) => {
            machine.finish_call(called.r0(), called.r1());
            Ok(called)
        }
        None => Err(PoolFault::BadPoolIndex),
    }
}
