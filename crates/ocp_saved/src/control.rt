//! What requests and instructions set of a procedure.
ghost use Rattle.std.specs.Prelude.{◌≡◌, ◌≤◌, ◌∷◌, ◌++◌, Bool, length};
ghost use Rattle.byteorder.specs.Endian.{big_bytes};
ghost use Rattle.ocp_table.specs.declared.control.Cause.TheVariants as cause;
ghost use Rattle.ocp_table.specs.declared.fault.ProcedureFault.TheVariants.{Machine};
ghost use Rattle.ocp_saved.specs.Format.{bit, cause_number, control_octets, origin_octets, pending_octets, remaining_octets};
ghost use Rattle.ocp_saved.specs.Reading.{Gives, step_and_origin_at, cause_at, control_at, flag_at, pending_at, remaining_at, status_at};

use crate::RestoreFault;
use crate::completions::{origin_at, origin_length, put_origin};
use crate::fields::{put_u16, put_u32, u8_at, u8_up_to, u16_at, u32_at};
use bpf_step::MachineFault;
use ocp_pool::PoolFault;
use ocp_regions::AccessFault;
use ocp_table::{Cause, Control, Pending, PendingOrigin, ProcedureFault, Status};

// The status.
#[tactic(auto, unfolding(crate::specs::Reading::status_at))]
fn status_at(octets: &[u8]) -> Result<(Status, &[u8]), RestoreFault>
    ensures { Gives (λ x. (x.0, x.1.now)) result (status_at octets.now) }
{
    let (number, rest) = u8_at(octets)?;
    match number {
        0 => Ok((Status::Inactive, rest)),
        1 => Ok((Status::Running, rest)),
        2 => Ok((Status::Held, rest)),
        _ => Err(RestoreFault::Status),
    }
}

// A step, and the origin of the request that asked for something at its end.
#[tactic(auto, unfolding(crate::specs::Reading::step_and_origin_at))]
fn step_and_origin_at(octets: &[u8]) -> Result<((u16, PendingOrigin), &[u8]), RestoreFault>
    ensures { Gives (λ x. (x.0, x.1.now)) result (step_and_origin_at octets.now) }
{
    let (step, rest) = u16_at(octets)?;
    let (origin, rest) = origin_at(RestoreFault::Pending, rest)?;
    Ok(((step, origin), rest))
}

// What is pending.
#[tactic(auto, unfolding(crate::specs::Reading::pending_at))]
fn pending_at(octets: &[u8]) -> Result<(Pending, &[u8]), RestoreFault>
    ensures { Gives (λ x. (x.0, x.1.now)) result (pending_at octets.now) }
{
    let (kind, rest) = u8_at(octets)?;
    match kind {
        0 => Ok((Pending::Nothing, rest)),
        1 => {
            let ((step, origin), rest) = step_and_origin_at(rest)?;
            Ok((Pending::Stop(step, origin), rest))
        }
        2 => {
            let ((step, origin), rest) = step_and_origin_at(rest)?;
            Ok((Pending::Suspend(step, origin), rest))
        }
        _ => Err(RestoreFault::Pending),
    }
}

// A flag.
#[tactic(auto, unfolding(crate::specs::Reading::flag_at))]
fn flag_at(octets: &[u8]) -> Result<(bool, &[u8]), RestoreFault>
    ensures { Gives (λ x. (x.0, x.1.now)) result (flag_at octets.now) }
{
    let (number, rest) = u8_up_to(1, RestoreFault::Flag, octets)?;
    Ok((number == 1, rest))
}

// The procedure ended in a fault of its machine.
fn machine_cause(fault: MachineFault) -> Cause
    ensures { result ≡ cause.Fault (Machine fault) }
{
    Cause::Fault(ProcedureFault::Machine(fault))
}

// Why the procedure is inactive.
#[tactic(auto, unfolding(crate::specs::Reading::cause_at))]
fn cause_at(octets: &[u8]) -> Result<(Cause, &[u8]), RestoreFault>
    ensures { Gives (λ x. (x.0, x.1.now)) result (cause_at octets.now) }
{
    let (number, rest) = u8_at(octets)?;
    match number {
        0 => Ok((Cause::Nothing, rest)),
        1 => Ok((Cause::Exited, rest)),
        2 => Ok((Cause::Stopped, rest)),
        3 => Ok((Cause::Aborted, rest)),
        4 => Ok((
            machine_cause(MachineFault::Access(AccessFault::AccessOutside)),
            rest,
        )),
        5 => Ok((
            machine_cause(MachineFault::Access(AccessFault::WriteToArguments)),
            rest,
        )),
        6 => Ok((machine_cause(MachineFault::CallDepth), rest)),
        7 => Ok((
            Cause::Fault(ProcedureFault::Pool(PoolFault::BadPoolIndex)),
            rest,
        )),
        8 => Ok((Cause::Fault(ProcedureFault::BudgetSpent), rest)),
        _ => Err(RestoreFault::Cause),
    }
}

/// The control, and the trace flag.
#[tactic(auto, unfolding(crate::specs::Reading::control_at))]
pub(crate) fn control_at(octets: &[u8]) -> Result<((Control, bool), &[u8]), RestoreFault>
    ensures { Gives (λ x. (x.0, x.1.now)) result (control_at octets.now) }
{
    let (status, rest) = status_at(octets)?;
    let (pending, rest) = pending_at(rest)?;
    let (pass, rest) = flag_at(rest)?;
    let (traced, rest) = flag_at(rest)?;
    let (cause, rest) = cause_at(rest)?;
    let control = Control {
        status,
        pending,
        pass,
        cause,
    };
    Ok(((control, traced), rest))
}

/// What is left of a budget, if one is set.
#[tactic(auto, unfolding(crate::specs::Reading::remaining_at))]
pub(crate) fn remaining_at(octets: &[u8]) -> Result<(Option<u32>, &[u8]), RestoreFault>
    ensures { Gives (λ x. (x.0, x.1.now)) result (remaining_at octets.now) }
{
    let (is_set, rest) = flag_at(octets)?;
    if is_set {
        let (left, rest) = u32_at(rest)?;
        Ok((Some(left), rest))
    } else {
        Ok((None, rest))
    }
}

// How many octets what is pending has.
fn pending_length(pending: &Pending) -> usize
    ensures value { result ≡ length (pending_octets pending.now) }
    ensures few { result ≤ 18 }
{
    match pending {
        Pending::Nothing => 1,
        Pending::Stop(_, origin) | Pending::Suspend(_, origin) => 3 + origin_length(origin),
    }
}

// Writes a kind, a step and an origin.
fn put_asked(out: &mut [u8], kind: u8, step: u16, origin: &PendingOrigin)
    requires { length out.old ≡ length (kind ∷ (big_bytes 2 step ++ origin_octets origin.now)) }
    ensures { out.new ≡ kind ∷ (big_bytes 2 step ++ origin_octets origin.now) }
{
    let (first, out) = out.split_at_mut(1);
    first[0] = kind;
    let (second, third) = out.split_at_mut(2);
    put_u16(second, step);
    put_origin(third, origin);
}

// Writes what is pending.
fn put_pending(out: &mut [u8], pending: &Pending)
    requires { length out.old ≡ length (pending_octets pending.now) }
    ensures { out.new ≡ pending_octets pending.now }
{
    match pending {
        Pending::Nothing => out.copy_from_slice(&[0]),
        Pending::Stop(step, origin) => put_asked(out, 1, *step, origin),
        Pending::Suspend(step, origin) => put_asked(out, 2, *step, origin),
    }
}

// The number of a flag.
fn bit(flag: bool) -> u8
    ensures { result ≡ bit flag }
{
    if flag { 1 } else { 0 }
}

// The number of a cause.
fn cause_number(cause: Cause) -> u8
    ensures { result ≡ cause_number cause }
{
    match cause {
        Cause::Nothing => 0,
        Cause::Exited => 1,
        Cause::Stopped => 2,
        Cause::Aborted => 3,
        Cause::Fault(fault) => 3 + fault.number(),
    }
}

/// How many octets the control and the trace flag have.
#[tactic(auto, unfolding(crate::specs::Format::control_octets))]
pub(crate) fn control_length(control: &Control) -> usize
    ensures value { (traced : Bool) → result ≡ length (control_octets control.now traced) }
    ensures few { result ≤ 22 }
{
    4 + pending_length(&control.pending)
}

/// Writes the control and the trace flag.
#[tactic(auto, unfolding(crate::specs::Format::control_octets))]
pub(crate) fn put_control(out: &mut [u8], control: &Control, traced: bool)
    requires { length out.old ≡ length (control_octets control.now traced) }
    ensures { out.new ≡ control_octets control.now traced }
{
    let (status, out) = out.split_at_mut(1);
    status[0] = control.status.code();
    let (pending, flags) = out.split_at_mut(pending_length(&control.pending));
    put_pending(pending, &control.pending);
    flags.copy_from_slice(&[bit(control.pass), bit(traced), cause_number(control.cause)]);
}

/// How many octets what is left of a budget has.
pub(crate) fn remaining_length(remaining: Option<u32>) -> usize
    ensures value { result ≡ length (remaining_octets remaining) }
    ensures few { result ≤ 5 }
{
    match remaining {
        None => 1,
        Some(_) => 5,
    }
}

/// Writes what is left of a budget.
pub(crate) fn put_remaining(out: &mut [u8], remaining: Option<u32>)
    requires { length out.old ≡ length (remaining_octets remaining) }
    ensures { out.new ≡ remaining_octets remaining }
{
    match remaining {
        None => out.copy_from_slice(&[0]),
        Some(left) => {
            let (flag, number) = out.split_at_mut(1);
            flag[0] = 1;
            put_u32(number, left);
        }
    }
}
