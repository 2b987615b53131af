//! Registers that count how often a loop still repeats, and ranks that they make greater.
ghost use Rattle.std.specs.Prelude.{◌≡◌, ◌≤◌, ◌<◌, ◌+◌, ◌%◌, ◌^◌, ℕ, Bool, true, IsTrue, IfSome, slice_get, slice_index, List};
ghost use Rattle.ocp_check.specs.Mirror.Ranges.{IsIn, AreIn};
ghost use Rattle.ocp_check.specs.Mirror.Ranks.{way_of, share, share_of, total_share, IsMoved, AreMoved};

use crate::certificate::Row;
use crate::covering::range_of;
use crate::range::Range;
use bpf_moves::REGISTERS;
use bpf_types::Reg;

/// The most counters of an image.
pub(crate) const COUNTERS: usize = 8;

/// A register that comes nearer to a limit, from below or from above.
#[derive(Clone, Copy, PartialEq, Eq, Debug)]
pub struct Counter {
    pub register: Reg,
    pub rises: bool,
    pub limit: u64,
    /// The most instructions that follow while the register is as far from the limit as it is.
    pub weight: u32,
}

/// The rank of a slot: how many instructions may follow, with what some counters add.
#[derive(Clone, Copy, Debug)]
pub struct Rank {
    pub base: u64,
    /// Which of the counters add their share.
    pub counts: [bool; COUNTERS],
}

/// What becomes of a register.
#[derive(Clone, Copy)]
pub(crate) enum Step {
    /// It stays as it is.
    Kept,
    /// A number is added, modulo 2 ^ 64.
    By(u64),
    /// It may be any number.
    Anywhere,
}

/// What becomes of the eleven registers.
pub(crate) type Steps = [Step; REGISTERS];

/// A sum that grows by at most `more`, and then falls by `less`.
#[derive(Clone, Copy)]
struct Shift {
    more: u64,
    less: u64,
}

/// The farthest that a register is from the limit, by what is known of it.
fn farthest(counter: &Counter, known: Option<Range>) -> Option<u64>
    ensures { IfSome result (λ most. (v : ℕ) → IsIn known v → way_of counter.now v ≤ most) }
{
    let known = known?;
    if counter.rises {
        Some(counter.limit.saturating_sub(known.low))
    } else {
        Some(known.high.saturating_sub(counter.limit))
    }
}

/// Whether a register comes nearer to the limit, by what is known of it before.
fn comes_nearer(counter: &Counter, before: Option<Range>, step: u64) -> bool
    ensures { IsTrue result → (v : ℕ) → IsIn before v →
        way_of counter.now ((v + step) % 2 ^ 64) + 1 ≤ way_of counter.now v }
{
    let Some(before) = before else {
        return false;
    };
    if step == 0 {
        return false;
    }
    if counter.rises {
        match before.high.checked_add(step) {
            Some(high) => high <= counter.limit,
            None => false,
        }
    } else {
        let down = step.wrapping_neg();
        down <= before.low && counter.limit <= before.low - down
    }
}

/// What a counter's share grows by if it adds none before, or if nothing else is known.
fn whole_share(counter: &Counter, after: Option<Range>) -> Option<Shift>
    ensures { IfSome result (λ shift. (old new : ℕ) (was : Bool) → IsIn after new →
        share counter.now true new + shift.less ≤ shift.more + share counter.now was old) }
{
    let most = farthest(counter, after)?;
    let more = most.checked_mul(u64::from(counter.weight))?;
    Some(Shift { more, less: 0 })
}

/// What a counter's share grows by at an instruction after which it adds one.
fn shift_of(
    counter: &Counter,
    was: bool,
    before: Option<Range>,
    after: Option<Range>,
    step: Step,
) -> Option<Shift>
    ensures { IfSome result (λ shift. (old new : ℕ) → IsIn before old → IsIn after new →
        IsMoved step old new →
        share counter.now true new + shift.less ≤ shift.more + share counter.now was old) }
{
    match step {
        Step::Kept if was => Some(Shift { more: 0, less: 0 }),
        Step::By(by) if was && comes_nearer(counter, before, by) => {
            Some(Shift {
                more: 0,
                less: u64::from(counter.weight),
            })
        }
        _ => whole_share(counter, after),
    }
}

/// The counter of a number, if there is one.
pub(crate) fn counter_at(counters: &[Counter], k: usize) -> Option<Counter>
    ensures { result ≡ slice_get counters.now k }
{
    match counters.get(k) {
        Some(counter) => Some(*counter),
        None => None,
    }
}

/// The same of the counter of a number, if there is one and it adds a share after the instruction.
fn shift_at(
    counters: &[Counter],
    k: usize,
    was: bool,
    is: bool,
    before: &Row,
    after: &Row,
    steps: &Steps,
) -> Option<Shift>
    ensures { IfSome result (λ shift. (old new : List ℕ) → AreIn before.now old →
        AreIn after.now new → AreMoved steps.now old new →
        share_of (slice_get counters.now k) is new + shift.less
        ≤ shift.more + share_of (slice_get counters.now k) was old) }
{
    if !is {
        return Some(Shift { more: 0, less: 0 });
    }
    match counter_at(counters, k) {
        Some(counter) => shift_of(
            &counter,
            was,
            range_of(before, counter.register),
            range_of(after, counter.register),
            step_of(steps, counter.register),
        ),
        None => Some(Shift { more: 0, less: 0 }),
    }
}

/// What becomes of a register.
fn step_of(steps: &Steps, register: Reg) -> Step
    ensures { (old new : List ℕ) → AreMoved steps.now old new →
        IsMoved result (slice_index old register) (slice_index new register) }
{
    steps[usize::from(register.number())]
}

/// How many instructions may follow an instruction, less the shares of the counters before it:
/// no more than this by the rank of the place where it leads.
pub(crate) fn ahead_by(
    counters: &[Counter],
    was: &[bool; COUNTERS],
    rank: &Rank,
    before: &Row,
    after: &Row,
    steps: &Steps,
) -> Option<u64>
    ensures { IfSome result (λ most. (old new : List ℕ) → AreIn before.now old →
        AreIn after.now new → AreMoved steps.now old new →
        rank.now.base + total_share counters.now rank.now.counts new 8
        ≤ most + total_share counters.now was.now old 8) }
{
    let mut more = rank.base;
    let mut less = 0u64;
    for k in 0..COUNTERS {
        let shift = shift_at(counters, k, was[k], rank.counts[k], before, after, steps)?;
        more = more.checked_add(shift.more)?;
        less = less.checked_add(shift.less)?;
    }
    Some(more.saturating_sub(less))
}
