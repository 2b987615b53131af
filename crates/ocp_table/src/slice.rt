//! Instructions of a procedure that is found once.
ghost use Rattle.std.specs.Prelude.{◌≡◌, ◌≤◌, ◌++◌, Some, true};
ghost use Rattle.ocp_table.specs.Clauses.{HasPlaceBeside, IsSlice, Records, Running, Step, dues_of_effect, effect_of_record, get, is_done, is_running_status, most_events, pool_by, record_after, record_of, slice_of, step_at, step_ended, step_outcome, Store};
ghost use Rattle.ocp_table.specs.declared.answers.Extent.TheVariants as extents;

use crate::budget::spend;
use crate::outbox::{Outbox, file};
use crate::{
    Called, Extent, InstructionAnswer, InstructionOutcome, Pool, ProcedureFault, Record, Round,
    Status, StepOutcome,
};
use bpf_step::breaks_at;
use std::alloc::Allocator;

impl<A: Allocator> Record<A> {
    /// Whether the procedure runs.
    #[inline(always)]
    pub(crate) fn is_running(&self) -> bool
        ensures { result ≡ is_running_status self.now.control.status }
    {
        matches!(self.control.status, Status::Running)
    }

    /// One instruction event. What it completes or overtakes goes to the outbox.
    #[inline(never)]
    pub(crate) fn event(&mut self, pool: &mut Pool<A>, outbox: &mut Outbox) -> InstructionAnswer
        requires { HasPlaceBeside outbox.old.items self.old.control.pending }
        ensures answer { result.outcome ≡ step_outcome (effect_of_record (Step pool.old) self.old) }
        ensures step { result.step ≡ step_ended (effect_of_record (Step pool.old) self.old) }
        ensures done { self.old.control.status ≡ Running → is_done result.outcome ≡ true }
        ensures record { record_of self.new ≡
            record_after (effect_of_record (Step pool.old) self.old) (record_of self.old) }
        ensures outbox { outbox.new.items ≡ outbox.old.items
            ++ dues_of_effect (effect_of_record (Step pool.old) self.old)
            self.old.control.pending }
        ensures place { HasPlaceBeside outbox.new.items self.new.control.pending }
        ensures pool { pool.new ≡ pool_by (effect_of_record (Step pool.old) self.old) pool.old }
        ensures id { self.new.id ≡ self.old.id }
    {
        if !self.is_running() {
            return InstructionAnswer {
                outcome: StepOutcome::NotRunning,
                step: None,
            };
        }
        let place = self.execution.machine().place();
        let outcome = if breaks_at(self.control.pass, self.breakpoints.as_slice(), place) {
            InstructionOutcome::Broke
        } else if let Some(0) = self.remaining {
            InstructionOutcome::Faulted(ProcedureFault::BudgetSpent)
        } else {
            self.execution.step(pool, &mut self.mailbox)
        };
        match outcome {
            InstructionOutcome::Broke | InstructionOutcome::Faulted(_) => {}
            InstructionOutcome::Ran | InstructionOutcome::Called(_) | InstructionOutcome::Ended => {
                spend(1, &mut self.remaining);
            }
        }
        file(outbox, &self.control.pending, outcome);
        self.control.follow(outcome);
        let step = match outcome {
            InstructionOutcome::Called(Called::StepEnd(step)) => Some(step),
            _ => None,
        };
        let outcome = StepOutcome::of(outcome);
        InstructionAnswer { outcome, step }
    }

    /// Does instructions until the budget is used or they go no further. Instructions that need no
    /// engine are done in stretches, each other one as an event.
    pub(crate) fn instructions(
        &mut self,
        pool: &mut Pool<A>,
        outbox: &mut Outbox,
        budget: u32,
        extent: Extent,
    ) -> Round
        requires budget { 1 ≤ budget }
        requires place { HasPlaceBeside outbox.old.items self.old.control.pending }
        ensures slice { (m : Records) → get m self.old.id ≡ Some (record_of self.old) →
            let s : Store = record { records = m; outbox = outbox.old.items; pool = pool.old } in
            IsSlice self.old.id s (most_events extent self.old.id s budget) (slice_of result)
            (record_of self.new) outbox.new.items pool.new }
        ensures step { extent ≡ extents.Round →
            (m : Records) → get m self.old.id ≡ Some (record_of self.old) →
            let s : Store = record { records = m; outbox = outbox.old.items; pool = pool.old } in
            result.step ≡ step_at self.old.id result.count s }
        ensures done { is_running_status self.old.control.status ≡ true →
            is_done result.last ≡ true }
        ensures place { HasPlaceBeside outbox.new.items self.new.control.pending }
        ensures id { self.new.id ≡ self.old.id }
    {
        if !self.is_running() {
            return Round {
                count: 1,
                last: StepOutcome::NotRunning,
                step: None,
            };
        }
        let mut count = 0;
        let mut last = StepOutcome::Ran;
        while count < budget {
            count += self.execution.advance(
                self.breakpoints.as_slice(),
                &mut self.control.pass,
                &mut self.remaining,
                budget - count,
            );
            if count == budget {
                return Round {
                    count,
                    last: StepOutcome::Ran,
                    step: None,
                };
            }
            let answer = self.event(pool, outbox);
            let step = answer.step;
            last = answer.outcome;
            count += 1;
            let goes_on = last.is_on() && self.is_running();
            if !goes_on {
                return Round { count, last, step };
            }
            if extent.ends_with(step) {
                return Round { count, last, step };
            }
        }
        Round {
            count,
            last,
            step: None,
        }
    }
}
