//! Slices and rounds: instructions of one procedure, one after another.

ghost use Rattle.std.specs.Prelude.{◌≡◌, ◌≤◌, ℕ, ◌+◌, if◌then◌else◌, true, false, replicate};
ghost use Rattle.ocp_world.specs.Clauses.{IsWorld, Step, World, after, get, is_accepted, is_done, is_on, is_running, most_events, replay_from, slice_count, slice_last, step_at};
ghost use Rattle.ocp_table.specs.declared.answers.Extent.TheVariants as extents;

use crate::{Extent, Round, State};
use ocp_table::{Place, StepOutcome};
use std::alloc::Allocator;

impl<A: Allocator> State<A> {
    // Whether a slice goes on after this outcome.
    fn goes_on(&self, id: u16, place: Place, outcome: StepOutcome) -> bool
        ensures goes { (w : World) → IsWorld w self.now →
            result ≡ (if is_on outcome then is_running (get w.records id) else false) }
        ensures accepted { (w : World) (by : ℕ) → IsWorld w self.now → result ≡ true →
            is_accepted (after w (Step by id)).answer ≡ true }
    {
        outcome.is_on() && self.table.running(id, place).is_ok()
    }

    /// Does instructions of one procedure until the budget is used or they go no further. If the
    /// first of them is an accepted event, each of them is.
    pub fn instructions(&mut self, id: u16, budget: u32, extent: Extent) -> Round
        requires { 1 ≤ budget }
        ensures world { (w : World) (by : ℕ) → IsWorld w self.old →
            IsWorld (replay_from w (replicate result.count (Step by id))) self.new }
        ensures events { (w : World) (by : ℕ) → IsWorld w self.old →
            is_accepted (after w (Step by id)).answer ≡ true →
            (replay_from w (replicate result.count (Step by id))).events ≡
            w.events + result.count }
        ensures done { (w : World) (by : ℕ) → IsWorld w self.old →
            is_accepted (after w (Step by id)).answer ≡ true → is_done result.last ≡ true }
        ensures count { (w : World) (by : ℕ) → IsWorld w self.old →
            result.count ≡ slice_count w by id (most_events extent w by id budget) }
        ensures last { (w : World) (by : ℕ) → IsWorld w self.old →
            result.last ≡
            slice_last w by id StepOutcome.Ran (most_events extent w by id budget) }
        ensures step { (w : World) (by : ℕ) → IsWorld w self.old → extent ≡ extents.Round →
            result.step ≡ step_at w by id result.count }
    {
        let place = self.table.place(id);
        let pool = &mut self.pool;
        if let Some(round) = self.table.instructions(id, place, pool, budget, extent) {
            return round;
        }
        // Each instruction of a traced procedure makes a trace record.
        let mut last = StepOutcome::Ran;
        for done in 0..budget {
            let answer = self.instruction(id, place);
            let count = done + 1;
            let step = answer.step;
            last = answer.outcome;
            let is_last = !self.goes_on(id, place, last) || extent.ends_with(step);
            if is_last {
                return Round { count, last, step };
            }
        }
        Round {
            count: budget,
            last,
            step: None,
        }
    }
}
