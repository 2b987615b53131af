//! A procedure that runs apart.

ghost use Rattle.std.specs.Prelude.{◌≡◌, ℕ, IfOk, Some, replicate};
ghost use Rattle.ocp_world.specs.Clauses.{IsWorld, Rec, RunsAlone, StandsAt, State as Machined, Step, Stepped, World, answers, get, machine_for, machine_of, replay_from, world_after_work};
ghost use Rattle.ocp_table.specs.declared.answers.StepOutcome.TheVariants as outcome;

use crate::State;
use bpf_step::Machine;
use std::alloc::{AllocError, Allocator};

impl<A: Allocator> State<A> {
    /// Gives a procedure a machine that did `count` instructions apart, in exchange for its own.
    pub fn settle(&mut self, id: u16, count: u32, machine: &mut Machine<A>)
        requires stands { StandsAt (get self.old.table.records id) machine.old }
        ensures world { (w : World) → IsWorld w self.old →
            IsWorld (world_after_work id machine.old count w) self.new }
        ensures machine { (w : World) → IsWorld w self.old →
            machine.new ≡ machine_for (get w.records id) machine.old }
    {
        self.table.settle(id, count, machine);
    }

    /// A copy of a procedure's machine, if the procedure is loaded.
    pub fn machine(&self, alloc: A, id: u16) -> Result<Option<Machine<A>>, AllocError>
    where
        A: Copy,
        ensures { (w : World) → IsWorld w self.now →
            IfOk result (λ machine. machine ≡ machine_of (get w.records id)) }
    {
        let Some(procedure) = self.table.record(id) else {
            return Ok(None);
        };
        let machine = procedure.execution.machine().copy(alloc)?;
        Ok(Some(machine))
    }
}

/// Instructions that a machine does by itself are as many instruction events of its procedure, if
/// that runs, is not traced and has them left of its budget. Each is answered `Ran` and takes one
/// from the budget; they move the machine alone and clear the pass flag. The function does nothing
/// when it runs: its contract is the law.
pub fn instructions_done_alone_are_events()
    ensures world { (w : World) (by id n : ℕ) (r : Rec) (machine : Machined) →
        RunsAlone w id r n machine →
        replay_from w (replicate n (Step by id)) ≡ world_after_work id machine n w }
    ensures answers { (w : World) (by id n : ℕ) (r : Rec) (machine : Machined) →
        RunsAlone w id r n machine →
        answers w (replicate n (Step by id)) ≡ replicate n (Stepped outcome.Ran) }
{}
