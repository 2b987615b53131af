//! What is taken of a running procedure to run it apart.

ghost use Rattle.std.specs.Prelude.{◌≡◌, ◌↔◌, ◌⊎◌, IfOk, IsTrue, Some, None, false};
ghost use Rattle.ocp_table.specs.Clauses.{HasAddressesOf, IsWithin, StandsIn, count_of, record_of, snapshot_at};
ghost use Rattle.ocp_table.specs.Snapshots.{run_of};

use crate::{Execution, MAX_BREAKPOINTS, Record};
use arrayvec::ArrayVec;
use bpf_step::Machine;
use obcp_types::Status;
use std::alloc::{AllocError, Allocator, Global};
use std::marker::Model;

/// A running procedure as it was: a copy of its program and of its machine, the breakpoints, the
/// pass flag, the trace flag, and what was left of the budget.
#[derive(Drop)]
pub struct Snapshot<A: Allocator = Global> {
    execution: Execution<A>,
    breakpoints: ArrayVec<u16, MAX_BREAKPOINTS>,
    pass: bool,
    traced: bool,
    remaining: Option<u32>,
}

impl<A: Allocator> Model for Snapshot<A> {
    ghost use Rattle.ocp_table.specs.Snapshots.{Snapshot as Taken};

    ghost Value = { Taken };

    ghost use Rattle.ocp_table.specs.Mirror.Codes.{snapshot_code};

    ghost coded = { snapshot_code };

    ghost view = { λ s. record {
      image = s.execution.image;
      machine = s.execution.machine;
      breakpoints = s.breakpoints.items;
      pass = s.pass;
      traced = s.traced;
      remaining = s.remaining;
    } };
}

impl<A: Allocator> Snapshot<A> {
    /// The snapshot of a procedure, if it runs.
    pub fn take(alloc: A, procedure: &Record<A>) -> Result<Option<Self>, AllocError>
    where
        A: Copy,
        ensures { IfOk result (λ s. s ≡ snapshot_at (Some (record_of procedure.now))) }
    {
        match procedure.control.status {
            Status::Running => Ok(Some(Snapshot {
                breakpoints: procedure.breakpoints.clone()?,
                execution: procedure.execution.copy(alloc)?,
                pass: procedure.control.pass,
                traced: procedure.traced,
                remaining: procedure.remaining,
            })),
            Status::Inactive | Status::Held => Ok(None),
        }
    }

    /// Becomes the snapshot of a procedure, in the same memory: none is asked for. It is refused
    /// exactly if the procedure does not run, or if its machine's memory has other addresses; then
    /// nothing is changed.
    pub fn retake(&mut self, procedure: &Record<A>) -> bool
        ensures taken { IsTrue result →
            snapshot_at (Some (record_of procedure.now)) ≡ Some self.new }
        ensures addresses { HasAddressesOf self.old.machine self.new.machine }
        ensures kept { (result ≡ false) → self.new ≡ self.old }
        ensures refused { (result ≡ false) →
            (snapshot_at (Some (record_of procedure.now)) ≡ None)
            ⊎ ¬ HasAddressesOf self.old.machine procedure.now.execution.machine }
    {
        let machine = procedure.execution.machine();
        if !procedure.is_running() || !machine.has_addresses_of(self.execution.machine()) {
            return false;
        }
        self.execution.copy_from(&procedure.execution);
        self.breakpoints.clear();
        let places = procedure.breakpoints.as_slice();
        self.breakpoints.try_extend_from_slice(places).unwrap();
        self.pass = procedure.control.pass;
        self.traced = procedure.traced;
        self.remaining = procedure.remaining;
        true
    }

    /// Whether a procedure runs, and its program, machine, breakpoints, pass flag, trace flag and
    /// what is left of its budget are the same by value.
    pub fn is_at(&self, procedure: &Record<A>) -> bool
        ensures same { IsTrue result ↔
            (snapshot_at (Some (record_of procedure.now)) ≡ Some self.now) }
        ensures stands { IsTrue result → StandsIn self.now.image self.now.machine }
    {
        procedure.is_running()
            && self.pass == procedure.control.pass
            && self.traced == procedure.traced
            && self.remaining == procedure.remaining
            && self.breakpoints.as_slice() == procedure.breakpoints.as_slice()
            && self.execution.is_same(&procedure.execution)
    }

    /// The machine as it was.
    pub fn machine(&self) -> &Machine<A>
        ensures { result.now ≡ self.now.machine }
    {
        self.execution.machine()
    }

    /// Makes a machine equal to the snapshot's, and lets it do instructions that need no engine, up
    /// to `budget` and to what was left of the procedure's. It returns how many it did: none if the
    /// procedure is traced. It stops before the first instruction that needs the engine, and before
    /// a breakpoint, but the pass flag lets the first instruction pass one.
    pub fn run(&self, machine: &mut Machine<A>, budget: u32) -> u32
        requires { HasAddressesOf machine.old self.now.machine }
        ensures ran { run_of self.now result ≡ Some machine.new }
        ensures count { result ≡ count_of self.now budget }
        ensures within { IsWithin self.now.remaining result }
        ensures stands { StandsIn self.now.image machine.new }
    {
        let most = if self.traced {
            0
        } else {
            self.remaining.map_or(budget, |left| budget.min(left))
        };
        machine.copy_from(self.execution.machine());
        let breakpoints = self.breakpoints.as_slice();
        let count = machine.run(self.execution.program(), breakpoints, self.pass, most);
        machine.measure();
        count
    }
}
