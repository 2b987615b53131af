//! Procedures that run apart from the engine.

ghost use Rattle.std.specs.Prelude.{◌≡◌};
ghost use Rattle.ocp_core.specs.Clauses.{IsRun, TicketContents, WorkContents, count_of};
ghost use Rattle.bpf_step.specs.Machine.{HasAddressesOf};
ghost use Rattle.ocp_core.specs.Mirror.Tickets.{ticket_code, work_code, work_of};

use bpf_step::Machine;
use bpf_step::laws::runs_keep_the_addresses;
use ocp_table::Snapshot;
use std::alloc::{Allocator, Global};
use std::marker::Model;

/// What a ticket and its work have of a procedure. It is on the heap, so that it does not move when
/// a ticket becomes a work, or is passed from call to call.
#[derive(Drop)]
pub(crate) struct Parts<A: Allocator> {
    pub(crate) base: Snapshot<A>,
    pub(crate) machine: Machine<A>,
}

/// A copy of a running procedure: its program, breakpoints, pass flag, trace flag and remaining
/// budget, and two machines with the same addresses. The first is the procedure's machine, for the
/// comparison at the commit. The second becomes equal to it, and runs.
pub struct Ticket<A: Allocator = Global> {
    pub(crate) id: u16,
    pub(crate) parts: Box<Parts<A>, A>,
}

/// Kept as one call: the proof of each caller is then shorter.
impl<A: Allocator> Drop for Ticket<A> {
    fn drop(self) {
        let Self { id: _, parts: _ } = self;
    }
}

impl<A: Allocator> Model for Ticket<A> {
    ghost Value = { TicketContents };

    ghost coded = { ticket_code };

    ghost view = { λ t. record { id = t.id; base = t.parts.value.base } };

    ghost invariant = { λ t. HasAddressesOf t.parts.value.machine t.parts.value.base.machine };
}

/// What a ticket did: its machine is the one that it began with, after `count` instructions that
/// need no engine.
pub struct Work<A: Allocator = Global> {
    pub(crate) id: u16,
    pub(crate) parts: Box<Parts<A>, A>,
    pub(crate) count: u32,
}

/// Kept as one call: the proof of each caller is then shorter.
impl<A: Allocator> Drop for Work<A> {
    fn drop(self) {
        let Self {
            id: _,
            parts: _,
            count: _,
        } = self;
    }
}

impl<A: Allocator> Model for Work<A> {
    ghost Value = { WorkContents };

    ghost coded = { work_code };

    ghost view = { work_of };

    ghost invariant = { λ w. IsRun (work_of w) };
}

impl<A: Allocator> Ticket<A> {
    /// The procedure's id.
    pub fn id(&self) -> u16
        ensures { result ≡ self.now.id }
    {
        self.id
    }

    /// Does instructions that need no engine, up to `budget` and to what remains of the procedure's
    /// own budget. It does none if the procedure is traced. It stops before the first one that
    /// needs the engine, and before a breakpoint, but the pass flag lets the first instruction pass
    /// one.
    pub fn run(self, budget: u32) -> Work<A>
        ensures id { result.id ≡ self.id }
        ensures base { result.base ≡ self.base }
        ensures count { result.count ≡ count_of self.base budget }
        ensures ran { IsRun result }
    {
        let Self { id, mut parts } = self;
        let run = &mut *parts;
        let count = run.base.run(&mut run.machine, budget);
        Work { id, parts, count }
    }
}

impl<A: Allocator> Work<A> {
    /// The procedure's id.
    pub fn id(&self) -> u16
        ensures { result ≡ self.now.id }
    {
        self.id
    }

    /// The ticket that it was made of, in the same memory.
    pub fn into_ticket(self) -> Ticket<A>
        ensures { result ≡ record { id = self.id; base = self.base } }
    {
        runs_keep_the_addresses();
        let Self {
            id,
            parts,
            count: _,
        } = self;
        Ticket { id, parts }
    }

    /// How many instructions were done.
    pub fn count(&self) -> u32
        ensures value { result ≡ self.now.count }
        ensures ran { IsRun self.now }
    {
        self.count
    }
}
