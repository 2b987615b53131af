//! Tickets of the engine, and the commit of their works.

ghost use Rattle.std.specs.Prelude.{◌≡◌, IfOk, IsTrue, Some, false};
ghost use Rattle.bpf_step.specs.Machine.{HasAddressesOf};
ghost use Rattle.ocp_core.specs.Clauses.{Commits, Grows, commit_entries, get, TicketContents, ticket_at, work_after, world_of};

use crate::ticket::Parts;
use crate::{CommitOutcome, Engine, Event, StepOutcome, Store, Ticket, Work};
use bpf_step::laws::runs_keep_the_addresses;
use ocp_table::Snapshot;
use ocp_world::instructions_done_alone_are_events;
use std::alloc::{AllocError, Allocator};

impl<A: Allocator> Engine<A> {
    /// A copy of a procedure, to run apart; none if the procedure is not running.
    pub fn ticket(&self, alloc: A, id: u16) -> Result<Option<Ticket<A>>, AllocError>
    where
        A: Copy,
        ensures { IfOk result (λ ticket.
            ticket ≡ ticket_at id (get (world_of self.now).records id)) }
    {
        let Some(procedure) = self.state.table.record(id) else {
            return Ok(None);
        };
        let Some(base) = Snapshot::take(alloc, procedure)? else {
            return Ok(None);
        };
        let machine = base.machine().copy(alloc)?;
        let parts = Box::new(alloc, Parts { base, machine })?;
        Ok(Some(Ticket { id, parts }))
    }

    /// Makes a ticket that of a procedure, in the same memory: none is asked for. It is refused if
    /// the procedure is not running, and if its machine's memory has other addresses than the
    /// ticket's; then the ticket stays as it was.
    pub fn ticket_into(&self, id: u16, ticket: &mut Ticket<A>) -> bool
        ensures taken { IsTrue result →
            ticket_at id (get (world_of self.now).records id) ≡ Some ticket.new }
        ensures kept { (result ≡ false) → ticket.new ≡ ticket.old }
        ensures refused { (given : TicketContents) → (result ≡ false) →
            ticket_at id (get (world_of self.now).records id) ≡ Some given →
            ¬ HasAddressesOf ticket.old.base.machine given.base.machine }
    {
        let Some(procedure) = self.state.table.record(id) else {
            return false;
        };
        if !ticket.parts.base.retake(procedure) {
            return false;
        }
        ticket.id = id;
        true
    }

    /// Puts a work's instructions into its procedure, as events that happen here. Refused, in this
    /// order, if there are none, if the procedure is not what the work began with, and if the
    /// journal is full; then nothing is changed. The work is dropped.
    pub fn commit(&mut self, by: u16, mut work: Work<A>) -> CommitOutcome
        ensures commits { Commits self.old self.new by work result }
    {
        self.hand_in(by, &mut work)
    }

    /// As `commit`, with a work that stays: no memory is given back, and no machine is copied. If
    /// the work is committed, the procedure gets the machine that ran. The work gets the machine
    /// that the procedure had, which is the one that it began with, and has no instructions.
    pub fn hand_in(&mut self, by: u16, work: &mut Work<A>) -> CommitOutcome
        ensures commits { Commits self.old self.new by work.old result }
        ensures gain { Grows self.old self.new (commit_entries by work.old.id result) }
        ensures work { work.new ≡ work_after work.old result }
    {
        instructions_done_alone_are_events();
        runs_keep_the_addresses();
        let id = work.id;
        let count = work.count;
        if count == 0 {
            return CommitOutcome::Empty;
        }
        let Some(procedure) = self.state.table.record(id) else {
            return CommitOutcome::Stale;
        };
        if !work.parts.base.is_at(procedure) {
            return CommitOutcome::Stale;
        }
        if self.journal.is_full(&Event::Step { by, id }) {
            return CommitOutcome::JournalFull;
        }
        self.state.settle(id, count, &mut work.parts.machine);
        work.count = 0;
        self.journal.push_steps(by, id, count, StepOutcome::Ran);
        CommitOutcome::Committed(count)
    }
}
