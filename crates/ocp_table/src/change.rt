//! The request table: what a request does to the record of its procedure, or why it fails; and how
//! the record is changed.
ghost use Rattle.std.specs.Prelude.{◌≡◌, ◌++◌, false, Some, IfOk};
ghost use Rattle.ocp_table.specs.Clauses.{FitsIn, HasFewArguments, HasPlaceBeside, HasPlaceFor, IfChanges, change_of, decision_of, decision_on, directive_of, dues_by_change, record_by, record_of};

use crate::outbox::{Outbox, overtake};
use crate::{Cause, Control, Directive, Pending, Place, Record};
use obcp_types::{StartFailure, Status};
use std::alloc::Allocator;

/// What a request does to the record of its procedure.
#[derive(Clone, Copy)]
pub enum Change<'a> {
    /// It starts from its first instruction, with these arguments and a budget of `budget`
    /// instructions (0 is no budget). What was pending is overtaken, and the mailbox is empty.
    Started { budget: u32, arguments: &'a [u8] },
    /// It gets these words into its mailbox.
    Sent(&'a [u64]),
    /// A stop or suspend becomes pending. What was pending is overtaken.
    Pended(Pending),
    /// It becomes inactive at once. What was pending is overtaken.
    Quit(Cause),
    /// It runs on, past a breakpoint at its place.
    Resumed,
}

/// What a request does to its procedure.
#[derive(Clone, Copy)]
pub enum Decision<'a> {
    /// The record is dropped. What was pending is overtaken.
    Unloads,
    /// The record is changed.
    Changes(Change<'a>),
}

/// What was decided of a request, and where its record was found.
#[derive(Clone, Copy)]
pub struct Decided<'a> {
    pub decision: Decision<'a>,
    pub(crate) place: Place,
}

impl<A: Allocator> Record<A> {
    /// Decides what a directive does, or why it fails. `full` says whether there is no room for one
    /// more completion.
    pub(crate) fn decide<'a>(
        &self,
        directive: Directive<'a>,
        full: bool,
    ) -> Result<Decision<'a>, StartFailure>
        requires few { HasFewArguments (directive_of directive false) }
        ensures decision { decision_of result ≡
            decision_on (directive_of directive.entry full) (Some (record_of self.now)) }
        ensures fits { IfOk result (λ decided.
            IfChanges decided (λ change. FitsIn change (Some (record_of self.now)))) }
        ensures place { IfOk result (λ decided. IfChanges decided (HasPlaceFor full)) }
    {
        let change = match (directive, self.control.status) {
            (Directive::Unload, Status::Inactive) => return Ok(Decision::Unloads),
            (Directive::Activate { budget, arguments }, Status::Inactive) => {
                Change::Started { budget, arguments }
            }
            (Directive::Unload | Directive::Activate { .. }, Status::Running | Status::Held) => {
                return Err(StartFailure::NotInactive);
            }
            (Directive::Stop(_, _) | Directive::Abort, Status::Inactive) => {
                return Err(StartFailure::NotActive);
            }
            (Directive::Stop(_, _), Status::Running) if full => {
                return Err(StartFailure::OutboxFull);
            }
            (Directive::Stop(step, origin), Status::Running) => {
                Change::Pended(Pending::Stop(step, origin))
            }
            (Directive::Stop(_, _), Status::Held) => Change::Quit(Cause::Stopped),
            (Directive::Suspend(step, origin), Status::Running) => match self.control.pending {
                Pending::Stop(_, _) => return Err(StartFailure::StopPending),
                Pending::Nothing | Pending::Suspend(_, _) if full => {
                    return Err(StartFailure::OutboxFull);
                }
                Pending::Nothing | Pending::Suspend(_, _) => {
                    Change::Pended(Pending::Suspend(step, origin))
                }
            },
            (Directive::Suspend(_, _), Status::Inactive | Status::Held) => {
                return Err(StartFailure::NotRunning);
            }
            (Directive::Resume, Status::Inactive | Status::Running) => {
                return Err(StartFailure::NotHeld);
            }
            (Directive::Resume, Status::Held) => Change::Resumed,
            (Directive::Abort, Status::Running | Status::Held) => Change::Quit(Cause::Aborted),
            (Directive::Communicate(_), Status::Inactive) => return Err(StartFailure::NotActive),
            (Directive::Communicate(words), Status::Running | Status::Held) => {
                if !self.mailbox.has_room(words.len()) {
                    return Err(StartFailure::MailboxFull);
                }
                Change::Sent(words)
            }
        };
        Ok(Decision::Changes(change))
    }

    /// Makes the change. The completion that it overtakes goes to the outbox.
    pub(crate) fn enact(&mut self, change: Change<'_>, outbox: &mut Outbox)
        requires fits { FitsIn (change_of change) (Some (record_of self.old)) }
        requires place { HasPlaceBeside outbox.old.items self.old.control.pending }
        ensures record { record_of self.new
            ≡ record_by (change_of change.entry) (record_of self.old) }
        ensures outbox { outbox.new.items ≡ outbox.old.items
            ++ dues_by_change (change_of change.entry) self.old.control.pending }
        ensures id { self.new.id ≡ self.old.id }
    {
        match change {
            Change::Started { budget, arguments } => {
                overtake(outbox, self.control.pending);
                self.execution.start(arguments);
                self.mailbox.clear();
                self.control = Control::inactive(Cause::Nothing);
                self.control.status = Status::Running;
                self.remaining = if budget == 0 { None } else { Some(budget) };
            }
            Change::Sent(words) => self.mailbox.append(words),
            Change::Pended(pending) => {
                overtake(outbox, self.control.pending);
                self.control.pending = pending;
            }
            Change::Quit(cause) => {
                overtake(outbox, self.control.pending);
                self.control = Control::inactive(cause);
            }
            Change::Resumed => {
                self.control.status = Status::Running;
                self.control.pass = true;
            }
        }
    }
}
