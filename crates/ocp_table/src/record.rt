//! A procedure under its identifier.
ghost use Rattle.std.specs.Prelude.{◌≡◌, ◌≤◌, [], length};
ghost use Rattle.ocp_table.specs.Clauses.{MAX_MAILBOX_WORDS, Profile, machine_at_start, machine_of_saved, new_record, record_of, record_of_saved};
ghost use Rattle.ocp_table.specs.declared.control.Pending.TheVariants as pending;

use crate::{Cause, Control, Execution, Saved};
use arrayvec::ArrayVec;
use ocp_pool::Mailbox;
use std::alloc::Allocator;

/// How many breakpoints a procedure has at most.
pub const MAX_BREAKPOINTS: usize = 8;

/// A procedure under its id. The fields that a search and the choice of the next procedure read
/// come first, apart from those that each turn writes: so no thread waits for another's writes.
#[derive(Drop)]
pub struct Record<A: Allocator> {
    pub id: u16,
    pub control: Control,
    pub breakpoints: ArrayVec<u16, MAX_BREAKPOINTS>,
    pub traced: bool,
    /// How many instructions are left of the budget, if one is set.
    pub remaining: Option<u32>,
    pub execution: Execution<A>,
    pub mailbox: Mailbox,
}

impl<A: Allocator> Record<A> {
    /// The record of a procedure that was loaded: inactive, with an empty mailbox, and nothing that
    /// a debugger sets.
    pub(crate) fn new(id: u16, execution: Execution<A>) -> Self
        ensures record { (profile : Profile) →
            execution.machine ≡ machine_at_start profile [] →
            record_of result ≡ new_record profile execution.image }
        ensures id { result.id ≡ id }
        ensures execution { result.execution ≡ execution }
        ensures idle { result.control.pending ≡ pending.Nothing }
    {
        Record {
            id,
            control: Control::inactive(Cause::Nothing),
            breakpoints: ArrayVec::new(),
            traced: false,
            remaining: None,
            execution,
            mailbox: Mailbox::new(),
        }
    }

    /// The record of a procedure that was saved, with its execution.
    pub(crate) fn of_saved(id: u16, execution: Execution<A>, saved: &Saved<'_>) -> Self
        requires breakpoints { length saved.now.breakpoints.now ≤ MAX_BREAKPOINTS }
        requires mailbox { length saved.now.mailbox.now ≤ MAX_MAILBOX_WORDS }
        ensures record { execution
            ≡ record { image = saved.now.code.now; machine = machine_of_saved saved.now } →
            record_of result ≡ record_of_saved saved.now }
        ensures id { result.id ≡ id }
        ensures execution { result.execution ≡ execution }
    {
        let mut breakpoints = ArrayVec::new();
        breakpoints
            .try_extend_from_slice(saved.breakpoints)
            .unwrap();
        let mut mailbox = Mailbox::new();
        mailbox.append(saved.mailbox);
        Record {
            id,
            control: saved.control,
            breakpoints,
            traced: saved.traced,
            remaining: saved.remaining,
            execution,
            mailbox,
        }
    }
}
