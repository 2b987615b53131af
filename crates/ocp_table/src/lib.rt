//! The table of procedures: at most sixteen records, each under its id, and what each request and
//! each instruction does to them.
#![tactic(auto)]

mod answers;
mod budget;
mod change;
mod control;
mod directive;
mod execution;
mod fault;
pub mod laws;
mod outbox;
mod record;
mod saved;
mod slice;
mod slots;
mod snapshot;
mod table;
mod view;

pub use answers::{Extent, InstructionAnswer, InstructionOutcome, Round, Slice, StepOutcome};
pub use change::{Change, Decided, Decision};
pub use control::{Cause, Control, Pending};
pub use directive::Directive;
pub use execution::Execution;
pub use fault::ProcedureFault;
pub use obcp_types::{CompletionFailure, Due, PendingOrigin, StartFailure, Status, StatusRow};
pub use ocp_pool::{Called, Mailbox, Pool};
pub use ocp_profile::Profile;
pub use record::{MAX_BREAKPOINTS, Record};
pub use saved::{Saved, SavedFault};
pub use slots::Place;
pub use snapshot::Snapshot;
pub use table::{MAX_PROCEDURES, OUTBOX_PLACES, Table};
pub use view::View;
