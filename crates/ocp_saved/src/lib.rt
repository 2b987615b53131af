//! Checkpoints: what is kept of an engine, as octets.
#![tactic(auto)]

mod completions;
mod control;
mod fault;
mod fields;
mod header;
pub mod laws;
mod machine;
mod pool;
mod procedure;
mod table;

pub use completions::{outbox_at, outbox_length, put_outbox};
pub use fault::RestoreFault;
pub use fields::MAX_FLAGS;
pub use header::{HEADER_LENGTH, Header, header_at, put_header};
pub use machine::Parts;
pub use pool::{fill_pool, pool_at, pool_length, put_pool};
pub use procedure::{Procedure, SavedProcedure, procedure_at, procedure_length, put_procedure};
pub use table::{end_at, procedures_at};
