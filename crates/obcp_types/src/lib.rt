//! Types about a procedure and a request for it that several crates share: the status, why a
//! request is not accepted, not started or not completed, with the failure codes of service 1
//! (ECSS-E-ST-70-41C, 6.1), and the completions that wait to be reported.
#![tactic(auto)]

mod failure;
mod pending;
mod status;

pub use failure::{AcceptanceFailure, CompletionFailure, RequestFault, StartFailure};
pub use pending::{Due, PendingOrigin};
pub use status::{Status, StatusRow};
