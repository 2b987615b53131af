//! What becomes of a request.

use obcp_types::{AcceptanceFailure, StartFailure};

/// What becomes of a request.
#[derive(Clone, Copy)]
pub enum Outcome {
    /// It is not accepted.
    Refused(AcceptanceFailure),
    /// It is accepted, and not started. The failure has its code and the code's data.
    NotStarted(StartFailure),
    /// It is accepted and started. Whether it is completed is known later.
    Started,
    /// It is accepted, started and completed.
    Done,
}
