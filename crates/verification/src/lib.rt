//! Which verification reports a request gives, and which its completion gives if it comes later
//! (service 1 of ECSS-E-ST-70-41C).
#![tactic(auto)]

mod choosing;
mod notice;
mod outcome;

pub use choosing::{completion, is_completion_asked, notices};
pub use notice::{Notice, NoticeList};
pub use obcp_types::{AcceptanceFailure, CompletionFailure, StartFailure};
pub use outcome::Outcome;
