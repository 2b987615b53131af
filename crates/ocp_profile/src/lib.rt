//! Which of the two profiles of procedures and requests an engine and its ground tools follow, and
//! the ranges of the numbers that an engine is made with.
#![tactic(auto)]

mod limits;
mod profile;

pub use limits::{MAX_APID, MAX_CAPACITY, MAX_POOL_WORDS};
pub use profile::Profile;
