//! Why entries are not released, and why an entry is not read.

use thiserror::Error;

/// Why entries are not released. Nothing is changed then.
#[derive(Clone, Copy, PartialEq, Eq, Debug, Error)]
pub enum ReleaseFault {
    #[error("fewer entries are held")]
    NotHeld,
    #[error("there were 2^63 events or more")]
    Spent,
}

/// Why an entry is not read. The buffer keeps its octets then.
#[derive(Clone, Copy, PartialEq, Eq, Debug, Error)]
pub enum EntryFault {
    #[error("the entry was released")]
    Released,
    #[error("there is no such entry yet")]
    NotYet,
    #[error("the entry has {length} octets, and the buffer has fewer")]
    TooShort { length: usize },
}
