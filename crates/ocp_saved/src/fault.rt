//! Why octets are no checkpoint.

use thiserror::Error;

/// The first thing that is wrong with octets that are no checkpoint, from left to right.
#[derive(Clone, Copy, PartialEq, Eq, Debug, Error)]
pub enum RestoreFault {
    #[error("the octets are those of another version")]
    Version,
    #[error("a field passes the end")]
    Short,
    #[error("the profile is neither 1 nor 2")]
    Profile,
    #[error("an application process identifier is at most 2046")]
    Apid,
    #[error("a sequence count is below 16384")]
    Count,
    #[error("more events than an engine counts")]
    Events,
    #[error("more entries of the journal than events")]
    Entries,
    #[error("a pool has 1 to 256 words")]
    Pool,
    #[error("at most 64 completions wait")]
    Outbox,
    #[error("there are four acknowledgement flags")]
    Ack,
    #[error("a completion has failed or not")]
    Due,
    #[error("a table holds at most 16 procedures")]
    TableFull,
    #[error("a status is 0, 1 or 2")]
    Status,
    /// It is neither nothing nor a stop nor a suspend, or its request's flags are not four.
    #[error("what is pending is nothing, a stop or a suspend")]
    Pending,
    #[error("a flag is 0 or 1")]
    Flag,
    #[error("there are nine causes")]
    Cause,
    #[error("a procedure has at most 8 breakpoints")]
    Breakpoints,
    #[error("a mailbox has at most 16 words")]
    Mailbox,
    #[error("at most 7 local calls are open")]
    Frames,
    #[error("octets follow the end")]
    Trailing,
}
