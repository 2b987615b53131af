//! What a request asks of a procedure that is loaded.

use obcp_types::PendingOrigin;

/// What a request asks of a procedure that is loaded.
#[derive(Clone, Copy)]
pub enum Directive<'a> {
    /// To be dropped.
    Unload,
    /// To start from its first instruction, with these arguments and a budget of `budget`
    /// instructions (0 is no budget).
    Activate { budget: u32, arguments: &'a [u8] },
    /// To end at the end of a step: of any step if the number is 0. Its completion is reported to
    /// the origin.
    Stop(u16, PendingOrigin),
    /// To be held at the end of a step: of any step if the number is 0. Its completion is reported
    /// to the origin.
    Suspend(u16, PendingOrigin),
    /// To run on.
    Resume,
    /// To end at once.
    Abort,
    /// To take these words into the mailbox.
    Communicate(&'a [u64]),
}
