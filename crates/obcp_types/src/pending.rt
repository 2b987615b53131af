//! What waits: the origin of a pending stop or suspend, and completions that wait to be reported.

use crate::CompletionFailure;
use bitflags::Flags;
use pus_fields::Ack;

/// The request that asked for a pending stop or suspend, to whose source its completion goes.
#[derive(Clone, Copy)]
pub struct PendingOrigin {
    /// The number of events that were accepted before that of the request.
    pub event: u64,
    /// The request's first four octets.
    pub request: [u8; 4],
    /// Its source, to which the report goes.
    pub source: u16,
    /// Its acknowledgement flags.
    pub ack: Ack,
}

impl Default for PendingOrigin {
    /// An empty one, for storage.
    fn default() -> Self {
        PendingOrigin {
            event: 0,
            request: [0; 4],
            source: 0,
            ack: Ack::empty(),
        }
    }
}

/// A completion that waits to be reported.
#[derive(Clone, Copy, Default)]
pub struct Due {
    /// The request that is completed.
    pub origin: PendingOrigin,
    /// Why it is not completed; `None` if it is.
    pub failure: Option<CompletionFailure>,
}
