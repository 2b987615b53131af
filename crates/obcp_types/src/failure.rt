//! Why a request is not accepted, or not started.

ghost use Rattle.std.specs.Prelude.{◌≡◌};
ghost use Rattle.obcp_types.specs.Codes.{acceptance_code, completion_code, start_code};

use pus_fields::Rejection;
use thiserror::Error;

/// What is first wrong with the service data of a telecommand, in this order.
#[derive(Clone, Copy, PartialEq, Eq, Debug, Error)]
pub enum RequestFault {
    #[error("the service is not 18")]
    Service,
    #[error("the subtype is none of the requests'")]
    Subtype,
    #[error("the data have another length than the fields, or a number is out of its range")]
    Layout,
}

/// Why a telecommand was not accepted (ECSS-E-ST-70-41C, 6.1.4). The codes are this product's own.
#[derive(Clone, Copy, PartialEq, Eq, Debug, Error)]
pub enum AcceptanceFailure {
    /// Codes 1 to 5: the packet is rejected.
    #[error("the packet is rejected: {0}")]
    Packet(Rejection),
    /// Codes 6 to 8: the service data are no request.
    #[error("the service data are no request: {0}")]
    Request(RequestFault),
}

impl AcceptanceFailure {
    /// The failure code.
    pub fn code(self) -> u16
        ensures { result ≡ acceptance_code self }
    {
        match self {
            AcceptanceFailure::Packet(Rejection::Segmented) => 1,
            AcceptanceFailure::Packet(Rejection::NoSecondary) => 2,
            AcceptanceFailure::Packet(Rejection::NoRoom) => 3,
            AcceptanceFailure::Packet(Rejection::Pec) => 4,
            AcceptanceFailure::Packet(Rejection::PusVersion) => 5,
            AcceptanceFailure::Request(RequestFault::Service) => 6,
            AcceptanceFailure::Request(RequestFault::Subtype) => 7,
            AcceptanceFailure::Request(RequestFault::Layout) => 8,
        }
    }
}

/// Why a request was not started (ECSS-E-ST-70-41C, 6.1.5). The codes are this product's own.
#[derive(Clone, Copy, PartialEq, Eq, Debug, Error)]
pub enum StartFailure {
    #[error("a procedure of this identifier is loaded")]
    AlreadyLoaded,
    #[error("no further procedure can be loaded")]
    TableFull,
    #[error("the code is not admitted: load fault {fault} at slot {slot}")]
    BadCode { fault: u8, slot: u16 },
    #[error("no procedure of this identifier is loaded")]
    NotLoaded,
    #[error("the procedure is not inactive")]
    NotInactive,
    #[error("the procedure is not active")]
    NotActive,
    #[error("the procedure is not running")]
    NotRunning,
    #[error("the procedure is not held")]
    NotHeld,
    #[error("a stop is pending")]
    StopPending,
    #[error("the mailbox has no room for the words")]
    MailboxFull,
    #[error("no room is left for pending and unreported completions")]
    OutboxFull,
}

impl StartFailure {
    /// The failure code.
    pub fn code(self) -> u16
        ensures { result ≡ start_code self }
    {
        match self {
            StartFailure::AlreadyLoaded => 16,
            StartFailure::TableFull => 17,
            StartFailure::BadCode { .. } => 18,
            StartFailure::NotLoaded => 19,
            StartFailure::NotInactive => 20,
            StartFailure::NotActive => 21,
            StartFailure::NotRunning => 22,
            StartFailure::NotHeld => 23,
            StartFailure::StopPending => 24,
            StartFailure::MailboxFull => 25,
            StartFailure::OutboxFull => 27,
        }
    }
}

/// Why an execution was not completed (ECSS-E-ST-70-41C, 6.1.5.3). The codes are this product's
/// own.
#[derive(Clone, Copy, PartialEq, Eq, Debug, Error)]
pub enum CompletionFailure {
    #[error("something else came in between")]
    Overtaken = 26,
}

impl CompletionFailure {
    /// The failure code.
    pub fn code(self) -> u16
        ensures { result ≡ completion_code self }
    {
        self as u16
    }
}
