//! Reports.

ghost use Rattle.std.specs.Prelude.{◌≡◌, ◌≢◌, ◌↔◌, IfSome, IsSome};

use crate::request::SERVICE;
use crate::rows::StatusRows;
use obcp_types::StartFailure;
use std::marker::Model;

/// The service type of request verification.
pub const VERIFICATION: u8 = 1;

/// The message subtype of the status report, in the service of requests.
pub const STATUS_REPORT: u8 = 9;

/// The start failure code that has data.
pub const BAD_CODE: u16 = 18;

/// A failure code that has no data: any code but 18.
#[derive(Clone, Copy)]
pub struct PlainCode {
    code: u16,
}

impl Model for PlainCode {
    ghost use Rattle.std.specs.Prelude.{ℕ, ◌≢◌};

    ghost Value = { ℕ };

    ghost view = { λ p. p.code };

    ghost invariant = { λ p. p.code ≢ 18 };

    ghost inverse = { λ n. record { code = n } };
}

impl PlainCode {
    /// This code, if it has no data.
    pub fn new(code: u16) -> Option<PlainCode>
        ensures value { IfSome result (λ plain. plain ≡ code) }
        ensures variant { IsSome result ↔ (code ≢ 18) }
    {
        if code == BAD_CODE {
            return None;
        }
        Some(PlainCode { code })
    }

    /// The number of the code.
    pub fn code(self) -> u16
        ensures value { result ≡ self }
        ensures plain { self ≢ 18 }
    {
        self.code
    }
}

/// Why a request was not started, as its report states it.
#[derive(Clone, Copy)]
pub enum StartFault {
    /// Code 18: the load fault of the code, and its slot.
    BadCode { fault: u8, slot: u16 },
    /// Any other code.
    Plain(PlainCode),
}

impl From<StartFailure> for StartFault {
    ghost use Rattle.obcp_messages.specs.Report.{start_fault};

    ghost from_gives = { λ failure fault. fault ≡ start_fault failure };

    fn from(failure: StartFailure) -> StartFault {
        match failure {
            StartFailure::BadCode { fault, slot } => StartFault::BadCode { fault, slot },
            _ => StartFault::Plain(PlainCode::new(failure.code()).unwrap()),
        }
    }
}

/// A report of service 1 (request verification, ECSS-E-ST-70-41C, 6.1), with the request's first
/// four octets, or the status report of service 18.
#[derive(Drop)]
pub enum Report {
    /// The request was accepted.
    Accepted { request: [u8; 4] },
    /// The request was not accepted, with the failure code.
    NotAccepted { request: [u8; 4], code: u16 },
    /// The request was started.
    Started { request: [u8; 4] },
    /// The request was not started.
    NotStarted { request: [u8; 4], fault: StartFault },
    /// The request is completed.
    Completed { request: [u8; 4] },
    /// The request was not completed, with the failure code.
    NotCompleted { request: [u8; 4], code: u16 },
    /// The loaded procedures with their status.
    Status { rows: StatusRows },
}

impl Report {
    ghost use Rattle.obcp_messages.specs.Report.{service_of, kind_of};

    /// The service type.
    pub fn service(&self) -> u8
        ensures { result ≡ service_of self.now }
    {
        match self {
            Report::Status { .. } => SERVICE,
            _ => VERIFICATION,
        }
    }

    /// The message subtype.
    pub fn subtype(&self) -> u8
        ensures { result ≡ kind_of self.now }
    {
        match self {
            Report::Accepted { .. } => 1,
            Report::NotAccepted { .. } => 2,
            Report::Started { .. } => 3,
            Report::NotStarted { .. } => 4,
            Report::Completed { .. } => 7,
            Report::NotCompleted { .. } => 8,
            Report::Status { .. } => STATUS_REPORT,
        }
    }
}
