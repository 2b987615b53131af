//! A list of reports to send.

ghost use Rattle.std.specs.Prelude.{◌≡◌, ◌≤◌, length};

use arrayvec::ArrayVec;
use obcp_types::{AcceptanceFailure, CompletionFailure, StartFailure};
use std::marker::Model;

/// A report to send, or the position of the answer report.
#[derive(Clone, Copy, Debug, Default)]
pub enum Notice {
    /// Successful acceptance: service 1, subtype 1.
    Accepted,
    /// Failed acceptance: subtype 2.
    NotAccepted(AcceptanceFailure),
    /// Successful start: subtype 3.
    Started,
    /// Failed start: subtype 4.
    NotStarted(StartFailure),
    /// The position of the report that answers the request, if it has one.
    #[default]
    Answer,
    /// Successful completion: subtype 7.
    Completed,
    /// Failed completion: subtype 8.
    NotCompleted(CompletionFailure),
}

/// The reports of one request: at most three and the position of the answer report, in their order.
#[derive(Drop)]
pub struct NoticeList {
    pub(crate) notices: ArrayVec<Notice, 4>,
}

impl Model for NoticeList {
    ghost use Rattle.std.specs.Prelude.{List};
    ghost use Rattle.verification.specs.declared.notice.Notice.{Notice as Item};

    ghost Value = { List Item };

    ghost view = { λ list. list.notices.items };
}

impl NoticeList {
    /// The notices, in the order of their reports.
    pub fn as_slice(&self) -> &[Notice]
        ensures value { result.now ≡ self.now }
        ensures bound { length self.now ≤ 4 }
    {
        self.notices.as_slice()
    }
}
