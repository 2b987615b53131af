//! Which reports an outcome gives.

ghost use Rattle.std.specs.Prelude.{◌≡◌, ◌<◌, ◌++◌};
ghost use Rattle.arrayvec.specs.ArrayVec.{array_vec_len};
ghost use Rattle.verification.specs.Reports.{completion, optional_report, reports_of_outcome, wants_completion};

use crate::notice::{Notice, NoticeList};
use crate::outcome::Outcome;
use arrayvec::ArrayVec;
use bitflags::Flags;
use obcp_types::CompletionFailure;
use pus_fields::Ack;

/// Whether a report of successful completion is asked for.
#[tactic(auto, using(crate::proofs::Wanted::mask_eight))]
pub fn is_completion_asked(ack: Ack) -> bool
    ensures { result ≡ wants_completion ack }
{
    ack.contains(Ack::COMPLETION)
}

/// Adds a report of success, if it is asked for.
fn add_if(list: &mut ArrayVec<Notice, 4>, asked: bool, notice: Notice)
    requires { array_vec_len list.old < 4 }
    ensures { list.new.items ≡ list.old.items ++ optional_report asked notice }
{
    if asked {
        list.push(notice);
    }
}

/// The reports of a request, in the order in which they are sent: acceptance, start, the position
/// of the answer report, completion. A report of success is sent if its acknowledgement flag is
/// set. A failed acceptance or start is sent whatever the flags are, and ends the list. The
/// progress flag has no effect (ECSS-E-ST-70-41C, 6.1).
pub fn notices(ack: Ack, outcome: &Outcome) -> NoticeList
    ensures { result ≡ reports_of_outcome ack outcome.now }
{
    let mut list = ArrayVec::new();
    if let Outcome::Refused(failure) = outcome {
        list.push(Notice::NotAccepted(*failure));
        return NoticeList { notices: list };
    }
    add_if(&mut list, ack.contains(Ack::ACCEPTANCE), Notice::Accepted);
    if let Outcome::NotStarted(failure) = outcome {
        list.push(Notice::NotStarted(*failure));
        return NoticeList { notices: list };
    }
    add_if(&mut list, ack.contains(Ack::START), Notice::Started);
    if let Outcome::Done = outcome {
        list.push(Notice::Answer);
        add_if(&mut list, is_completion_asked(ack), Notice::Completed);
    }
    NoticeList { notices: list }
}

/// The report of a completion that comes after its request. A failed one is reported whatever the
/// flags are, a successful one if its flag is set (ECSS-E-ST-70-41C, 6.1.5).
pub fn completion(ack: Ack, failure: Option<CompletionFailure>) -> Option<Notice>
    ensures { result ≡ completion ack failure }
{
    match failure {
        Some(failure) => Some(Notice::NotCompleted(failure)),
        None if is_completion_asked(ack) => Some(Notice::Completed),
        None => None,
    }
}
