//! Calls of obcp_types and of verification.

use crate::answers::{Shown, show_all};
use crate::fields::ack_of;
use driver_lines::*;
use obcp_types::{AcceptanceFailure, CompletionFailure, RequestFault, StartFailure};
use pus_fields::Rejection;
use verification::{Notice, Outcome, completion, notices};

/// The answer of a call.
pub(crate) fn answer(alloc: Global, words: &[&str]) -> Answer {
    calls! { alloc, words;
        "obcp_types.acceptance_code" failure: acceptance_of -> "its code" => text_of(alloc, failure.code());
        "obcp_types.start_code" [failure] -> "its code" => text_of(alloc, start_of(failure)?.code());
        "obcp_types.completion_code" failure: completion_of -> "its code" => text_of(alloc, failure.code());
        "verification.notices" ack: ack_of [outcome] -> "reports, with commas between them" => {
            show_all(alloc, notices(ack, &outcome_of(outcome)?).as_slice())
        };
        "verification.completion" ack: ack_of -> "the report" => some!(alloc, completion(ack, None)).show(alloc);
        "verification.completion" ack: ack_of failure: completion_of -> "the report" => {
            some!(alloc, completion(ack, Some(failure))).show(alloc)
        };
    }
}

/// The failure of an acceptance in words.
fn acceptance_of(word: &str) -> Result<AcceptanceFailure, Fault> {
    let names = names!(Rejection: Segmented, NoSecondary, NoRoom, Pec, PusVersion);
    match value_of(names!(RequestFault: Service, Subtype, Layout), word) {
        Ok(fault) => Ok(AcceptanceFailure::Request(fault)),
        Err(_) => Ok(AcceptanceFailure::Packet(value_of(names, word)?)),
    }
}

/// The failures of a start that are no more than a name.
const STARTS: &[(&str, StartFailure)] = names!(
    StartFailure: AlreadyLoaded, TableFull, NotLoaded, NotInactive, NotActive, NotRunning, NotHeld,
    StopPending, MailboxFull, OutboxFull
);

/// The failure of a start in words.
fn start_of(words: &[&str]) -> Result<StartFailure, Fault> {
    table! { (), words;
        "BadCode" fault: number slot: number => Ok(StartFailure::BadCode { fault, slot });
        else match *words {
            [name] => value_of(STARTS, name),
            _ => Err(Fault::Syntax),
        }
    }
}

fn completion_of(word: &str) -> Result<CompletionFailure, Fault> {
    value_of(names!(CompletionFailure: Overtaken), word)
}

/// The outcome in words.
fn outcome_of(words: &[&str]) -> Result<Outcome, Fault> {
    match words {
        ["Started"] => Ok(Outcome::Started),
        ["Done"] => Ok(Outcome::Done),
        ["Refused", name] => Ok(Outcome::Refused(acceptance_of(name)?)),
        ["NotStarted", failure @ ..] => Ok(Outcome::NotStarted(start_of(failure)?)),
        _ => Err(Fault::Syntax),
    }
}

impl Shown for Notice {
    /// A notice, with what its failure says.
    fn show(&self, alloc: Global) -> Answer {
        match *self {
            Notice::NotAccepted(AcceptanceFailure::Packet(fault)) => {
                text!(alloc; "NotAccepted", Named(fault))
            }
            Notice::NotAccepted(AcceptanceFailure::Request(fault)) => {
                text!(alloc; "NotAccepted", Named(fault))
            }
            Notice::NotStarted(StartFailure::BadCode { fault, slot }) => {
                text!(alloc; "NotStarted BadCode", fault, slot)
            }
            Notice::NotStarted(failure) => text!(alloc; "NotStarted", Named(failure)),
            Notice::NotCompleted(failure) => text!(alloc; "NotCompleted", Named(failure)),
            plain => name_of(alloc, plain),
        }
    }
}
