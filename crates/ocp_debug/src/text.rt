//! The parts of lines that a text takes.
ghost use Rattle.std.specs.Prelude.{◌≡◌, ◌≤◌, ◌<◌, ◌+◌, ◌++◌, length, codes};
ghost use Rattle.ocp_debug.specs.Clauses.{Appends, cause_text, outcome_text, pending_text, status_name, word_text};

use crate::StepOutcome;
use ocp_table::{Cause, Pending, Status};
use std::alloc::{AllocError, Allocator};

/// The most octets of a view or of a trace record's line.
pub(crate) const TEXT_OCTETS: usize = 384;

/// The text of a view, or of a trace record.
pub(crate) type Text = bpf_canonical::Text<TEXT_OCTETS>;

/// Appends the octets to a vector, or leaves it as it is.
pub(crate) fn append_to<B: Allocator>(
    text: &Text,
    output: &mut Vec<u8, B>,
) -> Result<(), AllocError>
    ensures { Appends text.now output.old output.new result }
{
    output.reserve(text.as_slice().len())?;
    output.extend_from_slice(text.as_slice())
}

/// Appends a space and then a word in 16 hexadecimal digits.
pub fn push_spaced_word<const ROOM: usize>(text: &mut bpf_canonical::Text<ROOM>, word: u64)
    requires { length text.old + 17 ≤ ROOM }
    ensures items { text.new ≡ text.old ++ codes " " ++ word_text word }
    ensures len { length text.new ≤ length text.old + 17 }
{
    let mut digits = *b" 0000000000000000";
    hex::encode_to_slice(word.to_be_bytes(), &mut digits[1..]).unwrap();
    text.push_all(&digits);
}

/// Appends the name of a status.
pub(crate) fn push_status(text: &mut Text, status: Status)
    requires { length text.old + 8 ≤ TEXT_OCTETS }
    ensures items { text.new ≡ text.old ++ status_name status }
    ensures len { length text.new ≤ length text.old + 8 }
{
    match status {
        Status::Inactive => text.push_all(b"inactive"),
        Status::Running => text.push_all(b"running"),
        Status::Held => text.push_all(b"held"),
    }
}

/// Appends how a procedure became inactive.
pub(crate) fn push_cause(text: &mut Text, cause: Cause)
    requires { length text.old + 8 ≤ TEXT_OCTETS }
    ensures items { text.new ≡ text.old ++ cause_text cause }
    ensures len { length text.new ≤ length text.old + 8 }
{
    match cause {
        Cause::Nothing => text.push_all(b"none"),
        Cause::Exited => text.push_all(b"exited"),
        Cause::Stopped => text.push_all(b"stopped"),
        Cause::Aborted => text.push_all(b"aborted"),
        Cause::Fault(fault) => {
            text.push_all(b"fault");
            text.push_integer(fault.number());
        }
    }
}

/// Appends what is pending.
pub(crate) fn push_pending(text: &mut Text, pending: Pending)
    requires { length text.old + 13 ≤ TEXT_OCTETS }
    ensures items { text.new ≡ text.old ++ pending_text pending }
    ensures len { length text.new ≤ length text.old + 13 }
{
    match pending {
        Pending::Nothing => text.push_all(b"none"),
        Pending::Stop(step, _) => {
            text.push_all(b"stop ");
            text.push_integer(step);
        }
        Pending::Suspend(step, _) => {
            text.push_all(b"suspend ");
            text.push_integer(step);
        }
    }
}

/// Appends the outcome of an instruction event.
pub fn push_outcome<const ROOM: usize>(text: &mut bpf_canonical::Text<ROOM>, outcome: StepOutcome)
    requires { length text.old + 11 ≤ ROOM }
    ensures items { text.new ≡ text.old ++ outcome_text outcome }
    ensures len { length text.new ≤ length text.old + 11 }
{
    match outcome {
        StepOutcome::Broke => text.push_all(b"Broke"),
        StepOutcome::Ran => text.push_all(b"Ran"),
        StepOutcome::Called => text.push_all(b"Called"),
        StepOutcome::Ended => text.push_all(b"Ended"),
        StepOutcome::Faulted(number) => {
            text.push_all(b"Faulted ");
            text.push_integer(number);
        }
        StepOutcome::NotLoaded => text.push_all(b"NotLoaded"),
        StepOutcome::NotRunning => text.push_all(b"NotRunning"),
        StepOutcome::JournalFull => text.push_all(b"JournalFull"),
    }
}
