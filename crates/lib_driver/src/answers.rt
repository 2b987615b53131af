//! How answers are shown: lists of them, and those of an engine.

use driver_lines::*;
use ocp_core::{CommitOutcome, EngineFault, Entry, Reports, Round, RunFault, Slice, StepOutcome};
use std::fmt;

/// What is shown as a text of its own.
pub trait Shown {
    fn show(&self, alloc: Global) -> Answer;
}

/// The texts of all these, with commas between them; `-` for none.
pub fn show_all<T: Shown>(alloc: Global, all: &[T]) -> Answer {
    let mut texts = String::new(alloc);
    for one in all {
        if !texts.is_empty() {
            texts.push_str(", ")?;
        }
        texts.push_str(&one.show(alloc)?)?;
    }
    if texts.is_empty() {
        texts.push_str("-")?;
    }
    Ok(texts)
}

/// The packets of reports, with spaces between them; `-` for none.
#[derive(Clone, Copy)]
pub(crate) struct Packets<'a>(pub &'a Reports);

impl fmt::Display for Packets<'_> {
    fn fmt<W: fmt::Write>(&self, f: &mut fmt::Formatter<W>) -> fmt::Result {
        let mut before = "";
        for packet in self.0.packets() {
            f.write_str(before)?;
            Octets(packet.as_slice()).fmt(f)?;
            before = " ";
        }
        f.write_str(if before.is_empty() { "-" } else { "" })
    }
}

/// What an instruction did.
#[derive(Clone, Copy)]
pub(crate) struct Outcome(pub StepOutcome);

impl fmt::Display for Outcome {
    fn fmt<W: fmt::Write>(&self, f: &mut fmt::Formatter<W>) -> fmt::Result {
        match self.0 {
            StepOutcome::Faulted(number) => write!(f, "Faulted {number}"),
            outcome => write!(f, "{outcome:?}"),
        }
    }
}

/// `Ok` and the packets, or the fault.
pub(crate) fn show_reports(alloc: Global, answer: &Result<Reports, EngineFault>) -> Answer {
    match answer {
        Ok(reports) => text!(alloc; "Ok", Packets(reports)),
        Err(EngineFault::Discarded(cause)) => text!(alloc; "Discarded", Named(*cause)),
        Err(fault) => name_of(alloc, *fault),
    }
}

/// How many instructions, and the outcome of the last one.
pub(crate) fn show_slice(alloc: Global, slice: Slice) -> Answer {
    text!(alloc; slice.count, Outcome(slice.last))
}

pub(crate) fn show_commit(alloc: Global, outcome: CommitOutcome) -> Answer {
    match outcome {
        CommitOutcome::Committed(count) => text!(alloc; "Committed", count),
        outcome => name_of(alloc, outcome),
    }
}

/// A round: how many, the last outcome, and the step that ended, if one did.
pub(crate) fn show_round(alloc: Global, round: Round) -> Answer {
    match round.step {
        Some(step) => text!(alloc; round.count, Outcome(round.last), "step", step),
        None => text!(alloc; round.count, Outcome(round.last)),
    }
}

/// The answers of a run. If it ended before an event, the refusal and its index come first.
pub(crate) fn show_run(alloc: Global, ended: Result<Vec<ocp_core::Answer>, RunFault>) -> Answer {
    match ended {
        Ok(answers) => {
            let texts = show_all(alloc, &answers)?;
            text!(alloc; "Ok:", texts.as_str())
        }
        Err(fault) => show_fault(alloc, &fault),
    }
}

fn show_fault(alloc: Global, fault: &RunFault) -> Answer {
    let texts = show_all(alloc, &fault.answers)?;
    Ok(format!(in alloc; "{:?} {}: {texts}", fault.refusal, fault.index)?)
}

impl Shown for ocp_core::Answer {
    fn show(&self, alloc: Global) -> Answer {
        match self {
            ocp_core::Answer::Requested(answer) => show_reports(alloc, answer),
            ocp_core::Answer::Stepped(outcome) => text_of(alloc, Outcome(*outcome)),
            ocp_core::Answer::Commanded(done) => show_done(alloc, *done),
            ocp_core::Answer::Written(done) => show_done(alloc, *done),
        }
    }
}

impl Shown for Entry {
    /// An entry with its mark.
    fn show(&self, alloc: Global) -> Answer {
        variant! { alloc, self, Entry;
            Request { by, time, octets, mark } =>
                *by, *time, Octets(octets.as_slice()), Packets(mark);
            Steps { by, id, count, mark } => *by, *id, *count, Outcome(*mark);
            SetBreak { by, id, place } => *by, *id, *place;
            ClearBreak { by, id, place } => *by, *id, *place;
            Trace { by, id, on } => *by, *id, *on;
            Drain { by, time, mark } => *by, *time, Packets(mark);
            PutWord { by, index, value } => *by, *index, *value;
        }
    }
}
