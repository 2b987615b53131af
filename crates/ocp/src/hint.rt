//! Hints about an input that is refused.

use crate::kept::{Keeps, Text};
use ocp_hints::{hint_on_image, hint_on_script, hint_on_text};
use ocp_ports::{ConsoleFault, MAX_INPUT};
use ocp_words::Job;

/// How much of its input a job's hints need.
pub(crate) fn keeps_of(job: Job) -> Keeps {
    match job {
        Job::Run(_) => Keeps::LastLines,
        Job::Assemble(_) | Job::List => Keeps::Whole,
        Job::Check(_) => Keeps::Nothing,
    }
}

/// Prints on standard error what was unexpected in an input, if that is known.
pub(crate) fn say_hint<E: Eprint + AllocGlobal>(
    rt: &E,
    job: Job,
    kept: &Text,
    fault: Option<&ConsoleFault>,
) {
    let Some(text) = kept.octets() else {
        return;
    };
    let alloc = rt.alloc();
    let hint = match (job, fault) {
        (Job::Run(settings), Some(fault)) => {
            hint_on_script(alloc, settings.profile, fault, text, kept.before())
        }
        (Job::Assemble(_) | Job::List, None) if text.len() > MAX_INPUT => {
            let _ = eprintln!(rt; "the input: an input has at most {MAX_INPUT} octets");
            None
        }
        (Job::Assemble(profile), None) => hint_on_text(alloc, profile, text),
        (Job::List, None) => hint_on_image(alloc, text),
        _ => None,
    };
    if let Some(hint) = hint {
        let _ = eprint!(rt; "{hint}");
    }
}
