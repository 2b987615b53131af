//! A job from its input to its output.

ghost use Rattle.std.specs.Prelude.{◌≡◌, ◌<◌, ◌^◌, ◌-◌, IfSome};
ghost use Rattle.std.specs.Process.{exit_status};
ghost use Rattle.ocp_ports.specs.Outcomes.{TellsReads, TellsWrites};
ghost use Rattle.ocp.specs.Performing.{Answers, Leaves, Performs};

use crate::hint::say_hint;
use crate::kept::KeptSource;
use crate::status::status_of;
use ocp_commands::{asm, check, list};
use ocp_console::run;
use ocp_core::Engine;
use ocp_ports::{ConsoleFault, Crew, Sink, Source};
use ocp_words::Job;
use std::alloc::Global;
use std::process::ExitCode;

/// The answer of a job's command: whether it did what it was asked for, or what failed.
fn answer_of<R: Source, W: Sink, C: Crew<Engine>>(
    alloc: Global,
    crew: &C,
    job: Job,
    reader: &mut R,
    writer: &mut W,
) -> Result<bool, ConsoleFault>
    requires ready { C.ready crew.now }
    requires reads { R.failed_reads reader.old < 2 ^ 64 - 1 }
    requires writes { W.failed_writes writer.old < 2 ^ 64 - 1 }
    ensures answers { IfSome (R.remaining reader.old)
        (λ input. Answers (C.answers crew.now) job input
        (W.contents writer.old) (W.contents writer.new) result) }
    ensures left { IfSome (R.remaining reader.old)
        (λ input. Leaves job input (R.remaining reader.new)) }
    ensures read { TellsReads (R.failed_reads reader.old) (R.failed_reads reader.new) result }
    ensures write { TellsWrites (W.failed_writes writer.old) (W.failed_writes writer.new) result }
{
    match job {
        Job::Assemble(profile) => asm(alloc, profile, reader, writer),
        Job::Check(settings) => check(alloc, settings.profile, settings.pool_words, reader, writer),
        Job::List => list(alloc, reader, writer),
        Job::Run(settings) => match run(alloc, settings, crew, reader, writer) {
            Ok(()) => Ok(true),
            Err(fault) => Err(fault),
        },
    }
}

/// Does a job, and returns the exit status: 0 if its command did what it was asked for; 1 if the
/// input has a fault, or `check` does not show all, with a hint on standard error if one is known;
/// and 3 if a device or the workers failed or memory was refused, with its name on standard error.
/// The text on standard error changes neither what is written nor the status.
pub fn perform<E: Eprint + AllocGlobal, R: Source + Drop, W: Sink, C: Crew<Engine>>(
    rt: &E,
    crew: &C,
    job: Job,
    reader: &mut KeptSource<R>,
    writer: &mut W,
) -> ExitCode
    requires ready { C.ready crew.now }
    requires reads { R.failed_reads reader.old.inner < 2 ^ 64 - 1 }
    requires writes { W.failed_writes writer.old < 2 ^ 64 - 1 }
    ensures performs { IfSome (R.remaining reader.old.inner) (λ input.
        Performs (C.answers crew.now) job input
        (W.contents writer.old) (W.contents writer.new)
        (R.failed_reads reader.old.inner) (R.failed_reads reader.new.inner)
        (W.failed_writes writer.old) (W.failed_writes writer.new)
        (exit_status result)) }
    ensures left { IfSome (R.remaining reader.old.inner)
        (λ input. Leaves job input (R.remaining reader.new.inner)) }
    ensures read { R.failed_reads reader.old.inner < R.failed_reads reader.new.inner →
        exit_status result ≡ 3 }
    ensures write { W.failed_writes writer.old < W.failed_writes writer.new →
        exit_status result ≡ 3 }
{
    let answer = answer_of(rt.alloc(), crew, job, reader, writer);
    match &answer {
        Ok(true) => {}
        Ok(false) => say_hint(rt, job, &reader.text, None),
        Err(fault) => say_hint(rt, job, &reader.text, Some(fault)),
    }
    status_of(rt, answer)
}
