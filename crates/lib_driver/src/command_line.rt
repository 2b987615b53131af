//! Calls of ocp_words.

use driver_lines::*;
use ocp_words::{Job, Settings, WordsFault, read_words};

/// The answer of a call.
pub(crate) fn answer(alloc: Global, words: &[&str]) -> Answer {
    calls! { alloc, words;
        "ocp_words.read_words" [words] -> "`Run` with the profile and three numbers, `Assemble` with the profile, "
                "`Check` with the profile and the number of words, `List` or `Usage`" => read(alloc, words);
    }
}

fn read(alloc: Global, words: &[&str]) -> Answer {
    match read_words(alloc, words) {
        Ok(job) => show(alloc, job),
        Err(WordsFault::Usage(_)) => text_of(alloc, "Usage"),
        Err(WordsFault::Memory) => Err(Fault::Memory),
    }
}

fn show(alloc: Global, job: Job) -> Answer {
    match job {
        Job::Run(
            Settings {
                profile,
                apid,
                pool_words,
                capacity,
            },
        ) => text!(alloc; "Run", profile.number(), apid, pool_words, capacity),
        Job::Assemble(profile) => text!(alloc; "Assemble", profile.number()),
        Job::Check(settings) => {
            text!(alloc; "Check", settings.profile.number(), settings.pool_words)
        }
        Job::List => text_of(alloc, "List"),
    }
}
