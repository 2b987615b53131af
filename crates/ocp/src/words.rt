//! The words of the command line.

ghost use Rattle.std.specs.Process.{exit_status};
ghost use Rattle.ocp.specs.Status.{IsWordsStatus};

use crate::status::machine_fault;
use ocp_words::{Job, WordsFault, not_utf8, read_given};
use std::alloc::Global;
use std::process::ExitCode;
use std::rt::Env;
use std::{env, io};

/// The exit status of a mistake in the words.
const WORDS_FAULT: u8 = 2;

/// The text about words that are refused.
const WANTED_WORDS: &str = "The commands are run, asm, list and check. run takes --apid 0 to 2046, \
                            --pool 1 to 256, --journal 1 to 1000000 and --profile 1 or 2, asm \
                            --profile 1 or 2, check --pool 1 to 256 and --profile 1 or 2; numbers \
                            are in decimal digits.";

/// The job that the words after the program's name ask for.
pub fn job_of_words<R: Env + AllocGlobal>(rt: &R) -> Result<Job, WordsFault> {
    let alloc = rt.alloc();
    let given: Vec<String> = match env::args(rt) {
        Ok(given) => given
            .skip(1)
            .collect(alloc)
            .map_err(|_| WordsFault::Memory)?,
        Err(error) if error.kind() == io::ErrorKind::OutOfMemory => return Err(WordsFault::Memory),
        Err(_) => return Err(not_utf8(alloc)),
    };
    read_given(alloc, &given)
}

/// Prints the text that the words ask for, or on standard error what is wrong with them, and
/// returns the exit status: 2 for a mistake, 3 if memory was refused or the text was not
/// printed, else 0.
pub fn refuse_words<R: Print + Eprint>(rt: &R, fault: WordsFault) -> ExitCode
    ensures status { IsWordsStatus fault (exit_status result) }
{
    let error = match fault {
        WordsFault::Memory => return machine_fault(rt, "Memory"),
        WordsFault::Usage(error) => error,
    };
    let printed = error.print(rt);
    if error.use_stderr() {
        let _ = eprintln!(rt; "\n{WANTED_WORDS}");
        return ExitCode::from(WORDS_FAULT);
    }
    match printed {
        Ok(()) => ExitCode::SUCCESS,
        Err(_) => machine_fault(rt, "Write"),
    }
}
