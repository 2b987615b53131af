//! Reading the words of a command line.

ghost use Rattle.std.specs.Prelude.{◌≡◌, IfOk, IfSome, IsOk, [], map, string_bytes, ◌≢◌};
ghost use Rattle.clap.specs.Words.{app_of, subcommand_of, subcommand_rows_of, rows_of, found_of};
ghost use Rattle.clap.specs.declared.error.kind.ErrorKind.TheVariants.{InvalidValue};
ghost use Rattle.ocp_words.specs.Words.{ocp};
ghost use Rattle.ocp_words.specs.Jobs.{HasProfile, HasSettings, HasCheckSettings, HasDefaults, IsJob, IsMistake};

use crate::command::ocp_command;
use crate::job::{CheckSettings, Job, Settings, WordsFault};
use clap::error::ErrorKind;
use clap::{ArgMatches, Command, Error};
use ocp_profile::Profile;
use std::alloc::Global;

/// The settings of a run with no words.
const DEFAULTS: Settings = Settings {
    profile: Profile::One,
    apid: 291,
    pool_words: 16,
    capacity: 100_000,
};

/// The profile in the matches of a command, if its number is there.
fn profile_of(matches: &ArgMatches<'_>) -> Option<Profile>
    ensures { IfSome result (HasProfile (rows_of (found_of matches.now))) }
{
    match matches.get_one::<u8>("profile")? {
        1 => Some(Profile::One),
        2 => Some(Profile::Two),
        _ => None,
    }
}

/// The settings in the matches of `run`, if they are there and each in its range.
fn settings_of(matches: &ArgMatches<'_>) -> Option<Settings>
    ensures { IfSome result (HasSettings (rows_of (found_of matches.now))) }
{
    let profile = profile_of(matches)?;
    let apid = matches.get_one::<u16>("apid")?;
    let pool_words = matches.get_one::<u16>("pool")?;
    let capacity = matches.get_one::<u32>("journal")?;
    Settings::new(profile, apid, pool_words, capacity)
}

/// The settings in the matches of `check`, if they are there.
fn check_settings_of(matches: &ArgMatches<'_>) -> Option<CheckSettings>
    ensures { IfSome result (HasCheckSettings (rows_of (found_of matches.now))) }
{
    let profile = profile_of(matches)?;
    let pool_words = matches.get_one::<u16>("pool")?;
    Some(CheckSettings {
        profile,
        pool_words,
    })
}

/// The job of the subcommand and the numbers in the matches of the program; without a subcommand it
/// is `run` with the defaults. `None` if a number is not there, which `clap` does not let happen.
fn job_of(matches: &ArgMatches<'_>) -> Option<Job>
    ensures { IfSome result (IsJob (subcommand_rows_of matches.now)) }
{
    match matches.subcommand() {
        None => Some(Job::Run(DEFAULTS)),
        Some(("asm", inner)) => Some(Job::Assemble(profile_of(inner)?)),
        Some(("check", inner)) => Some(Job::Check(check_settings_of(inner)?)),
        Some(("list", _)) => Some(Job::List),
        Some(("run", inner)) => Some(Job::Run(settings_of(inner)?)),
        Some(_) => None,
    }
}

/// A mistake as `clap` words it.
fn fault_of_mistake(command: &mut Command<'_>, kind: ErrorKind, text: &str) -> WordsFault
    ensures { (kind ≡ InvalidValue) → IsMistake result }
{
    match command.error(kind, text) {
        Ok(error) => WordsFault::Usage(error),
        Err(_) => WordsFault::Memory,
    }
}

/// The fault that an error of `clap` is.
fn fault_of_error(error: Error) -> WordsFault {
    match error.kind() {
        ErrorKind::OutOfMemory => WordsFault::Memory,
        _ => WordsFault::Usage(error),
    }
}

/// The job that these words ask for, as the program's command reads them.
fn job_of_words<'a>(command: &mut Command<'a>, words: &'a [&'a str]) -> Result<Job, WordsFault>
    requires { app_of command.old ≡ ocp }
    ensures { IfOk result (IsJob (subcommand_of ocp (map (λ word. word.now) words.entry.now))) }
{
    let matches = match command.try_get_matches_from_mut(words) {
        Ok(matches) => matches,
        Err(error) => return Err(fault_of_error(error)),
    };
    match job_of(&matches) {
        Some(job) => Ok(job),
        None => {
            let (kind, text) = (ErrorKind::ValueValidation, "a number is missing");
            Err(fault_of_mistake(command, kind, text))
        }
    }
}

/// The job that the words after the program's name ask for: the subcommand and the numbers that
/// `clap` finds in them, defaults included. With no words it is `run` with the defaults. A number
/// outside its range is `Usage`, as is all that `clap` refuses, and a call for help.
pub fn read_words<'a>(alloc: Global, words: &'a [&'a str]) -> Result<Job, WordsFault>
    ensures job { IfOk result (λ job. words.entry.now ≢ [] →
        IsJob (subcommand_of ocp (map (λ word. word.now) words.entry.now)) job) }
    ensures none { words.entry.now ≡ [] → IfOk result HasDefaults }
    ensures no_fault { words.entry.now ≡ [] → IsOk result }
{
    if words.is_empty() {
        return Ok(Job::Run(DEFAULTS));
    }
    match ocp_command(alloc) {
        Ok(mut command) => job_of_words(&mut command, words),
        Err(_) => Err(WordsFault::Memory),
    }
}

/// The job that given words ask for, as `read_words` reads them.
pub fn read_given(alloc: Global, given: &[String]) -> Result<Job, WordsFault>
    ensures job { IfOk result (λ job. given.now ≢ [] →
        IsJob (subcommand_of ocp (map string_bytes given.now)) job) }
    ensures none { given.now ≡ [] → IfOk result HasDefaults }
    ensures no_fault { given.now ≡ [] → IsOk result }
{
    let mut words = Vec::new(alloc);
    for word in given {
        words.push(word.as_str()).map_err(|_| WordsFault::Memory)?;
    }
    read_words(alloc, words.as_slice())
}

/// The fault of words that are no UTF-8, which `read_words` can't be given, as `clap` words it.
pub fn not_utf8(alloc: Global) -> WordsFault
    ensures { IsMistake result }
{
    let text = "invalid UTF-8 was detected in one or more arguments";
    match ocp_command(alloc) {
        Ok(mut command) => fault_of_mistake(&mut command, ErrorKind::InvalidValue, text),
        Err(_) => WordsFault::Memory,
    }
}
