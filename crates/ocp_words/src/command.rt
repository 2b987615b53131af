//! The program's commands.

ghost use Rattle.std.specs.Prelude.{◌≡◌, IfOk, codes, false, fold};
ghost use Rattle.clap.specs.Words.{App, app_of, rule_of, new_app, with_rule, with_subcommand};
ghost use Rattle.clap.specs.declared.builder.command.Command.TheViews.{out-Command};
ghost use Rattle.ocp_words.specs.Words.{ocp, program, asm, check, run, number_option};

use crate::help;
use clap::builder::ValueParser;
use clap::{Arg, Command};
use ocp_lines::SCRIPT_HELP;
use ocp_profile::{MAX_APID, MAX_CAPACITY, MAX_POOL_WORDS};
use std::alloc::{AllocError, Global};

/// A command with no options, and its help text.
fn plain_command<'a>(
    alloc: Global,
    name: &'a str,
    usage: &'a str,
    about: &'a str,
    more: &'a str,
) -> Command<'a>
    ensures app { app_of result ≡ new_app name.entry.now }
    ensures global { (out-Command result).has_globals ≡ false }
{
    Command::new(alloc, name)
        .override_usage(usage)
        .about(about)
        .after_help(more)
}

/// An option that takes a number: its name, its default, its least and its greatest number, and its
/// help.
#[derive(Clone, Copy)]
struct Numbered {
    name: &'static str,
    default: &'static str,
    range: (u32, u32),
    help: &'static str,
}

const PROFILE: Numbered = Numbered {
    name: "profile",
    default: "1",
    range: (1, 2),
    help: "The profile of procedures and requests, 1 or 2",
};

const APID: Numbered = Numbered {
    name: "apid",
    default: "291",
    range: (0, MAX_APID as u32),
    help: "Application process identifier of the engine, 0 to 2046",
};

const POOL: Numbered = Numbered {
    name: "pool",
    default: "16",
    range: (1, MAX_POOL_WORDS as u32),
    help: "Number of pool words, 1 to 256",
};

const JOURNAL: Numbered = Numbered {
    name: "journal",
    default: "100000",
    range: (1, MAX_CAPACITY),
    help: "Room of the journal, 1 to 1000000 entries",
};

/// The option of a number.
fn option<'a>(alloc: Global, number: Numbered) -> Arg<'a>
    ensures rule { rule_of result ≡
        number_option number.name.now number.default.now number.range.0 number.range.1 }
    ensures global { result.global ≡ false }
{
    let (low, high) = number.range;
    Arg::new(alloc, number.name)
        .long(number.name)
        .value_parser(ValueParser::signed(i64::from(low), i64::from(high)))
        .default_value(number.default)
        .help(number.help)
}

/// The command with these options more.
fn with_options<'a>(
    alloc: Global,
    plain: Command<'a>,
    options: &[Numbered],
) -> Result<Command<'a>, AllocError>
    ensures app { IfOk result (λ c. app_of c ≡ fold (λ app number. with_rule app
        (number_option number.name.now number.default.now number.range.0 number.range.1))
        (app_of plain.entry) options.now) }
    ensures global { (out-Command plain.entry).has_globals ≡ false →
        IfOk result (λ c. (out-Command c).has_globals ≡ false) }
{
    let mut command = plain;
    for number in options {
        command = command.arg(option(alloc, *number))?;
    }
    Ok(command)
}

/// The command `asm` and its option.
fn asm_command<'a>(alloc: Global) -> Result<Command<'a>, AllocError>
    ensures app { IfOk result (λ c. app_of c ≡ asm) }
    ensures global { IfOk result (λ c. (out-Command c).has_globals ≡ false) }
{
    let plain = plain_command(alloc, "asm", help::ASM_USAGE, help::ASM, help::ASM_HELP);
    with_options(alloc, plain, &[PROFILE])
}

/// The command `check` and its options.
fn check_command<'a>(alloc: Global) -> Result<Command<'a>, AllocError>
    ensures app { IfOk result (λ c. app_of c ≡ check) }
    ensures global { IfOk result (λ c. (out-Command c).has_globals ≡ false) }
{
    let (usage, about, more) = (help::CHECK_USAGE, help::CHECK, help::CHECK_HELP);
    let plain = plain_command(alloc, "check", usage, about, more);
    with_options(alloc, plain, &[PROFILE, POOL])
}

/// The command `run` and its options.
fn run_command<'a>(alloc: Global) -> Result<Command<'a>, AllocError>
    ensures app { IfOk result (λ c. app_of c ≡ run) }
    ensures global { IfOk result (λ c. (out-Command c).has_globals ≡ false) }
{
    let plain = plain_command(alloc, "run", help::RUN_USAGE, help::RUN, SCRIPT_HELP);
    with_options(alloc, plain, &[PROFILE, APID, POOL, JOURNAL])
}

/// The program's command without its subcommands.
fn program_command<'a>(alloc: Global) -> Result<Command<'a>, AllocError>
    ensures { IfOk result (λ c. app_of c ≡ program) }
{
    plain_command(alloc, "ocp", help::OCP_USAGE, help::OCP, help::OCP_HELP)
        .version(help::VERSION)
        .no_binary_name(true)
        .bin_name("ocp")
}

/// The command `list`, which has no options.
fn list_command<'a>(alloc: Global) -> Command<'a>
    ensures app { app_of result ≡ new_app (codes "list") }
    ensures global { (out-Command result).has_globals ≡ false }
{
    plain_command(alloc, "list", help::LIST_USAGE, help::LIST, help::LIST_HELP)
}

/// A command with one subcommand more, if there was memory for both.
fn with_subcommand<'a>(
    command: Result<Command<'a>, AllocError>,
    subcommand: Result<Command<'a>, AllocError>,
) -> Result<Command<'a>, AllocError>
    ensures { (app sub : App) → IfOk command.entry (λ c. app_of c ≡ app) →
        IfOk subcommand.entry (λ c. app_of c ≡ sub) →
        IfOk subcommand.entry (λ c. (out-Command c).has_globals ≡ false) →
        IfOk result (λ c. app_of c ≡ with_subcommand app sub.top) }
{
    command?.subcommand(subcommand?)
}

/// The program's commands and their options.
pub(crate) fn ocp_command<'a>(alloc: Global) -> Result<Command<'a>, AllocError>
    ensures { IfOk result (λ c. app_of c ≡ ocp) }
{
    let program = with_subcommand(program_command(alloc), asm_command(alloc));
    let program = with_subcommand(program, check_command(alloc));
    let program = with_subcommand(program, Ok(list_command(alloc)));
    with_subcommand(program, run_command(alloc))
}
