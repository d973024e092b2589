//! The command line as clap reads it.

ghost use Rattle.std.specs.Prelude.{◌≡◌, IfOk, map, option_map, string_bytes, false};
ghost use Rattle.clap.specs.Words.{app_of, rule_of, rows_of, found_of, first_of, all_of};
ghost use Rattle.smp_words.specs.{Views.{names_view}, CommandLine.{command_rule, rest_rule, option_rule, with_options}};
ghost use Rattle.smp_words.specs.CommandLine;
ghost use Rattle.smp_words.specs.CommandLine.{plain_app, sampler_app, words_of};

use clap::error::ErrorKind;
use clap::{Arg, ArgAction, ArgMatches, Command};
use smp_frac::NoMemory;
use std::alloc::{AllocError, Global};

fn command_arg<'a>(alloc: Global) -> Arg<'a>
    ensures rule { rule_of result ≡ command_rule }
    ensures local { result.global ≡ false }
{
    Arg::new(alloc, "command").action(ArgAction::Set)
}

fn rest_arg<'a>(alloc: Global) -> Arg<'a>
    ensures rule { rule_of result ≡ rest_rule }
    ensures local { result.global ≡ false }
{
    Arg::new(alloc, "rest")
        .action(ArgAction::Append)
        .num_args(0..=4)
}

fn option_arg<'a>(alloc: Global, name: &'a str) -> Arg<'a>
    ensures rule { rule_of result ≡ option_rule name.entry.now }
    ensures local { result.global ≡ false }
{
    Arg::new(alloc, name).long(name).action(ArgAction::Set)
}

fn plain_command<'a>(alloc: Global) -> Command<'a>
    ensures { app_of result ≡ plain_app }
{
    Command::new(alloc, "sampler")
        .disable_help_flag(true)
        .disable_version_flag(true)
}

fn with_positionals<'a>(alloc: Global, command: Command<'a>) -> Result<Command<'a>, AllocError>
    ensures { IfOk result (λ c. app_of c ≡ CommandLine.with_positionals (app_of command.entry)) }
{
    command.arg(command_arg(alloc))?.arg(rest_arg(alloc))
}

fn add_options<'a>(
    alloc: Global,
    command: Command<'a>,
    names: &[&'a str],
) -> Result<Command<'a>, AllocError>
    ensures { IfOk result (λ c.
        app_of c ≡ with_options (app_of command.entry) (names_view names.now)) }
{
    let mut command = command;
    for name in names {
        command = command.arg(option_arg(alloc, *name))?;
    }
    Ok(command)
}

fn sampler_command<'a>(alloc: Global) -> Result<Command<'a>, AllocError>
    ensures { IfOk result (λ c. app_of c ≡ sampler_app) }
{
    let command = with_positionals(alloc, plain_command(alloc))?;
    add_options(
        alloc,
        command,
        &[
            "design", "frame", "tape", "seed", "log", "sample", "stratum", "to",
        ],
    )
}

/// What clap finds in the words of a command line, the program's name first. `None` where it finds a fault in them.
#[tactic(auto, unfolding(crate::specs::CommandLine::words_of))]
pub(crate) fn matches_from<'a>(
    alloc: Global,
    words: &'a [String],
) -> Result<Option<ArgMatches<'a>>, NoMemory>
    ensures { IfOk result (λ o. option_map (λ m. rows_of (found_of m)) o
        ≡ words_of (map string_bytes words.entry.now)) }
{
    let Ok(command) = sampler_command(alloc) else {
        return Err(NoMemory);
    };
    match command.try_get_matches_from(words) {
        Ok(matches) => Ok(Some(matches)),
        Err(error) => match error.kind() {
            ErrorKind::OutOfMemory => Err(NoMemory),
            _ => Ok(None),
        },
    }
}

/// The value of an argument that takes one.
pub(crate) fn value_of<'a>(matches: &ArgMatches<'a>, name: &str) -> Option<&'a str>
    ensures { option_map (λ s. s.now) result ≡ first_of name.now (rows_of (found_of matches.now)) }
{
    matches.get_str(name)
}

/// The values of an argument that takes several.
pub(crate) fn values_of<'b, 'a>(matches: &'b ArgMatches<'a>, name: &str) -> Option<&'b [&'a str]>
    ensures { option_map (λ s. map (λ v. v.now) s.now) result
        ≡ all_of name.now (rows_of (found_of matches.now)) }
{
    matches.get_strs(name)
}
