//! Splitting the words of options, by `clap`.
ghost use Rattle.std.specs.Prelude.{◌≡◌, true, false, [], map, option_map, take, IfOk};
ghost use Rattle.std.specs.List.{list_all};
ghost use Rattle.clap.specs.Words.{app_of, rule_of};
ghost use Rattle.zy_command_line.specs.Grammar.{Options, is_plain, options_of, value_of};
ghost use Rattle.zy_command_line.specs.Splitting.{option_rule, app_with, app_named, HasOptions, SplitsTo};

use clap::error::ErrorKind;
use clap::{Arg, ArgAction, ArgMatches, Command};
use std::alloc::Global;
use zy_base::NoMemory;

/// Splits the words into options with these names; `None` if they are not such options.
pub(crate) fn split<'a>(
    alloc: Global,
    command: &'a str,
    names: &'a [&'a str],
    words: &'a [&'a str],
) -> Result<Option<ArgMatches<'a>>, NoMemory>
    requires plain { list_all is_plain (map (λ w. w.now) words.now) ≡ true }
    ensures value { IfOk result (SplitsTo (options_of (map (λ n. n.now) names.now) (map (λ w. w.now) words.now))) }
{
    let command = command_with(alloc, command, names)?;
    match command.try_get_matches_from(words) {
        Ok(matches) => Ok(Some(matches)),
        Err(e) => match e.kind() {
            ErrorKind::OutOfMemory => Err(NoMemory),
            _ => Ok(None),
        },
    }
}

// Makes a command with these options, each with one value.
fn command_with<'a>(
    alloc: Global,
    name: &'a str,
    names: &'a [&'a str],
) -> Result<Command<'a>, NoMemory>
    ensures value { IfOk result (λ c. app_of c ≡ app_named name.now (map (λ n. n.now) names.now)) }
{
    let mut command = plain_command(alloc, name);
    for option in names {
        command = match command.arg(option_with(alloc, option)) {
            Ok(command) => command,
            Err(_) => return Err(NoMemory),
        };
    }
    Ok(command)
}

// Makes a command without options, even for help or a version. It expects no word for its own name.
fn plain_command<'a>(alloc: Global, name: &'a str) -> Command<'a>
    ensures value { app_of result ≡ app_with name.now [] }
{
    Command::new(alloc, name)
        .no_binary_name(true)
        .disable_help_flag(true)
        .disable_version_flag(true)
}

// Makes an option with one value.
fn option_with<'a>(alloc: Global, name: &'a str) -> Arg<'a>
    ensures value { rule_of result ≡ option_rule name.now }
    ensures local { result.global ≡ false }
{
    Arg::new(alloc, name).long(name).action(ArgAction::Set)
}

/// Returns the value of an option, if it was given.
#[tactic(auto, using(crate::proofs::Split::value_found))]
pub(crate) fn value<'a>(matches: &ArgMatches<'a>, name: &str) -> Option<&'a str>
    ensures value { (options : Options) → HasOptions options matches.now
        → option_map (λ s. s.now) result ≡ value_of name.now options }
{
    matches.get_str(name)
}
