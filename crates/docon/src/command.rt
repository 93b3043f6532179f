//! The commands as clap knows them, and how it reads their words.

ghost use Rattle.std.specs.Prelude.{◌≡◌, IfOk, map, option_map, true};
ghost use Rattle.clap.specs.Words.{app_of, found_of, first_of, is_simple_and_free, kind_of, rows_of};
ghost use Rattle.docon.specs.Words.{plain_app, run_app};
ghost use Rattle.docon.specs.Matches.{GivesMatches, failed};

use crate::request::{BadWords, WordsFail};
use clap::error::ErrorKind;
use clap::{Arg, ArgMatches, Command, Error};
use dc_text::NoMemory;
use std::alloc::Global;

/// `run [--turns=T] FILE`
pub(crate) fn run_command<'a>(alloc: Global) -> Result<Command<'a>, NoMemory>
    ensures { IfOk result (λ command. app_of command ≡ run_app) }
{
    let turns = Arg::new(alloc, "turns").long("turns");
    let file = Arg::new(alloc, "file").required(true);
    let command = Command::new(alloc, "run").arg(turns)?.arg(file)?;
    Ok(command)
}

/// `NAME FILE`
pub(crate) fn plain_command<'a>(alloc: Global, name: &'a str) -> Result<Command<'a>, NoMemory>
    ensures { IfOk result (λ command. app_of command ≡ plain_app name.entry.now) }
{
    let file = Arg::new(alloc, "file").required(true);
    let command = Command::new(alloc, name).arg(file)?;
    Ok(command)
}

fn failed(error: Error) -> WordsFail
    ensures { result ≡ failed (kind_of error) }
{
    if error.kind() == ErrorKind::OutOfMemory {
        WordsFail::NoMemory
    } else {
        WordsFail::Refused(BadWords::Command)
    }
}

/// What clap finds in the words of a command, of which the first is the command itself.
pub(crate) fn matches_in<'a>(
    command: Command<'a>,
    words: &'a [&'a str],
) -> Result<ArgMatches<'a>, WordsFail>
    requires { is_simple_and_free (app_of command) ≡ true }
    ensures { GivesMatches (app_of command.entry) (map (λ word. word.now) words.entry.now) result }
{
    match command.try_get_matches_from(words) {
        Ok(matches) => Ok(matches),
        Err(error) => Err(failed(error)),
    }
}

/// The value that was found for an argument.
pub(crate) fn value<'a>(matches: &ArgMatches<'a>, name: &str) -> Option<&'a str>
    ensures { option_map (λ text. text.now) result
        ≡ first_of name.now (rows_of (found_of matches.now)) }
{
    matches.get_str(name)
}
