ghost use Rattle.std.specs.Prelude.{◌≡◌, map, IfOk, option_map, option_and_then, string_bytes};
ghost use Rattle.clap.specs.Words.{found_of, kind_of, rows_of, subcommand_rows_of};
ghost use Rattle.cli_words.specs.Settings.{Gives, reading, settings_in, settings_of, command_of, read_command, numbers_in, same_paths};

use crate::calls::calls_in;
use crate::command::surveyor_command;
use crate::fields::{copy_of, files_in, numbers_in, same_paths, text_of};
use crate::options::{Command, Settings};
use clap::error::ErrorKind;
use clap::{ArgMatches, Error};
use std::alloc::{AllocError, AllocFailed, Global};

/// Why the words give no settings.
#[derive(Clone, Copy, Debug, PartialEq, Eq)]
pub enum WordsFault {
    /// The words are not accepted.
    Bad,
    NoMemory,
}

impl From<AllocError> for WordsFault {
    ghost use Rattle.std.specs.Prelude.{◌≡◌};
    ghost use Rattle.cli_words.specs.declared.words.WordsFault.TheVariants as faults;

    ghost from_gives = { λ _ e. e ≡ faults.NoMemory };

    fn from(_error: AllocError) -> WordsFault {
        WordsFault::NoMemory
    }
}

impl<T: Drop> From<AllocFailed<T>> for WordsFault {
    ghost use Rattle.std.specs.Prelude.{◌≡◌};
    ghost use Rattle.cli_words.specs.declared.words.WordsFault.TheVariants as faults;

    ghost from_gives = { λ _ e. e ≡ faults.NoMemory };

    fn from(_error: AllocFailed<T>) -> WordsFault {
        WordsFault::NoMemory
    }
}

/// Reads the words of a command line, of which the first is the program's name.
pub fn settings(alloc: Global, words: &[String]) -> Result<Settings, WordsFault>
    ensures answer { Gives reading result (settings_of (map string_bytes words.now)) }
{
    match surveyor_command(alloc)?.try_get_matches_from(words) {
        Ok(matches) => settings_at(alloc, &matches),
        Err(error) => Err(refusal_of(&error)),
    }
}

fn refusal_of(error: &Error) -> WordsFault
    ensures { kind_of error.now ≡ ErrorKind.OutOfMemory → result ≡ WordsFault.NoMemory }
{
    match error.kind() {
        ErrorKind::OutOfMemory => WordsFault::NoMemory,
        _ => WordsFault::Bad,
    }
}

fn settings_at(alloc: Global, matches: &ArgMatches) -> Result<Settings, WordsFault>
    ensures { Gives reading result (option_and_then read_command (subcommand_rows_of matches.now)) }
{
    let Some((name, matches)) = entered(matches) else {
        return Err(WordsFault::Bad);
    };
    let Some(command) = command_of(name) else {
        return Err(WordsFault::Bad);
    };
    settings_in(alloc, command, matches)
}

// The subcommand that was used.
fn entered<'m, 'a>(matches: &'m ArgMatches<'a>) -> Option<(&'a str, &'m ArgMatches<'a>)>
    ensures { option_map (λ p. (p.0.now, rows_of (found_of p.1.now))) result ≡ subcommand_rows_of matches.now }
{
    matches.subcommand()
}

fn command_of(name: &str) -> Option<Command>
    ensures { result ≡ command_of name.now }
{
    match name {
        "check" => Some(Command::Check),
        "alone" => Some(Command::Alone),
        "trial" => Some(Command::Trial),
        "run" => Some(Command::Run),
        "audit" => Some(Command::Audit),
        _ => None,
    }
}

#[tactic(auto, unfolding(crate::specs::Settings::settings_in))]
fn settings_in(
    alloc: Global,
    command: Command,
    matches: &ArgMatches,
) -> Result<Settings, WordsFault>
    ensures { Gives reading result (settings_in command (rows_of (found_of matches.now))) }
{
    let Some(numbers) = numbers_in(matches) else {
        return Err(WordsFault::Bad);
    };
    let files = files_in(alloc, matches)?;
    let calls = calls_in(alloc, matches)?;
    if same_paths(matches) {
        return Err(WordsFault::Bad);
    }
    Ok(Settings {
        command,
        entry: String::from_str(alloc, text_of(matches, "entry").unwrap_or("main"))?,
        rounds: numbers.rounds,
        workers: numbers.workers,
        path: String::from_str(alloc, text_of(matches, "db").unwrap_or(""))?,
        files,
        number: numbers.number,
        functions: numbers.functions,
        bound: numbers.bound,
        calls,
        word_path: copy_of(alloc, text_of(matches, "words"))?,
        book: copy_of(alloc, text_of(matches, "book"))?,
    })
}
