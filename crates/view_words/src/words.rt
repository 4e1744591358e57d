ghost use Rattle.std.specs.Prelude.{◌≡◌, Some, map, option_map, option_and_then, string_bytes};
ghost use Rattle.clap.specs.Words.{found_of, kind_of, rows_of, subcommand_rows_of};
ghost use Rattle.view_words.specs.Wanted.{Gives, reading, read_command, view_of, wanted_in, wanted_of};

use crate::command::view_command;
use crate::fields::{files_in, text_of};
use crate::wanted::{View, Wanted};
use clap::error::ErrorKind;
use clap::{ArgMatches, Error};
use std::alloc::{AllocError, AllocFailed, Global};

/// Why the words ask for nothing.
#[derive(Clone, Copy)]
pub enum WordsFault {
    /// The words are not accepted.
    Bad,
    NoMemory,
}

impl From<AllocError> for WordsFault {
    ghost use Rattle.std.specs.Prelude.{◌≡◌};
    ghost use Rattle.view_words.specs.declared.words.WordsFault.TheVariants as faults;

    ghost from_gives = { λ _ e. e ≡ faults.NoMemory };

    fn from(_error: AllocError) -> WordsFault {
        WordsFault::NoMemory
    }
}

impl<T: Drop> From<AllocFailed<T>> for WordsFault {
    ghost use Rattle.std.specs.Prelude.{◌≡◌};
    ghost use Rattle.view_words.specs.declared.words.WordsFault.TheVariants as faults;

    ghost from_gives = { λ _ e. e ≡ faults.NoMemory };

    fn from(_error: AllocFailed<T>) -> WordsFault {
        WordsFault::NoMemory
    }
}

/// Reads the words of a command line, of which the first is the program's name.
pub fn read_words(alloc: Global, words: &[String]) -> Result<Wanted, WordsFault>
    ensures answer { Gives reading result (wanted_of (map string_bytes words.now)) }
{
    match view_command(alloc)?.try_get_matches_from(words) {
        Ok(matches) => wanted_at(alloc, &matches),
        Err(error) => Err(refusal_of(&error)),
    }
}

fn refusal_of(error: &Error) -> WordsFault
    ensures { kind_of error.now ≡ ErrorKind.OutOfMemory → result ≡ WordsFault.NoMemory }
{
    match error.kind() {
        ErrorKind::OutOfMemory => WordsFault::NoMemory,
        _ => WordsFault::Bad,
    }
}

fn wanted_at(alloc: Global, matches: &ArgMatches) -> Result<Wanted, WordsFault>
    ensures { Gives reading result (option_and_then read_command (subcommand_rows_of matches.now)) }
{
    let Some((name, matches)) = entered(matches) else {
        return Err(WordsFault::Bad);
    };
    let Some(view) = view_of(name) else {
        return Err(WordsFault::Bad);
    };
    wanted_in(alloc, view, matches)
}

// The subcommand that was used.
fn entered<'m, 'a>(matches: &'m ArgMatches<'a>) -> Option<(&'a str, &'m ArgMatches<'a>)>
    ensures { option_map (λ p. (p.0.now, rows_of (found_of p.1.now))) result ≡ subcommand_rows_of matches.now }
{
    matches.subcommand()
}

fn view_of(name: &str) -> Option<View>
    ensures { result ≡ view_of name.now }
{
    match name {
        "lines" => Some(View::Lines),
        "sarif" => Some(View::Sarif),
        "html" => Some(View::Html),
        "diff" => Some(View::Diff),
        _ => None,
    }
}

#[tactic(auto, unfolding(crate::specs::Wanted::wanted_in))]
fn wanted_in(alloc: Global, view: View, matches: &ArgMatches) -> Result<Wanted, WordsFault>
    ensures { Gives reading result (Some (wanted_in view (rows_of (found_of matches.now)))) }
{
    let files = files_in(alloc, matches)?;
    Ok(Wanted {
        view,
        report: String::from_str(alloc, text_of(matches, "REPORT").unwrap_or(""))?,
        new_report: String::from_str(alloc, text_of(matches, "NEW").unwrap_or(""))?,
        files,
        notes: String::from_str(alloc, text_of(matches, "notes").unwrap_or(""))?,
        folder: String::from_str(alloc, text_of(matches, "sources").unwrap_or(""))?,
        old_folder: String::from_str(alloc, text_of(matches, "old-sources").unwrap_or(""))?,
    })
}
