ghost use Rattle.std.specs.Prelude.{◌≡◌, map, string_bytes};
ghost use Rattle.cli_words.specs.Settings.{Gives, reading};
ghost use Rattle.survey.specs.Words.{texts};
ghost use Rattle.survey_check.specs.Words.{is_check, is_alone, is_trial, wanted_in, check_of, stored_of, trial_of};
ghost use Rattle.survey_check.specs.computed.Endings.{wanting, making};

use cli_words::{Command, Settings, WordsFault, settings};
use std::alloc::Global;
use survey::Asked;

/// What a check over a database is asked for.
#[derive(Drop)]
pub struct Request {
    pub asked: Asked,
    /// The name of the database, empty where it stands in memory.
    pub path: String,
    pub workers: u32,
}

/// A source that is made, by its number and how many functions it has.
#[derive(Clone, Copy)]
pub(crate) struct Trial {
    pub(crate) number: u32,
    pub(crate) functions: u32,
}

fn request_of(settings: Settings) -> Request
    ensures { wanting result ≡ wanted_in (reading settings) }
{
    Request {
        asked: Asked {
            entry: settings.entry,
            rounds: settings.rounds,
            files: settings.files,
        },
        path: settings.path,
        workers: settings.workers,
    }
}

fn is_check(command: Command) -> bool
    ensures { result ≡ is_check command }
{
    matches!(command, Command::Check)
}

fn is_alone(command: Command) -> bool
    ensures { result ≡ is_alone command }
{
    matches!(command, Command::Alone)
}

fn is_trial(command: Command) -> bool
    ensures { result ≡ is_trial command }
{
    matches!(command, Command::Trial)
}

/// A check by workers.
pub fn check_of(alloc: Global, words: &[String]) -> Result<Request, WordsFault>
    ensures { Gives wanting result (check_of (texts words.now)) }
{
    let settings = settings(alloc, words)?;
    if !is_check(settings.command) {
        return Err(WordsFault::Bad);
    }
    Ok(request_of(settings))
}

/// A check on one thread over a database.
pub(crate) fn stored_of(alloc: Global, words: &[String]) -> Result<Request, WordsFault>
    ensures { Gives wanting result (stored_of (texts words.now)) }
{
    let settings = settings(alloc, words)?;
    if !(is_alone(settings.command) && settings.book.is_none()) {
        return Err(WordsFault::Bad);
    }
    Ok(request_of(settings))
}

/// A check of a source that is made.
pub(crate) fn trial_of(alloc: Global, words: &[String]) -> Result<Trial, WordsFault>
    ensures { Gives making result (trial_of (texts words.now)) }
{
    let settings = settings(alloc, words)?;
    if !is_trial(settings.command) {
        return Err(WordsFault::Bad);
    }
    Ok(Trial {
        number: settings.number,
        functions: settings.functions,
    })
}
