ghost use Rattle.std.specs.Prelude.{◌≡◌, true, false, IfOk, codes};
ghost use Rattle.clap.specs.Words.{rule_of, app_of, with_rule, with_subcommand, new_app};
ghost use Rattle.cli_words.specs.Commands.{text_option, text_word, file_words, check_command, alone_command, trial_command, run_command, audit_command, bare_command, surveyor_command};

use clap::{Arg, ArgAction, Command};
use std::alloc::{AllocError, Global};

/// The command line as `clap` reads it: all values are text, and help and version are not offered.
pub(crate) fn surveyor_command<'a>(alloc: Global) -> Result<Command<'a>, AllocError>
    ensures { IfOk result (λ c. app_of c ≡ surveyor_command) }
{
    let with_check = with_command(bare_command(alloc), check_command(alloc)?)?;
    let with_alone = with_command(with_check, alone_command(alloc)?)?;
    let with_trial = with_command(with_alone, trial_command(alloc)?)?;
    let with_run = with_command(with_trial, run_command(alloc)?)?;
    with_command(with_run, audit_command(alloc)?)
}

fn bare_command<'a>(alloc: Global) -> Command<'a>
    ensures { app_of result ≡ bare_command }
{
    Command::new(alloc, "surveyor")
        .disable_help_flag(true)
        .disable_help_subcommand(true)
        .subcommand_required(true)
}

fn with_command<'a>(top: Command<'a>, command: Command<'a>) -> Result<Command<'a>, AllocError>
    requires plain { (app_of command).top.is_plain ≡ true }
    ensures { IfOk result (λ c. app_of c ≡ with_subcommand (app_of top.entry) (app_of command.entry).top) }
{
    top.subcommand(command)
}

fn check_command<'a>(alloc: Global) -> Result<Command<'a>, AllocError>
    ensures { IfOk result (λ c. app_of c ≡ check_command) }
{
    entry_command(alloc, "check")?
        .arg(text_option(alloc, "rounds"))?
        .arg(text_option(alloc, "workers"))?
        .arg(text_option(alloc, "db"))?
        .arg(file_words(alloc))
}

fn alone_command<'a>(alloc: Global) -> Result<Command<'a>, AllocError>
    ensures { IfOk result (λ c. app_of c ≡ alone_command) }
{
    entry_command(alloc, "alone")?
        .arg(text_option(alloc, "rounds"))?
        .arg(text_option(alloc, "db"))?
        .arg(text_option(alloc, "book"))?
        .arg(file_words(alloc))
}

fn trial_command<'a>(alloc: Global) -> Result<Command<'a>, AllocError>
    ensures { IfOk result (λ c. app_of c ≡ trial_command) }
{
    Command::new(alloc, "trial")
        .arg(text_word(alloc, "NUMBER"))?
        .arg(text_word(alloc, "FUNCTIONS"))
}

fn run_command<'a>(alloc: Global) -> Result<Command<'a>, AllocError>
    ensures { IfOk result (λ c. app_of c ≡ run_command) }
{
    entry_command(alloc, "run")?
        .arg(text_option(alloc, "bound"))?
        .arg(text_option(alloc, "calls"))?
        .arg(text_option(alloc, "words"))?
        .arg(file_words(alloc))
}

fn audit_command<'a>(alloc: Global) -> Result<Command<'a>, AllocError>
    ensures { IfOk result (λ c. app_of c ≡ audit_command) }
{
    entry_command(alloc, "audit")?
        .arg(text_option(alloc, "rounds"))?
        .arg(text_option(alloc, "db").required(true))?
        .arg(file_words(alloc))
}

// A command with entry functions.
fn entry_command<'a>(alloc: Global, name: &'a str) -> Result<Command<'a>, AllocError>
    ensures { IfOk result (λ c. app_of c ≡ with_rule (new_app name.entry.now) (text_option (codes "entry"))) }
{
    Command::new(alloc, name).arg(text_option(alloc, "entry"))
}

// --NAME VALUE
fn text_option<'a>(alloc: Global, name: &'a str) -> Arg<'a>
    ensures rule { rule_of result ≡ text_option name.entry.now }
    ensures local { result.global ≡ false }
{
    Arg::new(alloc, name).long(name).action(ArgAction::Set)
}

fn text_word<'a>(alloc: Global, name: &'a str) -> Arg<'a>
    ensures rule { rule_of result ≡ text_word name.entry.now }
    ensures local { result.global ≡ false }
{
    Arg::new(alloc, name).required(true).action(ArgAction::Set)
}

// FILE...
fn file_words<'a>(alloc: Global) -> Arg<'a>
    ensures rule { rule_of result ≡ file_words }
    ensures local { result.global ≡ false }
{
    Arg::new(alloc, "FILE")
        .required(true)
        .action(ArgAction::Append)
        .num_args(1..)
}
