ghost use Rattle.std.specs.Prelude.{◌≡◌, true, false, IfOk, codes};
ghost use Rattle.clap.specs.Words.{rule_of, app_of, with_subcommand};
ghost use Rattle.view_words.specs.Commands.{text_option, text_word, file_words, report_command, html_command, diff_command, bare_command, view_command};

use clap::{Arg, ArgAction, Command};
use std::alloc::{AllocError, Global};

/// The command line as `clap` reads it: all values are text, and help and version are not offered.
pub(crate) fn view_command<'a>(alloc: Global) -> Result<Command<'a>, AllocError>
    ensures { IfOk result (λ c. app_of c ≡ view_command) }
{
    let with_lines = with_command(bare_command(alloc), report_command(alloc, "lines")?)?;
    let with_sarif = with_command(with_lines, report_command(alloc, "sarif")?)?;
    let with_html = with_command(with_sarif, html_command(alloc)?)?;
    with_command(with_html, diff_command(alloc)?)
}

fn bare_command<'a>(alloc: Global) -> Command<'a>
    ensures { app_of result ≡ bare_command }
{
    Command::new(alloc, "surveyor-view")
        .disable_help_flag(true)
        .disable_help_subcommand(true)
        .subcommand_required(true)
}

fn with_command<'a>(top: Command<'a>, command: Command<'a>) -> Result<Command<'a>, AllocError>
    requires plain { (app_of command).top.is_plain ≡ true }
    ensures { IfOk result (λ c. app_of c ≡ with_subcommand (app_of top.entry) (app_of command.entry).top) }
{
    top.subcommand(command)
}

/// NAME [--notes FILE] [--sources DIR] REPORT
fn report_command<'a>(alloc: Global, name: &'a str) -> Result<Command<'a>, AllocError>
    ensures { IfOk result (λ c. app_of c ≡ report_command name.entry.now) }
{
    Command::new(alloc, name)
        .arg(text_option(alloc, "notes"))?
        .arg(text_option(alloc, "sources"))?
        .arg(text_word(alloc, "REPORT"))
}

fn html_command<'a>(alloc: Global) -> Result<Command<'a>, AllocError>
    ensures { IfOk result (λ c. app_of c ≡ html_command) }
{
    report_command(alloc, "html")?.arg(file_words(alloc))
}

fn diff_command<'a>(alloc: Global) -> Result<Command<'a>, AllocError>
    ensures { IfOk result (λ c. app_of c ≡ diff_command) }
{
    report_command(alloc, "diff")?
        .arg(text_word(alloc, "NEW"))?
        .arg(text_option(alloc, "old-sources"))
}

// --NAME VALUE
fn text_option<'a>(alloc: Global, name: &'a str) -> Arg<'a>
    ensures rule { rule_of result ≡ text_option name.entry.now }
    ensures local { result.global ≡ false }
{
    Arg::new(alloc, name).long(name).action(ArgAction::Set)
}

fn text_word<'a>(alloc: Global, name: &'a str) -> Arg<'a>
    ensures rule { rule_of result ≡ text_word name.entry.now }
    ensures local { result.global ≡ false }
{
    Arg::new(alloc, name).required(true).action(ArgAction::Set)
}

// [FILE...]
fn file_words<'a>(alloc: Global) -> Arg<'a>
    ensures rule { rule_of result ≡ file_words }
    ensures local { result.global ≡ false }
{
    Arg::new(alloc, "FILE")
        .action(ArgAction::Append)
        .num_args(1..)
}
