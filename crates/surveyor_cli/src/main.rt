//! The command `surveyor`: it hands the words of the command line, the files, disks and clock of the system, and standard
//! output and error to the checker.
#![tactic(auto)]

use disk_file::{HostClock, HostDisks, HostSink, HostSources};
use std::alloc::AllocError;
use std::env;
use std::process::ExitCode;
use std::sync::Wait;
use std::thread::Threads;
use survey::survey_alone;
use survey_check::{survey_stored, survey_trial};
use survey_crew::survey;
use sv_outside::Gate;

/// The status of want of memory.
const NO_MEMORY: u8 = 8;

/// A gate that every worker passes at once.
struct Open;

impl Gate for Open {
    fn at(&self, _worker: u32, _round: u32, _task: u32) {}
}

/// The words of the command line. A command line that is no text has none.
fn words(rt: &HostRuntime) -> Result<Vec<String>, AllocError> {
    let mut words = Vec::new(rt.alloc());
    if let Ok(args) = env::args(rt) {
        for word in args {
            words.push(word)?;
        }
    }
    Ok(words)
}

/// Whether a word names a database.
fn is_database(word: &String) -> bool {
    word.as_str() == "--db" || word.as_str().starts_with("--db=")
}

/// Which call serves the command.
enum Command {
    Check,
    Trial,
    /// `alone` with a database.
    Stored,
    Other,
}

fn command_of(words: &[String]) -> Command {
    match words.get(1) {
        Some(word) if word.as_str() == "check" => Command::Check,
        Some(word) if word.as_str() == "trial" => Command::Trial,
        Some(word) if word.as_str() == "alone" && words.iter().any(is_database) => Command::Stored,
        _ => Command::Other,
    }
}

/// The exit status of the command, whose workers take their threads from `threads`.
fn run<R: Threads + Wait + Sync>(rt: &HostRuntime, threads: &R, words: &[String]) -> u8 {
    let alloc = rt.alloc();
    let mut sources = HostSources::new(rt);
    let mut out = HostSink::stdout(rt);
    let mut err = HostSink::stderr(rt);
    let mut disks = HostDisks::new(rt, alloc);
    match command_of(words) {
        Command::Check => {
            let clock = HostClock::new(rt);
            survey(
                threads,
                alloc,
                words,
                &mut sources,
                &mut out,
                &mut err,
                &mut disks,
                &clock,
                &Open,
            )
            .status
        }
        Command::Trial => survey_trial(alloc, words, &mut out, &mut err, &mut disks).status,
        Command::Stored => survey_stored(
            alloc,
            words,
            &mut sources,
            &mut out,
            &mut err,
            &mut disks,
        ).status,
        Command::Other => survey_alone(alloc, words, &mut sources, &mut out, &mut err),
    }
}

fn main(rt: HostRuntime) -> ExitCode {
    let Ok(words) = words(&rt) else {
        return ExitCode::from(NO_MEMORY);
    };
    ExitCode::from(run(&rt, &rt, &words))
}
