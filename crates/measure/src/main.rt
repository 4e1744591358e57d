//! Does what its words say, so that it can be timed, compared and interrupted from outside. The first word chooses:
//! `matrices`, `journal`, `tokens` or `points`; the module of each says what its words are. Behind a word `and` stands a
//! further request.
#![tactic(auto)]

mod checksum;
mod clock;
mod input;
mod journals;
mod listing;
mod matrices;
mod points;
mod records;
mod tokens;
mod trouble;
mod turns;

use std::process::ExitCode;
use std::{env, io};
use trouble::Trouble;

fn answer(rt: &HostRuntime, words: &[String]) -> Result<(), Trouble> {
    match words {
        [name, rest @ ..] if name.as_str() == "matrices" => matrices::answer(rt, rest),
        [name, rest @ ..] if name.as_str() == "journal" => journals::answer(rt, rest),
        [name, rest @ ..] if name.as_str() == "tokens" => tokens::answer(rt, rest),
        [name, rest @ ..] if name.as_str() == "points" => points::answer(rt, rest),
        _ => Err(Trouble::Words),
    }
}

fn answer_all(rt: &HostRuntime, words: &[String]) -> Result<(), Trouble> {
    for request in words.split(|word| word.as_str() == "and") {
        answer(rt, request)?;
    }
    Ok(())
}

fn main(rt: HostRuntime) -> io::Result<ExitCode> {
    let mut words = Vec::new(rt.alloc());
    if let Ok(args) = env::args(&rt) {
        for word in args {
            words.push(word)?;
        }
    }
    match answer_all(&rt, words.get(1..).unwrap_or(&[])) {
        Ok(()) => Ok(ExitCode::SUCCESS),
        Err(Trouble::Words) => {
            println!(rt; "usage: measure matrices|journal|tokens|points WORD.. [and ..]")?;
            Ok(ExitCode::from(2))
        }
        Err(trouble) => {
            println!(rt; "{trouble:?}")?;
            Ok(ExitCode::FAILURE)
        }
    }
}
