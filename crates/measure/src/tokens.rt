//! `tokens time FILE` cuts a preprocessed file into tokens and writes how many seconds that took, how many tokens there are,
//! and how many bytes each has in the list; `tokens list FILE ROOM` writes a line for each token, or the fault, with room
//! for so many tokens.

use crate::clock::since;
use crate::listing::{write_fault, write_tokens};
use crate::trouble::Trouble;
use c_lexer::lex;
use c_syntax::{Token, Tokens};
use std::alloc::Global;
use std::fs;
use std::mem::size_of;
use std::time::Instant;
use sv_base::{FrontFault, Names, limits};

/// The tokens of a file whose own name has the number 0.
fn cut(alloc: Global, file: &str, bytes: &[u8], room: u32) -> Result<Tokens, FrontFault> {
    let mut names = Names::new(alloc);
    match names.number_of(alloc, file.as_bytes()) {
        Ok(name) => lex(alloc, bytes, name, &mut names, room),
        Err(_) => Err(FrontFault::NoMemory),
    }
}

fn list(rt: &HostRuntime, file: &str, room: u32) -> Result<(), Trouble> {
    let bytes = fs::read(rt, file)?;
    match cut(rt.alloc(), file, &bytes, room) {
        Ok(tokens) => write_tokens(rt, tokens.list.as_slice())?,
        Err(FrontFault::Fault(fault)) => write_fault(rt, fault)?,
        Err(FrontFault::NoMemory) => return Err(Trouble::NoMemory),
    }
    Ok(())
}

fn time(rt: &HostRuntime, file: &str) -> Result<(), Trouble> {
    let bytes = fs::read(rt, file)?;
    let start = Instant::now(rt)?;
    let Ok(tokens) = cut(rt.alloc(), file, &bytes, limits::TOKENS) else {
        return Err(Trouble::Source);
    };
    let taken = since(rt, start)?;
    let count = tokens.list.len();
    let size = size_of::<Token>();
    println!(rt;
        "seconds {}.{:06} tokens {count} bytes {size}",
        taken.seconds, taken.behind
    )?;
    Ok(())
}

pub(crate) fn answer(rt: &HostRuntime, words: &[String]) -> Result<(), Trouble> {
    match words {
        [name, file, room] if name.as_str() == "list" => match room.as_str().parse::<u32>() {
            Ok(room) => list(rt, file.as_str(), room),
            Err(_) => Err(Trouble::Words),
        },
        [name, file] if name.as_str() == "time" => time(rt, file.as_str()),
        _ => Err(Trouble::Words),
    }
}
