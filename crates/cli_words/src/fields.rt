ghost use Rattle.std.specs.Prelude.{◌≡◌, map, IfOk, codes, option_map, string_bytes};
ghost use Rattle.clap.specs.Words.{all_of, first_of, found_of, rows_of};
ghost use Rattle.cli_words.specs.Settings.{Gives, files_in, number_or, numbers_in, same_paths};

use crate::numbers::number_between;
use crate::words::WordsFault;
use clap::ArgMatches;
use std::alloc::{AllocError, Global};

/// The numbers of a command line.
#[derive(Clone, Copy)]
pub(crate) struct Numbers {
    pub(crate) rounds: u32,
    pub(crate) workers: u32,
    pub(crate) bound: u32,
    pub(crate) number: u32,
    pub(crate) functions: u32,
}

pub(crate) fn numbers_in(matches: &ArgMatches) -> Option<Numbers>
    ensures { result ≡ numbers_in (rows_of (found_of matches.now)) }
{
    Some(Numbers {
        rounds: number_or(24, 1, 200, text_of(matches, "rounds"))?,
        workers: number_or(4, 1, 64, text_of(matches, "workers"))?,
        bound: number_or(1000, 1, 1_000_000, text_of(matches, "bound"))?,
        number: number_or(0, 0, u32::MAX, text_of(matches, "NUMBER"))?,
        functions: number_or(0, 1, 2000, text_of(matches, "FUNCTIONS"))?,
    })
}

// The number of an option or word, and the default where it is not given.
fn number_or(default: u32, low: u32, high: u32, text: Option<&str>) -> Option<u32>
    ensures { result ≡ number_or default low high (option_map (λ s. s.now) text.entry) }
{
    match text {
        Some(text) => number_between(text.as_bytes(), low, high),
        None => Some(default),
    }
}

pub(crate) fn text_of<'a>(matches: &ArgMatches<'a>, name: &str) -> Option<&'a str>
    ensures { option_map (λ s. s.now) result ≡ first_of name.now (rows_of (found_of matches.now)) }
{
    matches.get_str(name)
}

// The database and the book are one file.
pub(crate) fn same_paths(matches: &ArgMatches) -> bool
    ensures { result ≡ same_paths (rows_of (found_of matches.now)) }
{
    match (text_of(matches, "db"), text_of(matches, "book")) {
        (Some(path), Some(book)) => path == book && !path.is_empty(),
        _ => false,
    }
}

pub(crate) fn files_in(alloc: Global, matches: &ArgMatches) -> Result<Vec<String>, WordsFault>
    ensures { Gives (λ v. map string_bytes v.items) result (files_in (rows_of (found_of matches.now))) }
{
    let Some(names) = names_in(matches) else {
        return Ok(Vec::new(alloc));
    };
    if names.len() > 256 {
        return Err(WordsFault::Bad);
    }
    Ok(copies_of(alloc, names)?)
}

fn names_in<'m, 'a>(matches: &'m ArgMatches<'a>) -> Option<&'m [&'a str]>
    ensures { option_map (λ s. map (λ v. v.now) s.now) result ≡ all_of (codes "FILE") (rows_of (found_of matches.now)) }
{
    matches.get_strs("FILE")
}

fn copies_of(alloc: Global, names: &[&str]) -> Result<Vec<String>, AllocError>
    ensures { IfOk result (λ v. map string_bytes v.items ≡ map (λ s. s.now) names.now) }
{
    let mut copies = Vec::new(alloc);
    for name in names {
        copies.push(String::from_str(alloc, name)?)?;
    }
    Ok(copies)
}

pub(crate) fn copy_of(alloc: Global, text: Option<&str>) -> Result<Option<String>, AllocError>
    ensures { IfOk result (λ s. option_map string_bytes s ≡ option_map (λ t. t.now) text.entry) }
{
    match text {
        Some(text) => Ok(Some(String::from_str(alloc, text)?)),
        None => Ok(None),
    }
}
