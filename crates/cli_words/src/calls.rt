ghost use Rattle.std.specs.Prelude.{◌≡◌, map, IfOk};
ghost use Rattle.clap.specs.Words.{found_of, rows_of};
ghost use Rattle.cli_words.specs.Settings.{Gives, calls_in, each_below, parts, positions};

use crate::fields::text_of;
use crate::numbers::number_between;
use crate::words::WordsFault;
use clap::ArgMatches;
use std::alloc::{AllocError, Global};

/// The calls of a run, as positions among the entry names.
pub(crate) fn calls_in(alloc: Global, matches: &ArgMatches) -> Result<Vec<u32>, WordsFault>
    ensures { Gives (λ v. v.items) result (calls_in (rows_of (found_of matches.now))) }
{
    let names = parts(alloc, text_of(matches, "entry").unwrap_or("main"))?;
    let Ok(count) = u32::try_from(names.len()) else {
        return Err(WordsFault::Bad);
    };
    match text_of(matches, "calls") {
        Some(text) => positions(alloc, count, &parts(alloc, text)?),
        None => Ok(each_below(alloc, count)?),
    }
}

// The parts of a list that commas separate.
fn parts<'a>(alloc: Global, text: &'a str) -> Result<Vec<&'a [u8]>, AllocError>
    ensures { IfOk result (λ v. map (λ s. s.now) v.items ≡ parts text.now) }
{
    text.as_bytes().split(|byte| *byte == b',').collect(alloc)
}

// The positions that the parts write, each below the number of names.
fn positions(alloc: Global, names: u32, parts: &[&[u8]]) -> Result<Vec<u32>, WordsFault>
    ensures { Gives (λ v. v.items) result (positions names (map (λ s. s.now) parts.now)) }
{
    let mut positions = Vec::new(alloc);
    for part in parts {
        let Some(position) = number_between(part, 0, names.saturating_sub(1)) else {
            return Err(WordsFault::Bad);
        };
        positions.push(position)?;
    }
    Ok(positions)
}

fn each_below(alloc: Global, count: u32) -> Result<Vec<u32>, AllocError>
    ensures { IfOk result (λ v. v.items ≡ each_below count) }
{
    let mut positions = Vec::new(alloc);
    for position in 0..count {
        positions.push(position)?;
    }
    Ok(positions)
}
