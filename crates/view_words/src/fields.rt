ghost use Rattle.std.specs.Prelude.{◌≡◌, map, IfOk, codes, option_map, string_bytes};
ghost use Rattle.clap.specs.Words.{all_of, first_of, found_of, rows_of};
ghost use Rattle.view_words.specs.Wanted.{files_in};

use clap::ArgMatches;
use std::alloc::{AllocError, Global};

pub(crate) fn text_of<'a>(matches: &ArgMatches<'a>, name: &str) -> Option<&'a str>
    ensures { option_map (λ s. s.now) result ≡ first_of name.now (rows_of (found_of matches.now)) }
{
    matches.get_str(name)
}

pub(crate) fn files_in(alloc: Global, matches: &ArgMatches) -> Result<Vec<String>, AllocError>
    ensures { IfOk result (λ v. map string_bytes v.items ≡ files_in (rows_of (found_of matches.now))) }
{
    match names_in(matches) {
        Some(names) => copies_of(alloc, names),
        None => Ok(Vec::new(alloc)),
    }
}

fn names_in<'m, 'a>(matches: &'m ArgMatches<'a>) -> Option<&'m [&'a str]>
    ensures { option_map (λ s. map (λ v. v.now) s.now) result ≡ all_of (codes "FILE") (rows_of (found_of matches.now)) }
{
    matches.get_strs("FILE")
}

fn copies_of(alloc: Global, names: &[&str]) -> Result<Vec<String>, AllocError>
    ensures { IfOk result (λ v. map string_bytes v.items ≡ map (λ s. s.now) names.now) }
{
    let mut copies = Vec::new(alloc);
    for name in names {
        copies.push(String::from_str(alloc, name)?)?;
    }
    Ok(copies)
}
