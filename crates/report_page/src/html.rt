use crate::escape::push_html;
use crate::head::{HEAD, TAIL};
use crate::listing::push_listing;
use crate::marks::Walk;
use crate::order::{Placed, between, end_of_file, places_of};
use crate::source::{push_source, push_without_source};
use crate::summary::push_summary;
use report::totals_text;
use report_view::{Report, Site, Sources, is_alarm};
use std::alloc::Global;
use sv_base::NoMemory;

/// A page of HTML: the totals, a table of the functions, a list of the sites that want a look, and the sources with each
/// site marked. Sites of a file whose source is not given are listed in its place.
pub fn html_text(
    alloc: Global,
    report: &Report,
    sites: &[Site],
    sources: &Sources,
) -> Result<Vec<u8>, NoMemory> {
    let mut text = Vec::new(alloc);
    text.extend_from_slice(HEAD.as_bytes())?;
    push_totals(&mut text, report)?;
    push_assumed(&mut text, &report.assumed)?;
    push_summary(alloc, &mut text, sites)?;
    let places = places_of(alloc, sites)?;
    let count = alarms(sites);
    if count > 0 {
        push_listing(&mut text, &places, sites)?;
    }
    let mut walk = Walk { count, done: 0 };
    push_files(&mut text, &mut walk, &places, sites, sources)?;
    text.extend_from_slice(TAIL.as_bytes())?;
    Ok(text)
}

fn alarms(sites: &[Site]) -> usize {
    sites
        .iter()
        .filter(|site| is_alarm(site.line.colour))
        .count()
}

fn push_totals(text: &mut Vec<u8>, report: &Report) -> Result<(), NoMemory> {
    text.extend_from_slice(b"<p>")?;
    totals_text(report.lines.as_slice(), text)?;
    text.extend_from_slice(b"</p>\n")?;
    Ok(())
}

/// Appends the names of the external functions.
fn push_assumed(text: &mut Vec<u8>, assumed: &[Vec<u8>]) -> Result<(), NoMemory> {
    if assumed.is_empty() {
        return Ok(());
    }
    text.extend_from_slice(b"<p>External functions, taken to change no object:")?;
    for name in assumed {
        text.extend_from_slice(b" <code>")?;
        push_html(text, name.as_slice())?;
        text.extend_from_slice(b"</code>")?;
    }
    text.extend_from_slice(b"</p>\n")?;
    Ok(())
}

/// Appends the files that have sites, in the order of their names.
fn push_files(
    text: &mut Vec<u8>,
    walk: &mut Walk,
    places: &[Placed],
    sites: &[Site],
    sources: &Sources,
) -> Result<(), NoMemory> {
    let mut done = 0usize;
    for _ in 0..places.len() {
        let Some(first) = places.get(done) else {
            return Ok(());
        };
        let end = end_of_file(places, first.file);
        let here = between(places, done, end);
        push_file(text, walk, first.file, here, sites, sources)?;
        done = end;
    }
    Ok(())
}

fn push_file(
    text: &mut Vec<u8>,
    walk: &mut Walk,
    name: &[u8],
    places: &[Placed],
    sites: &[Site],
    sources: &Sources,
) -> Result<(), NoMemory> {
    text.extend_from_slice(b"<h2>")?;
    push_html(text, name)?;
    text.extend_from_slice(b"</h2>\n")?;
    match sources.get(name) {
        Some(lines) => push_source(text, walk, lines, places, sites),
        None => push_without_source(text, walk, places, sites),
    }
}
