use crate::failure::Failure;
use crate::fitting::say_unused_notes;
use crate::loading::{Source, file_names, lines_by_name, load, load_sources};
use crate::reading::{notes_in, report_in};
use report_view::{Report, Site, changes_text, sites_of};
use std::alloc::Global;
use sv_outside::Sources;
use view_words::Wanted;

/// What changed between two reports, and whether something got worse.
pub(crate) fn compared<S: Sources>(
    alloc: Global,
    wanted: &Wanted,
    old: &Report,
    files: &mut S,
    said: &mut Vec<u8>,
) -> Result<(Vec<u8>, bool), Failure> {
    let name = wanted.new_report.as_str();
    let bytes = load(alloc, files, name)?;
    let new = report_in(alloc, name, &bytes)?;
    let notes_text = notes_text(alloc, wanted, files)?;
    let folder = wanted.old_folder.as_str();
    let old_sources = load_sources(alloc, files, folder, file_names(alloc, old)?, said)?;
    let folder = wanted.folder.as_str();
    let new_sources = load_sources(alloc, files, folder, file_names(alloc, &new)?, said)?;
    let old_sites = sites_beside(alloc, wanted, old, &notes_text, &old_sources)?;
    let new_sites = sites_beside(alloc, wanted, &new, &notes_text, &new_sources)?;
    let notes = notes_in(alloc, wanted.notes.as_str(), &notes_text)?;
    say_unused_notes(alloc, wanted.notes.as_str(), &notes, &new_sites, said)?;
    let changes = changes_text(alloc, &old_sites, &new_sites)?;
    let is_worse = changes.worse > 0;
    Ok((changes.text, is_worse))
}

/// The sites of a report beside its sources and notes. All that they point to is lent for one time.
fn sites_beside<'a>(
    alloc: Global,
    wanted: &Wanted,
    report: &'a Report,
    notes_text: &'a [u8],
    sources: &'a [Source],
) -> Result<Vec<Site<'a>>, Failure> {
    let notes = notes_in(alloc, wanted.notes.as_str(), notes_text)?;
    let lines = lines_by_name(alloc, sources)?;
    let sites = sites_of(alloc, report.lines.as_slice(), &lines, &notes)?;
    Ok(sites)
}

/// The bytes of the notes; none where no notes are asked for.
pub(crate) fn notes_text<S: Sources>(
    alloc: Global,
    wanted: &Wanted,
    files: &mut S,
) -> Result<Vec<u8>, Failure> {
    if wanted.notes.as_str().is_empty() {
        return Ok(Vec::new(alloc));
    }
    load(alloc, files, wanted.notes.as_str())
}
