use crate::compared::{compared, notes_text};
use crate::failure::Failure;
use crate::fitting::{say_missing_lines, say_unused_notes};
use crate::loading::{Source, file_names, lines_by_name, load, load_sources};
use crate::reading::{notes_in, report_in};
use report_page::html_text;
use report_sarif::{Artifact, sarif_text};
use report_view::{Report, Site, review_text, sites_of};
use std::alloc::{AllocError, Global};
use sv_base::NoMemory;
use sv_outside::Sources;
use view_words::{View, Wanted};

/// What is put, and whether something got worse.
pub(crate) fn viewed<S: Sources>(
    alloc: Global,
    wanted: &Wanted,
    files: &mut S,
    said: &mut Vec<u8>,
) -> Result<(Vec<u8>, bool), Failure> {
    let name = wanted.report.as_str();
    let bytes = load(alloc, files, name)?;
    let report = report_in(alloc, name, &bytes)?;
    match wanted.view {
        View::Diff => compared(alloc, wanted, &report, files, said),
        _ => Ok((one_report(alloc, wanted, &report, files, said)?, false)),
    }
}

fn one_report<S: Sources>(
    alloc: Global,
    wanted: &Wanted,
    report: &Report,
    files: &mut S,
    said: &mut Vec<u8>,
) -> Result<Vec<u8>, Failure> {
    let notes_text = notes_text(alloc, wanted, files)?;
    let names = source_names(alloc, wanted, report)?;
    let sources = load_sources(alloc, files, wanted.folder.as_str(), names, said)?;
    shown(alloc, wanted, report, &notes_text, &sources, said)
}

/// A report beside its sources and notes. All that sites point to is lent for one time.
fn shown<'a>(
    alloc: Global,
    wanted: &Wanted,
    report: &'a Report,
    notes_text: &'a [u8],
    sources: &'a [Source],
    said: &mut Vec<u8>,
) -> Result<Vec<u8>, Failure> {
    let notes = notes_in(alloc, wanted.notes.as_str(), notes_text)?;
    let lines = lines_by_name(alloc, sources)?;
    say_missing_lines(report, &lines, said)?;
    let sites = sites_of(alloc, report.lines.as_slice(), &lines, &notes)?;
    say_unused_notes(alloc, wanted.notes.as_str(), &notes, &sites, said)?;
    let text = match wanted.view {
        View::Html => html_text(alloc, report, &sites, &lines)?,
        View::Sarif => sarif_of(alloc, &sites, sources)?,
        _ => review_text(alloc, &sites)?,
    };
    Ok(text)
}

/// The names of the sources: those that are asked for, or those that the report names.
fn source_names(
    alloc: Global,
    wanted: &Wanted,
    report: &Report,
) -> Result<Vec<Vec<u8>>, AllocError> {
    if wanted.files.is_empty() {
        return file_names(alloc, report);
    }
    let mut names = Vec::new(alloc);
    for file in wanted.files.iter() {
        names.push(Vec::from_slice(alloc, file.as_bytes())?)?;
    }
    Ok(names)
}

fn sarif_of(alloc: Global, sites: &[Site], sources: &[Source]) -> Result<Vec<u8>, NoMemory> {
    let mut artifacts = Vec::new(alloc);
    for source in sources {
        artifacts.push(Artifact {
            name: source.name.as_slice(),
            bytes: source.bytes.as_slice(),
        })?;
    }
    sarif_text(alloc, sites, &artifacts)
}
