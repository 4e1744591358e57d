use crate::failure::Failure;
use crate::reading::bad_line;
use itoa::Buffer;
use report_view::{Note, Report, Site, Sources, push_pieces, push_shown};
use std::alloc::{AllocError, Global};
use std::collections::HashMap;
use sv_base::NoMemory;

/// Says how many sites stand in lines that their sources do not have, and the first of them.
pub(crate) fn say_missing_lines(
    report: &Report,
    sources: &Sources,
    said: &mut Vec<u8>,
) -> Result<(), NoMemory> {
    let mut count = 0usize;
    for line in report.lines.as_slice() {
        if is_missing(sources, line.file.as_slice(), line.line) {
            if count == 0 {
                push_first(said, line.file.as_slice(), line.line)?;
            }
            count = count.saturating_add(1);
        }
    }
    if count == 0 {
        return Ok(());
    }
    let mut digits = Buffer::new();
    push_pieces(
        said,
        &[
            b"surveyor-view: sites whose lines the sources do not have: ",
            digits.format(count).as_bytes(),
            b"\n",
        ],
    )
}

fn is_missing(sources: &Sources, file: &[u8], line: u32) -> bool {
    match sources.get(file) {
        Some(lines) => line as usize > lines.len(),
        None => false,
    }
}

fn push_first(said: &mut Vec<u8>, file: &[u8], line: u32) -> Result<(), NoMemory> {
    let mut digits = Buffer::new();
    said.extend_from_slice(b"surveyor-view: ")?;
    push_shown(said, file)?;
    push_pieces(
        said,
        &[
            b":",
            digits.format(line).as_bytes(),
            b": the source does not have this line; the report and the source do not fit together\n",
        ],
    )
}

/// Says of each note that matches no site so, in the order of the notes.
pub(crate) fn say_unused_notes(
    alloc: Global,
    name: &str,
    notes: &HashMap<Vec<u8>, Note>,
    sites: &[Site],
    said: &mut Vec<u8>,
) -> Result<(), Failure> {
    if notes.is_empty() {
        return Ok(());
    }
    let used = used_keys(alloc, sites)?;
    let mut numbers = Vec::new(alloc);
    for (key, note) in notes {
        if !used.contains_key(key.as_slice()) {
            numbers.push(note.line)?;
        }
    }
    numbers.sort()?;
    for number in numbers {
        let line = bad_line(alloc, name, number, b": this note matches no site")?;
        said.extend_from_slice(&line)?;
    }
    Ok(())
}

/// The keys of the sites with remarks.
fn used_keys(alloc: Global, sites: &[Site]) -> Result<HashMap<Vec<u8>, ()>, AllocError> {
    let mut used = HashMap::new(alloc);
    for site in sites {
        if site.remark.is_some() {
            used.insert(site.key.clone()?, ())?;
        }
    }
    Ok(used)
}
