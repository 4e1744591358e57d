use crate::failure::Failure;
use itoa::Buffer;
use report_view::{
    Note, NotesFault, Report, ReportFault, push_pieces, push_shown, read_notes, read_report,
};
use std::alloc::Global;
use std::collections::HashMap;
use sv_base::NoMemory;

/// The report in a file of this name.
pub(crate) fn report_in(alloc: Global, name: &str, bytes: &[u8]) -> Result<Report, Failure> {
    match read_report(alloc, bytes) {
        Ok(report) => Ok(report),
        Err(ReportFault::NoMemory) => Err(Failure::NoMemory),
        Err(ReportFault::Line(line)) => Err(Failure::Bad(bad_line(
            alloc,
            name,
            line,
            b": no line of a report",
        )?)),
    }
}

/// The notes in a file of this name.
pub(crate) fn notes_in<'a>(
    alloc: Global,
    name: &str,
    bytes: &'a [u8],
) -> Result<HashMap<Vec<u8>, Note<'a>>, Failure> {
    match read_notes(alloc, bytes) {
        Ok(notes) => Ok(notes),
        Err(NotesFault::NoMemory) => Err(Failure::NoMemory),
        Err(NotesFault::Line(line)) => Err(Failure::Bad(bad_line(
            alloc,
            name,
            line,
            b": no note of the form FILE FUNCTION TEXT: reviewed by .. because ..",
        )?)),
    }
}

/// `surveyor-view: NAME:LINE..`
pub(crate) fn bad_line(
    alloc: Global,
    name: &str,
    number: usize,
    tail: &[u8],
) -> Result<Vec<u8>, NoMemory> {
    let mut digits = Buffer::new();
    let mut line = Vec::new(alloc);
    line.extend_from_slice(b"surveyor-view: ")?;
    push_shown(&mut line, name.as_bytes())?;
    push_pieces(
        &mut line,
        &[b":", digits.format(number).as_bytes(), tail, b"\n"],
    )?;
    Ok(line)
}
