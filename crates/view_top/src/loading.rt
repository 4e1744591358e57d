use crate::failure::Failure;
use report_view::{Report, Sources, push_pieces, push_shown, source_lines};
use std::alloc::{AllocError, Global};
use std::collections::HashMap;
use std::str;
use sv_base::NoMemory;
use sv_outside as outside;
use sv_outside::Loaded;

/// The most bytes of a file that is read.
const MOST_BYTES: u64 = 1 << 30;

/// A source with the name that the report has for it.
#[derive(Drop)]
pub(crate) struct Source {
    pub(crate) name: Vec<u8>,
    pub(crate) bytes: Vec<u8>,
}

/// The bytes of a file that has to be there.
pub(crate) fn load<S: outside::Sources>(
    alloc: Global,
    files: &mut S,
    name: &str,
) -> Result<Vec<u8>, Failure> {
    let mut bytes = Vec::new(alloc);
    match files.load(name, MOST_BYTES, &mut bytes) {
        Loaded::Ok => Ok(bytes),
        Loaded::NoMemory => Err(Failure::NoMemory),
        Loaded::Failed | Loaded::TooLarge => {
            Err(Failure::CannotRead(cannot_read(alloc, name.as_bytes(), b"")?))
        }
    }
}

fn cannot_read(alloc: Global, name: &[u8], tail: &[u8]) -> Result<Vec<u8>, NoMemory> {
    let mut line = Vec::new(alloc);
    line.extend_from_slice(b"surveyor-view: cannot read ")?;
    push_shown(&mut line, name)?;
    push_pieces(&mut line, &[tail, b"\n"])?;
    Ok(line)
}

/// The distinct names of the files of a report, in the order of their first sites.
pub(crate) fn file_names(alloc: Global, report: &Report) -> Result<Vec<Vec<u8>>, AllocError> {
    let mut seen: HashMap<Vec<u8>, ()> = HashMap::new(alloc);
    let mut names = Vec::new(alloc);
    for line in report.lines.as_slice() {
        let name = line.file.as_slice();
        if !seen.contains_key(name) {
            seen.insert(Vec::from_slice(alloc, name)?, ())?;
            names.push(Vec::from_slice(alloc, name)?)?;
        }
    }
    Ok(names)
}

/// The sources of these names in a folder. Of each that cannot be read, a line is said.
pub(crate) fn load_sources<S: outside::Sources>(
    alloc: Global,
    files: &mut S,
    folder: &str,
    names: Vec<Vec<u8>>,
    said: &mut Vec<u8>,
) -> Result<Vec<Source>, Failure> {
    let mut sources = Vec::new(alloc);
    for name in names {
        match load_source(alloc, files, folder, &name)? {
            Some(bytes) => sources.push(Source { name, bytes })?,
            None => {
                let line = cannot_read(alloc, &name, b": its lines are not known")?;
                said.extend_from_slice(&line)?;
            }
        }
    }
    Ok(sources)
}

fn load_source<S: outside::Sources>(
    alloc: Global,
    files: &mut S,
    folder: &str,
    name: &[u8],
) -> Result<Option<Vec<u8>>, Failure> {
    let Ok(name) = str::from_utf8(name) else {
        return Ok(None);
    };
    let path = path_of(alloc, folder, name)?;
    let mut bytes = Vec::new(alloc);
    match files.load(path.as_str(), MOST_BYTES, &mut bytes) {
        Loaded::Ok => Ok(Some(bytes)),
        Loaded::NoMemory => Err(Failure::NoMemory),
        Loaded::Failed | Loaded::TooLarge => Ok(None),
    }
}

fn path_of(alloc: Global, folder: &str, name: &str) -> Result<String, AllocError> {
    let mut path = String::from_str(alloc, folder)?;
    if !folder.is_empty() {
        path.push_str("/")?;
    }
    path.push_str(name)?;
    Ok(path)
}

/// The lines of the sources by their names.
pub(crate) fn lines_by_name<'a>(
    alloc: Global,
    sources: &'a [Source],
) -> Result<Sources<'a>, AllocError> {
    let mut lines = HashMap::new(alloc);
    for source in sources {
        lines.insert(
            source.name.clone()?,
            source_lines(alloc, source.bytes.as_slice())?,
        )?;
    }
    Ok(lines)
}
