use memchr::memmem;
use std::alloc::{AllocError, AllocFailed, Global};
use std::collections::HashMap;

/// What stands between the site and the remark of a note.
const MARK: &[u8] = b": reviewed by ";

/// What stands in a remark before its reason.
const REASON: &[u8] = b" because ";

/// A note of a reviewer.
#[derive(Clone, Copy)]
pub struct Note<'a> {
    /// `reviewed by .. because ..`.
    pub remark: &'a [u8],
    /// The line of the note in its file, from 1.
    pub line: usize,
}

/// Why a text gives no notes.
#[derive(Clone, Copy)]
pub enum NotesFault {
    /// The line, from 1, that is no note.
    Line(usize),
    NoMemory,
}

impl From<AllocError> for NotesFault {
    fn from(_error: AllocError) -> NotesFault {
        NotesFault::NoMemory
    }
}

impl<T: Drop> From<AllocFailed<T>> for NotesFault {
    fn from(_error: AllocFailed<T>) -> NotesFault {
        NotesFault::NoMemory
    }
}

/// Reads notes, one a line: `FILE FUNCTION TEXT: reviewed by .. because ..`. Empty lines, and those that begin with `#`,
/// are passed over. Of two notes on one site the later counts.
pub fn read_notes<'a>(
    alloc: Global,
    text: &'a [u8],
) -> Result<HashMap<Vec<u8>, Note<'a>>, NotesFault> {
    let mut notes = HashMap::new(alloc);
    let mut number = 0usize;
    for row in text.split(|byte| *byte == b'\n') {
        number = number.saturating_add(1);
        let row = row.trim_ascii();
        if row.is_empty() || row.starts_with(b"#") {
            continue;
        }
        let Some((key, remark)) = parts_of(row) else {
            return Err(NotesFault::Line(number));
        };
        let key = Vec::from_slice(alloc, key)?;
        notes.insert(
            key,
            Note {
                remark,
                line: number,
            },
        )?;
    }
    Ok(notes)
}

/// The key of the site and the remark, where the row has both.
fn parts_of(row: &[u8]) -> Option<(&[u8], &[u8])> {
    let at = memmem::find(row, MARK)?;
    let (key, rest) = row.split_at_checked(at)?;
    let remark = rest.strip_prefix(b": ")?;
    if memmem::find(remark, REASON).is_none() {
        return None;
    }
    Some((key, remark))
}
