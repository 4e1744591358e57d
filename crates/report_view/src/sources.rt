use std::alloc::{AllocError, Global};
use std::collections::HashMap;

/// The lines of the sources by the names of their files, without the newlines.
pub type Sources<'a> = HashMap<Vec<u8>, Vec<&'a [u8]>>;

/// The lines of a source; a newline at its end begins none.
pub fn source_lines(alloc: Global, text: &[u8]) -> Result<Vec<&[u8]>, AllocError> {
    let text = text.strip_suffix(b"\n").unwrap_or(text);
    text.split(|byte| *byte == b'\n').collect(alloc)
}

/// The text of a line, from 1, without the white space around it; none where the sources have no such line.
pub(crate) fn text_at<'a>(sources: &Sources<'a>, file: &[u8], line: u32) -> Option<&'a [u8]> {
    let lines = sources.get(file)?;
    let at = (line as usize).checked_sub(1)?;
    let text = lines.get(at)?;
    Some(text.trim_ascii())
}
