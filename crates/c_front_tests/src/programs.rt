//! Programs of files that stand here as text.

use c_front::{Program, SourceFile, front};
use std::alloc::{AllocError, Global};
use sv_base::{FrontFault, Names};

fn file(alloc: Global, name: &str, text: &str) -> Result<SourceFile, AllocError> {
    Ok(SourceFile {
        name: String::from_str(alloc, name)?,
        bytes: Vec::from_slice(alloc, text.as_bytes())?,
    })
}

/// The program of a file and another one, whose entry is `test`.
pub fn program_of(alloc: Global, text: &str, other: &str) -> Result<Program, FrontFault> {
    let mut files = Vec::new(alloc);
    files.push(file(alloc, "t.c", text)?)?;
    files.push(file(alloc, "u.c", other)?)?;
    front(alloc, &files, b"test", &mut Names::new(alloc))
}
