//! The functions that a program begins with.

use crate::files::CheckedFile;
use c_names::Checker;
use std::alloc::{AllocError, Global};
use sv_base::FuncId;

// The function that a name means as an entry.
#[derive(Clone, Copy)]
struct Named {
    number: u32,
    internal: bool,
}

// By the number of a name in the pool, the function that it means as an entry: the one with external linkage, or where there
// is none the first.
#[derive(Drop)]
struct EntryNames {
    table: Vec<Option<Named>>,
}

impl EntryNames {
    fn new(alloc: Global, files: &[CheckedFile]) -> Result<EntryNames, AllocError> {
        let mut names = EntryNames {
            table: Vec::new(alloc),
        };
        let mut number = 0u32;
        for file in files {
            for definition in &file.definitions {
                let named = Named {
                    number,
                    internal: definition.internal,
                };
                names.add(definition.name_number, named)?;
                number = number.saturating_add(1);
            }
        }
        Ok(names)
    }

    fn find(&self, name: u32) -> Option<Named> {
        match self.table.get(name as usize) {
            Some(entry) => *entry,
            None => None,
        }
    }

    fn add(&mut self, name: u32, named: Named) -> Result<(), AllocError> {
        let stays = match self.find(name) {
            Some(before) => named.internal || !before.internal,
            None => false,
        };
        if stays {
            return Ok(());
        }
        let at = name as usize;
        if self.table.len() <= at {
            self.table.resize(at + 1, None)?;
        }
        if at < self.table.len() {
            self.table[at] = Some(named);
        }
        Ok(())
    }
}

/// The functions that a list of names separated by commas means. None where one of the names is no defined function.
pub fn entries(
    alloc: Global,
    list: &[u8],
    files: &[CheckedFile],
    checker: &Checker,
) -> Result<Option<Vec<FuncId>>, AllocError> {
    let names = EntryNames::new(alloc, files)?;
    let mut found = Vec::new(alloc);
    for name in list.split(|byte| *byte == b',') {
        let number = match checker.find_spelling(name) {
            Some(number) => number,
            None => return Ok(None),
        };
        match names.find(number) {
            Some(named) => found.push(FuncId(named.number))?,
            None => return Ok(None),
        }
    }
    Ok(Some(found))
}
