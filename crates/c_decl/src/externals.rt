//! The functions that a program names and does not define.

use crate::names::{ProgramName, ProgramNames};
use std::alloc::{AllocError, Global};

#[derive(Clone, Copy)]
struct External {
    used: u32,
    name: usize,
}

/// The names of the external functions, by their numbers in the program, in the order in which expressions name them.
pub fn externals(alloc: Global, names: &ProgramNames) -> Result<Vec<usize>, AllocError> {
    let mut found = Vec::new(alloc);
    for (number, name) in names.list.iter().enumerate() {
        if let Some(used) = external_use(name) {
            found.push(External { used, name: number })?;
        }
    }
    found.sort_unstable_by_key(|external| external.used);
    let mut list = Vec::new(alloc);
    for external in &found {
        list.push(external.name)?;
    }
    Ok(list)
}

// When an external function is named first.
fn external_use(name: &ProgramName) -> Option<u32> {
    if name.is_function && name.function.is_none() {
        return name.used;
    }
    None
}
