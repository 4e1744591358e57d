//! Files (ISO/IEC 9899:1999, 6.9), one after the other.

use crate::definitions::{Definition, define};
use c_check::{Level, begin_declaration, declare};
use c_faults::Stop;
use c_names::{Checker, FileLinkage};
use c_tree::{Declaration, Item, Tree};
use c_typed::TypedObject;
use std::mem::replace;

/// A file that was checked.
#[derive(Drop)]
pub struct CheckedFile {
    /// The texts and the objects with an initialiser outside of functions.
    pub objects: Vec<TypedObject>,
    pub linkage: FileLinkage,
    pub definitions: Vec<Definition>,
}

/// Checks a file. So many functions were defined in the files before.
pub fn check_file(tree: &Tree, before: usize, checker: &mut Checker) -> Result<CheckedFile, Stop> {
    checker.begin_file();
    for name in tree.names.as_slice() {
        checker.add_name(name.as_slice())?;
    }
    let mut definitions = Vec::new(checker.alloc);
    for item in tree.items.as_slice() {
        match item {
            Item::Function {
                head,
                declarator,
                body,
            } => {
                let Ok(number) = u32::try_from(before.saturating_add(definitions.len())) else {
                    return Err(Stop::NoMemory);
                };
                let made = define(head.as_slice(), declarator, body, number, checker)?;
                definitions.push(made)?;
            }
            Item::Declaration(d) => check_declaration(d, checker)?,
        }
    }
    let alloc = checker.alloc;
    Ok(CheckedFile {
        objects: replace(&mut checker.objects, Vec::new(alloc)),
        linkage: checker.linkage.take(alloc),
        definitions,
    })
}

fn check_declaration(d: &Declaration, checker: &mut Checker) -> Result<(), Stop> {
    let said = begin_declaration(d, checker)?;
    for part in d.parts.as_slice() {
        declare(&said, d.head.as_slice(), part, Level::File, checker)?;
    }
    Ok(())
}
