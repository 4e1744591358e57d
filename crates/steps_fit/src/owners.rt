ghost use Rattle.std.specs.Prelude.{◌≡◌, IsTrue};

use core_ir::{Function, Step, Value, in_order};
use std::alloc::Global;
use sv_base::NoMemory;

// The object that a step names.
fn named_by(step: &Step) -> Option<u32> {
    match step {
        Step::Set {
            value: Value::Address(object),
            ..
        } => Some(*object),
        Step::Begin { object, .. } => Some(*object),
        _ => None,
    }
}

// Notes that a function begins an object. False where another one does.
fn own(owners: &mut [Option<u32>], object: u32, function: u32) -> bool {
    match owners.get_mut(object as usize) {
        None => false,
        Some(owner) => match *owner {
            None => {
                *owner = Some(function);
                true
            }
            Some(other) => other == function,
        },
    }
}

// Notes what the steps of a function begin.
fn own_all(owners: &mut [Option<u32>], steps: &[&Step], function: u32) -> bool {
    for step in steps {
        if let Step::Begin { object, .. } = step {
            if !own(owners, *object, function) {
                return false;
            }
        }
    }
    true
}

fn is_free(owners: &[Option<u32>], object: u32, function: u32) -> bool {
    match owners.get(object as usize) {
        None => false,
        Some(None) => true,
        Some(Some(owner)) => *owner == function,
    }
}

// Whether the steps of a function name no object that another one begins.
fn names_own(owners: &[Option<u32>], steps: &[&Step], function: u32) -> bool {
    for step in steps {
        if let Some(object) = named_by(*step) {
            if !is_free(owners, object, function) {
                return false;
            }
        }
    }
    true
}

fn all_names_own(
    alloc: Global,
    owners: &[Option<u32>],
    functions: &[Function],
) -> Result<bool, NoMemory> {
    let mut number = 0u32;
    for f in functions {
        let steps = in_order(alloc, &f.body)?;
        if !names_own(owners, &steps, number) {
            return Ok(false);
        }
        number = number.checked_add(1).ok_or(NoMemory)?;
    }
    Ok(true)
}

/// By region class, the function that begins the object of which it is the whole region. None where a function names an object that
/// another one begins.
pub fn owners_of(
    alloc: Global,
    functions: &[Function],
    classes: usize,
) -> Result<Option<Vec<Option<u32>>>, NoMemory> {
    let mut owners: Vec<Option<u32>> = Vec::new(alloc);
    for _ in 0..classes {
        owners.push(None)?;
    }
    let mut number = 0u32;
    for f in functions {
        let steps = in_order(alloc, &f.body)?;
        if !own_all(&mut owners, &steps, number) {
            return Ok(None);
        }
        number = number.checked_add(1).ok_or(NoMemory)?;
    }
    if all_names_own(alloc, &owners, functions)? {
        Ok(Some(owners))
    } else {
        Ok(None)
    }
}
