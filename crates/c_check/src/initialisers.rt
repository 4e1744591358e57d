use crate::filling::Filling;
use c_faults::{Spot, Stop, refuse};
use c_names::Checker;
use c_tree::Initialiser;
use c_typed::{InitialPart, TypeId, TypeKind};
use sv_base::{faults, limits};

/// An object's initialiser.
#[derive(Drop)]
pub struct Initialised {
    /// The object's type, with its size.
    pub of: TypeId,
    pub parts: Vec<InitialPart>,
}

/// Checks the initialiser (ISO/IEC 9899:1999, 6.7.8) of an object whose name in its declaration is given.
pub fn initialise(
    of: TypeId,
    initial: &Initialiser,
    is_static: bool,
    name: Spot,
    checker: &mut Checker,
) -> Result<Initialised, Stop> {
    if let TypeKind::Array(element, None) = checker.types.table.kind(of) {
        if !checker.types.table.is_complete(element) {
            return refuse(faults::UNKNOWN_SIZE, name);
        }
    }
    let around = checker.set_static(is_static);
    let mut filling = Filling::new(checker, is_static);
    filling.fill(initial, of, &[], checker)?;
    checker.set_static(around);
    let whole = with_size(of, filling.extent, name, checker)?;
    let parts = staying(filling, of, checker)?;
    Ok(Initialised { of: whole, parts })
}

// An array without a size has the size that its initialiser reached.
fn with_size(of: TypeId, extent: u64, name: Spot, checker: &mut Checker) -> Result<TypeId, Stop> {
    let TypeKind::Array(element, None) = checker.types.table.kind(of) else {
        return Ok(of);
    };
    let size = checker.types.table.size(element).unwrap_or(1);
    if size.saturating_mul(extent) > limits::OBJECT_BYTES {
        return refuse(faults::OBJECT_TOO_LARGE, name);
    }
    Ok(checker.types.array_of(element, Some(extent))?)
}

// The values that were not given anew.
fn staying(filling: Filling, of: TypeId, checker: &Checker) -> Result<Vec<InitialPart>, Stop> {
    let Filling {
        parts,
        overrides,
        ..
    } = filling;
    if overrides.is_empty() {
        return Ok(parts.list);
    }
    let stays = overrides.staying(
        checker.alloc,
        &checker.types.table,
        of,
        parts.list.as_slice(),
    )?;
    let mut kept = Vec::new(checker.alloc);
    for (part, stays) in parts.list.into_iter().zip(stays.into_iter()) {
        if stays {
            kept.push(part)?;
        }
    }
    Ok(kept)
}
