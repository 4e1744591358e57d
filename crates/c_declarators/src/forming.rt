//! The types that declarators make (ISO/IEC 9899:1999, 6.7.5), once their sizes and parameters are known.

use crate::least::Least;
use crate::parameters::Params;
use crate::spots::part_spot;
use c_faults::{Spot, Stop};
use c_names::Checker;
use c_syntax::words;
use c_tree::{DeclCore, DeclPart, Declarator};
use c_typed::{TypeId, TypeKind};
use sqlite_items::Items;
use sv_base::{faults, limits};

/// What a part of a declarator says.
#[derive(Drop)]
pub enum PartValue {
    /// The number of an array's elements, where it is given.
    Size(Option<u64>),
    Params(Params),
    /// It has a fault.
    Refused,
}

/// The parts of a declarator, of the innermost one first, and how many of them are left.
#[derive(Drop)]
pub struct Left<'a> {
    pub values: &'a [PartValue],
    pub count: usize,
}

/// The type that a declarator makes of another one. Its own parts are the last of those that are left. None where there is a
/// fault. Faults that show at the name of the whole declarator, or where there is none at its specifiers, stand at `name`.
pub fn formed(
    checker: &mut Checker,
    base: TypeId,
    d: &Declarator,
    name: Spot,
    left: &mut Left<'_>,
    least: &mut Least,
) -> Result<Option<TypeId>, Stop> {
    let mut of = pointers(checker, base, d.pointers.as_slice())?;
    let parts = d.parts.as_slice();
    for back in 0..parts.len() {
        let part = &parts[parts.len() - 1 - back];
        match form_part(checker, of, part, name, left, least)? {
            Some(next) => of = next,
            None => return Ok(None),
        }
    }
    match &d.core {
        DeclCore::Nested(inner) => formed(checker, of, inner.get(), name, left, least),
        _ => Ok(Some(of)),
    }
}

fn pointers(checker: &mut Checker, base: TypeId, list: &[Items<u8>]) -> Result<TypeId, Stop> {
    let mut of = base;
    for qualifiers in list {
        of = checker.types.pointer_to(of)?;
        if is_volatile(qualifiers.as_slice()) {
            of = checker.types.qualified(of)?;
        }
    }
    Ok(of)
}

fn is_volatile(qualifiers: &[u8]) -> bool {
    for word in qualifiers {
        if *word == words::VOLATILE {
            return true;
        }
    }
    false
}

// The type that a part makes of another one.
fn form_part(
    checker: &mut Checker,
    of: TypeId,
    part: &DeclPart,
    name: Spot,
    left: &mut Left<'_>,
    least: &mut Least,
) -> Result<Option<TypeId>, Stop> {
    if left.count == 0 {
        return Ok(None);
    }
    left.count -= 1;
    let kind = checker.types.table.kind(of);
    match part {
        DeclPart::Array { .. } => {
            if !may_be_element(checker, of, kind, part_spot(part), name, least) {
                return Ok(None);
            }
            match left.values.get(left.count) {
                Some(PartValue::Size(count)) => form_array(checker, of, *count, name, least),
                _ => Ok(None),
            }
        }
        DeclPart::Params { .. } => {
            if !may_be_result(kind, part_spot(part), name, least) {
                return Ok(None);
            }
            match left.values.get(left.count) {
                Some(PartValue::Params(params)) => form_function(checker, of, params),
                _ => Ok(None),
            }
        }
    }
}

fn may_be_element(
    checker: &Checker,
    of: TypeId,
    kind: TypeKind,
    at: Spot,
    name: Spot,
    least: &mut Least,
) -> bool {
    if let TypeKind::Function(_) = kind {
        least.add(faults::SPECIFIERS, at);
        return false;
    }
    if !checker.types.table.is_complete(of) {
        least.add(faults::UNKNOWN_SIZE, name);
        return false;
    }
    true
}

fn may_be_result(kind: TypeKind, at: Spot, name: Spot, least: &mut Least) -> bool {
    match kind {
        TypeKind::Array(_, _) | TypeKind::Function(_) => {
            least.add(faults::SPECIFIERS, at);
            false
        }
        TypeKind::Record(_) => {
            least.add(faults::AGGREGATE_VALUE, name);
            false
        }
        _ => true,
    }
}

fn form_array(
    checker: &mut Checker,
    of: TypeId,
    count: Option<u64>,
    name: Spot,
    least: &mut Least,
) -> Result<Option<TypeId>, Stop> {
    let size = checker.types.table.size(of).unwrap_or(1);
    if size.saturating_mul(count.unwrap_or(0)) > limits::OBJECT_BYTES {
        least.add(faults::OBJECT_TOO_LARGE, name);
        return Ok(None);
    }
    Ok(Some(checker.types.array_of(of, count)?))
}

fn form_function(
    checker: &mut Checker,
    of: TypeId,
    params: &Params,
) -> Result<Option<TypeId>, Stop> {
    let types = Vec::from_slice(checker.alloc, params.types.as_slice())?;
    let result = checker.types.unqualified(of);
    Ok(Some(checker.types.function(result, types, params.dots)?))
}
