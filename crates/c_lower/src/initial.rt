//! Initialisers of automatic objects (ISO/IEC 9899:1999, 6.7.8).

use crate::code::Code;
use crate::context::{Context, is_record, leaf_of, members_of, size_of};
use crate::rest::store_rest;
use crate::uses::names;
use crate::values::{copy_object, place, value};
use c_typed::{InitialPart, TypeId, TypeKind, TypedObject};
use core_ir::{Leaf, Operand, Step, Value};
use sv_base::{FrontFault, NoMemory};

/// Whether an object begins as initialised: it has an initialiser that does not name it.
pub(crate) fn begins_initialised(x: Context<'_>, object: u32) -> Result<bool, NoMemory> {
    let Some(of) = x.object(object) else {
        return Ok(false);
    };
    let Some(parts) = &of.initial else {
        return Ok(false);
    };
    for part in parts {
        if names(x.alloc, &part.value, object)? {
            return Ok(false);
        }
    }
    Ok(true)
}

/// The initialiser of an object is evaluated, and all its leaves are stored.
pub(crate) fn start(x: Context<'_>, c: &mut Code, object: u32) -> Result<(), FrontFault> {
    let Some(of) = x.object(object) else {
        return Ok(());
    };
    let Some(parts) = &of.initial else {
        return Ok(());
    };
    match x.register(object) {
        Some(r) => start_register(x, c, r, parts),
        None => start_object(x, c, object, of, parts),
    }
}

fn start_register(
    x: Context<'_>,
    c: &mut Code,
    r: u32,
    parts: &[InitialPart],
) -> Result<(), FrontFault> {
    for part in parts {
        let operand = value(&part.value, x, c, true)?;
        c.set(r, Value::Copy(operand))?;
    }
    Ok(())
}

fn start_object(
    x: Context<'_>,
    c: &mut Code,
    object: u32,
    of: &TypedObject,
    parts: &[InitialPart],
) -> Result<(), FrontFault> {
    for part in parts {
        store_part(x, c, object, of.of, part)?;
    }
    store_rest(x, c, object, of.of, parts)
}

// The type of the sub-object at a path.
fn type_at(x: Context<'_>, of: TypeId, path: &[u32]) -> TypeId {
    let mut at = of;
    for step in path {
        at = type_inside(x, at, *step);
    }
    at
}

// The type of an element or a member; the type itself where it has none.
pub(crate) fn type_inside(x: Context<'_>, of: TypeId, step: u32) -> TypeId {
    match x.types().kind(of) {
        TypeKind::Array(element, _) => element,
        TypeKind::Record(record) => match members_of(x.types(), record).get(step as usize) {
            None => of,
            Some(member) => member.of,
        },
        _ => of,
    }
}

// One part: a structure is copied, a scalar stored.
fn store_part(
    x: Context<'_>,
    c: &mut Code,
    object: u32,
    of: TypeId,
    part: &InitialPart,
) -> Result<(), FrontFault> {
    let at = type_at(x, of, &part.path);
    if is_record(x.types(), at) {
        let from = place(&part.value, x, c, None)?;
        let to = address_at(x, c, object, of, &part.path)?;
        return copy_object(x, c, to, from, at);
    }
    let operand = value(&part.value, x, c, true)?;
    store_at(
        x,
        c,
        object,
        of,
        &part.path,
        operand,
        leaf_of(x.types(), at),
    )
}

/// Stores an operand in the leaf at a path of an object.
pub(crate) fn store_at(
    x: Context<'_>,
    c: &mut Code,
    object: u32,
    of: TypeId,
    path: &[u32],
    operand: Operand,
    leaf: Leaf,
) -> Result<(), FrontFault> {
    let address = address_at(x, c, object, of, path)?;
    c.step(Step::Store {
        address,
        value: operand,
        leaf,
    })
}

// The address of the sub-object at a path.
fn address_at(
    x: Context<'_>,
    c: &mut Code,
    object: u32,
    of: TypeId,
    path: &[u32],
) -> Result<u32, FrontFault> {
    let mut address = c.put_pointer(Value::Address(x.region(object)))?;
    let mut at = of;
    for step in path {
        address = match x.types().kind(at) {
            TypeKind::Array(element, _) => element_at(x, c, address, element, *step)?,
            _ => part_at(x, c, address, at, Some(*step))?,
        };
        at = type_inside(x, at, *step);
    }
    Ok(address)
}

fn element_at(
    x: Context<'_>,
    c: &mut Code,
    base: u32,
    element: TypeId,
    index: u32,
) -> Result<u32, FrontFault> {
    let to = c.new_temporary(Leaf::Pointer)?;
    let size = u32::try_from(size_of(x.types(), element)).unwrap_or(0);
    c.step(Step::Sum {
        to,
        base,
        index: Operand::Const(i128::from(index)),
        size: i64::from(size),
    })?;
    match x.types().kind(element) {
        TypeKind::Array(_, _) => part_at(x, c, to, element, None),
        _ => Ok(to),
    }
}

fn part_at(
    x: Context<'_>,
    c: &mut Code,
    address: u32,
    of: TypeId,
    member: Option<u32>,
) -> Result<u32, FrontFault> {
    let to = c.new_temporary(Leaf::Pointer)?;
    let part = c.numbers.part(x.types().class(of), member)?;
    c.step(Step::Sub { to, address, part })?;
    Ok(to)
}
