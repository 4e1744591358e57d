use crate::constants::integer;
use c_classes::{Node, NodeForm, Objects};
use c_typed::{TypeId, TypeKind, TypeTable, TypedExpr, TypedKind};
use std::alloc::Global;
use sv_base::NoMemory;

/// What an initialiser is looked up in.
#[derive(Clone, Copy)]
pub(crate) struct Context<'a> {
    pub(crate) alloc: Global,
    pub(crate) types: &'a TypeTable,
    pub(crate) objects: &'a Objects,
}

/// A place in a static object: the region at a path, and an offset in bytes from its start.
#[derive(Drop)]
pub(crate) struct Spot {
    pub(crate) object: u32,
    pub(crate) path: Vec<u32>,
    pub(crate) node: u32,
    pub(crate) offset: i128,
}

/// The value of a static initialiser of pointer type.
#[derive(Drop)]
pub(crate) enum Pointer {
    Null,
    /// An integer other than 0 that was converted.
    Wild(i128),
    Function(u32),
    Place(Spot),
}

// A sub-object that may be the one that is looked for: so many steps of the path stand before it, and then this one.
#[derive(Clone, Copy)]
struct Candidate {
    node: u32,
    offset: u64,
    depth: usize,
    step: Option<u32>,
}

fn is_pointer(types: &TypeTable, of: TypeId) -> bool {
    matches!(types.kind(of), TypeKind::Pointer(_))
}

fn is_function(types: &TypeTable, of: TypeId) -> bool {
    matches!(types.kind(of), TypeKind::Function(_))
}

// The bytes of what a pointer type points to.
fn target_size(types: &TypeTable, of: TypeId) -> u64 {
    match types.kind(of) {
        TypeKind::Pointer(target) => types.extent(target).size,
        _ => 0,
    }
}

// The element of an array that has the byte at the offset.
fn element_at(
    objects: &Objects,
    node: &Node,
    count: u64,
    stride: u64,
    at: Candidate,
) -> Option<Candidate> {
    if stride == 0 {
        return None;
    }
    let index = at.offset / stride;
    if index >= count {
        return None;
    }
    Some(Candidate {
        node: objects.kid(node, 0)?,
        offset: at.offset % stride,
        depth: at.depth.checked_add(1)?,
        step: Some(u32::try_from(index).ok()?),
    })
}

// A member, where it has the byte at the offset.
fn member_at(
    types: &TypeTable,
    objects: &Objects,
    node: &Node,
    position: u32,
    at: Candidate,
) -> Option<Candidate> {
    let kid = objects.kid(node, position)?;
    let member = objects.node(kid)?;
    let offset = at.offset.checked_sub(member.offset)?;
    if offset >= types.extent(member.of).size {
        return None;
    }
    Some(Candidate {
        node: kid,
        offset,
        depth: at.depth.checked_add(1)?,
        step: Some(position),
    })
}

// What to look at next in a sub-object, the first one last.
fn push_inner(
    types: &TypeTable,
    objects: &Objects,
    left: &mut Vec<Candidate>,
    at: Candidate,
) -> Result<(), NoMemory> {
    let Some(node) = objects.node(at.node) else {
        return Ok(());
    };
    match node.form {
        NodeForm::Scalar(_) => {}
        NodeForm::Array { count, stride } => {
            if let Some(inner) = element_at(objects, node, count, stride, at) {
                left.push(inner)?;
            }
        }
        NodeForm::Members { .. } => {
            let count = node.kids.end.saturating_sub(node.kids.first);
            for position in (0..count).rev() {
                if let Some(inner) = member_at(types, objects, node, position, at) {
                    left.push(inner)?;
                }
            }
        }
    }
    Ok(())
}

// Whether a sub-object starts at the offset and is like the type of this class.
fn is_wanted(types: &TypeTable, objects: &Objects, at: Candidate, class: u32) -> bool {
    match objects.node(at.node) {
        None => false,
        Some(node) => at.offset == 0 && types.class(node.of) == class,
    }
}

// The first sub-object of a region that starts at the offset of the place and is like the type, depth first.
fn sub_object(x: Context<'_>, spot: Spot, of: TypeId) -> Result<Spot, NoMemory> {
    let Spot {
        object,
        path,
        node,
        offset,
    } = spot;
    let mut path = path;
    let base = path.len();
    let mut left = Vec::new(x.alloc);
    left.push(Candidate {
        node,
        offset: u64::try_from(offset).unwrap_or(u64::MAX),
        depth: base,
        step: None,
    })?;
    let mut found = node;
    for _ in 0..u64::MAX {
        let Some(at) = left.pop() else {
            break;
        };
        found = at.node;
        if let Some(step) = at.step {
            path.truncate(at.depth.saturating_sub(1));
            path.push(step)?;
        }
        if is_wanted(x.types, x.objects, at, x.types.class(of)) {
            break;
        }
        push_inner(x.types, x.objects, &mut left, at)?;
    }
    Ok(Spot {
        object,
        path,
        node: found,
        offset: 0,
    })
}

fn nowhere(alloc: Global) -> Spot {
    Spot {
        object: 0,
        path: Vec::new(alloc),
        node: 0,
        offset: 0,
    }
}

// The place of a pointer that is known to be one.
fn spot_of(alloc: Global, pointer: Pointer) -> Spot {
    match pointer {
        Pointer::Place(spot) => spot,
        _ => nowhere(alloc),
    }
}

// A place further on, or further back, by so many elements.
fn moved(spot: Spot, count: i128, size: u64, minus: bool) -> Spot {
    let Spot {
        object,
        path,
        node,
        offset,
    } = spot;
    let bytes = count.checked_mul(i128::from(size)).unwrap_or(0);
    let sum = if minus {
        offset.checked_sub(bytes)
    } else {
        offset.checked_add(bytes)
    };
    Spot {
        object,
        path,
        node,
        offset: sum.unwrap_or(0),
    }
}

/// The value of a static initialiser of pointer type. Of what is no address constant (ISO/IEC 9899:1999, 6.6) it is some pointer.
#[cycle(addresses)]
pub(crate) fn pointer_value(e: &TypedExpr, x: Context<'_>) -> Result<Pointer, NoMemory> {
    match &e.kind {
        TypedKind::Convert(a) => {
            if is_pointer(x.types, a.of) {
                return pointer_value(a, x);
            }
            match integer(a, x.types) {
                None | Some(0) => Ok(Pointer::Null),
                Some(value) => Ok(Pointer::Wild(value)),
            }
        }
        TypedKind::Decay(a) => decayed(a, x),
        TypedKind::AddressOf(a) => address(a, x),
        TypedKind::Sum {
            pointer: base,
            index,
            minus,
            ..
        } => {
            let value = pointer_value(base, x)?;
            let size = target_size(x.types, base.of);
            let count = integer(index, x.types).unwrap_or(0);
            match value {
                Pointer::Place(spot) => Ok(Pointer::Place(moved(spot, count, size, *minus))),
                other => Ok(other),
            }
        }
        _ => Ok(Pointer::Null),
    }
}

// The pointer that an array or a function becomes.
#[cycle(addresses)]
fn decayed(a: &TypedExpr, x: Context<'_>) -> Result<Pointer, NoMemory> {
    match &a.kind {
        TypedKind::Function(number) => Ok(Pointer::Function(*number)),
        TypedKind::Deref(p, _) => {
            if is_function(x.types, a.of) {
                return pointer_value(p, x);
            }
            Ok(Pointer::Place(region(a, x)?))
        }
        _ => Ok(Pointer::Place(region(a, x)?)),
    }
}

// The address of an lvalue or a function.
#[cycle(addresses)]
fn address(a: &TypedExpr, x: Context<'_>) -> Result<Pointer, NoMemory> {
    match &a.kind {
        TypedKind::Function(number) => Ok(Pointer::Function(*number)),
        TypedKind::Deref(p, _) => pointer_value(p, x),
        _ => Ok(Pointer::Place(region(a, x)?)),
    }
}

// The region that an lvalue names.
#[cycle(addresses)]
fn region(a: &TypedExpr, x: Context<'_>) -> Result<Spot, NoMemory> {
    match &a.kind {
        TypedKind::Static(object) => Ok(Spot {
            object: *object,
            path: Vec::new(x.alloc),
            node: x.objects.root(*object).unwrap_or(0),
            offset: 0,
        }),
        TypedKind::Member(b, position) => {
            let whole = region(b, x)?;
            member(x, whole, *position)
        }
        TypedKind::Deref(p, _) => {
            let to = pointer_value(p, x)?;
            sub_object(x, spot_of(x.alloc, to), a.of)
        }
        _ => Ok(nowhere(x.alloc)),
    }
}

fn member(x: Context<'_>, whole: Spot, position: u32) -> Result<Spot, NoMemory> {
    let Spot {
        object,
        path,
        node,
        offset,
    } = whole;
    let mut path = path;
    path.push(position)?;
    let kid = match x.objects.node(node) {
        None => None,
        Some(around) => x.objects.kid(around, position),
    };
    Ok(Spot {
        object,
        path,
        node: kid.unwrap_or(node),
        offset,
    })
}
