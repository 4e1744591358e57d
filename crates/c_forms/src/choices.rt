use crate::constants::is_null;
use crate::conversions::{null, to_pointer};
use crate::integers::{to_int, usual};
use crate::nodes::node;
use c_faults::{Spot, Stop, refuse};
use c_typed::{HeldExpr, TypeId, TypeKind, TypedKind, Types};
use c_values::IntType;
use sv_base::faults;

/// A value that is tested has to be an integer or a pointer.
pub fn condition(types: &Types, value: &HeldExpr, at: Spot) -> Result<(), Stop> {
    match types.table.kind(value.of()) {
        TypeKind::Int(_) | TypeKind::Pointer(_) => Ok(()),
        _ => refuse(faults::OPERANDS, at),
    }
}

/// `a && b` (ISO/IEC 9899:1999, 6.5.13)
pub fn both(types: &Types, a: HeldExpr, b: HeldExpr, at: Spot) -> Result<HeldExpr, Stop> {
    condition(types, &a, at)?;
    condition(types, &b, at)?;
    let whole = TypedKind::Both(a.into_box(), b.into_box());
    node(types, whole, Types::int(IntType::Int), at)
}

/// `a || b` (6.5.14)
pub fn either(types: &Types, a: HeldExpr, b: HeldExpr, at: Spot) -> Result<HeldExpr, Stop> {
    condition(types, &a, at)?;
    condition(types, &b, at)?;
    let whole = TypedKind::Either(a.into_box(), b.into_box());
    node(types, whole, Types::int(IntType::Int), at)
}

/// `a, b` (6.5.17)
pub fn comma(types: &Types, a: HeldExpr, b: HeldExpr, at: Spot) -> Result<HeldExpr, Stop> {
    let of = b.of();
    let whole = TypedKind::Comma(a.into_box(), b.into_box());
    node(types, whole, of, at)
}

/// `c ? a : b` (6.5.15), whose condition was judged.
pub fn choose(
    types: &Types,
    c: HeldExpr,
    a: HeldExpr,
    b: HeldExpr,
    at: Spot,
) -> Result<HeldExpr, Stop> {
    match (types.table.kind(a.of()), types.table.kind(b.of())) {
        (TypeKind::Int(i), TypeKind::Int(j)) => {
            let kind = usual(i, j);
            let a = to_int(types, a, kind)?;
            let b = to_int(types, b, kind)?;
            made(types, c, a, b, Types::int(kind), at)
        }
        (TypeKind::Pointer(_), TypeKind::Pointer(_)) => {
            let of = a.of();
            let b = to_pointer(types, b, of)?;
            made(types, c, a, b, of, at)
        }
        (TypeKind::Pointer(_), TypeKind::Int(_)) => {
            let of = a.of();
            let b = zero(types, of, b, at)?;
            made(types, c, a, b, of, at)
        }
        (TypeKind::Int(_), TypeKind::Pointer(_)) => {
            let of = b.of();
            let a = zero(types, of, a, at)?;
            made(types, c, a, b, of, at)
        }
        (TypeKind::Void, TypeKind::Void) => made(types, c, a, b, Types::void(), at),
        _ => refuse(faults::OPERANDS, at),
    }
}

// The constant 0 beside a pointer, as a null pointer.
fn zero(types: &Types, of: TypeId, value: HeldExpr, at: Spot) -> Result<HeldExpr, Stop> {
    if is_null(&types.table, &value.node) {
        return null(types, of, value);
    }
    refuse(faults::OPERANDS, at)
}

fn made(
    types: &Types,
    c: HeldExpr,
    a: HeldExpr,
    b: HeldExpr,
    of: TypeId,
    at: Spot,
) -> Result<HeldExpr, Stop> {
    let whole = TypedKind::Choose(c.into_box(), a.into_box(), b.into_box());
    node(types, whole, of, at)
}
