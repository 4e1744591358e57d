use crate::constants::is_null;
use crate::conversions::null;
use crate::integers::{to_int, usual};
use crate::nodes::node;
use c_faults::{Spot, Stop, refuse};
use c_typed::{HeldExpr, TypeId, TypeKind, TypedKind, Types};
use c_values::{Cmp, IntType};
use sv_base::faults;

/// A comparison of two values (ISO/IEC 9899:1999, 6.5.8 and 6.5.9).
pub fn compare(
    types: &Types,
    op: Cmp,
    a: HeldExpr,
    b: HeldExpr,
    at: Spot,
) -> Result<HeldExpr, Stop> {
    match (types.table.kind(a.of()), types.table.kind(b.of())) {
        (TypeKind::Int(i), TypeKind::Int(j)) => {
            let kind = usual(i, j);
            let a = to_int(types, a, kind)?;
            let b = to_int(types, b, kind)?;
            made(types, op, a, b, at)
        }
        (TypeKind::Pointer(to), TypeKind::Pointer(of)) => {
            if is_equality(op) || are_objects(types, to, of) {
                return made(types, op, a, b, at);
            }
            refuse(faults::OPERANDS, at)
        }
        (TypeKind::Pointer(_), TypeKind::Int(_)) => {
            let of = a.of();
            let b = zero(types, op, of, b, at)?;
            made(types, op, a, b, at)
        }
        (TypeKind::Int(_), TypeKind::Pointer(_)) => {
            let of = b.of();
            let a = zero(types, op, of, a, at)?;
            made(types, op, a, b, at)
        }
        _ => refuse(faults::OPERANDS, at),
    }
}

fn is_equality(op: Cmp) -> bool {
    match op {
        Cmp::Eq | Cmp::Ne => true,
        _ => false,
    }
}

fn are_objects(types: &Types, one: TypeId, other: TypeId) -> bool {
    match (types.table.kind(one), types.table.kind(other)) {
        (TypeKind::Function(_), _) => false,
        (_, TypeKind::Function(_)) => false,
        _ => true,
    }
}

// The constant 0 to which a pointer is compared, as a null pointer.
fn zero(types: &Types, op: Cmp, of: TypeId, value: HeldExpr, at: Spot) -> Result<HeldExpr, Stop> {
    if is_equality(op) && is_null(&types.table, &value.node) {
        return null(types, of, value);
    }
    refuse(faults::OPERANDS, at)
}

fn made(types: &Types, op: Cmp, a: HeldExpr, b: HeldExpr, at: Spot) -> Result<HeldExpr, Stop> {
    let whole = TypedKind::Compare(op, a.into_box(), b.into_box());
    node(types, whole, Types::int(IntType::Int), at)
}
