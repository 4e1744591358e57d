use crate::integers::{promote, promoted, to_int, usual};
use crate::nodes::node;
use crate::pointers::{added, subtracted};
use c_faults::{Spot, Stop, refuse};
use c_typed::{HeldExpr, TypeKind, TypedKind, Types};
use c_values::{IntType, Op};
use sv_base::faults;

/// A binary operator of two values (ISO/IEC 9899:1999, 6.5.5 to 6.5.7 and 6.5.10 to 6.5.12).
pub fn binary(types: &Types, op: Op, a: HeldExpr, b: HeldExpr, at: Spot) -> Result<HeldExpr, Stop> {
    match (types.table.kind(a.of()), types.table.kind(b.of())) {
        (TypeKind::Int(i), TypeKind::Int(j)) => integers(types, op, (a, i), (b, j), at),
        _ => match op {
            Op::Add => added(types, a, b, at),
            Op::Sub => subtracted(types, a, b, at),
            _ => refuse(faults::OPERANDS, at),
        },
    }
}

fn integers(
    types: &Types,
    op: Op,
    left: (HeldExpr, IntType),
    right: (HeldExpr, IntType),
    at: Spot,
) -> Result<HeldExpr, Stop> {
    let (a, i) = left;
    let (b, j) = right;
    if is_shift(op) {
        let a = promoted(types, a, i)?;
        let b = promoted(types, b, j)?;
        return made(types, op, a, b, promote(i), at);
    }
    let kind = usual(i, j);
    let a = to_int(types, a, kind)?;
    let b = to_int(types, b, kind)?;
    made(types, op, a, b, kind, at)
}

/// Whether the result has the promoted type of the left operand (6.5.7).
pub fn is_shift(op: Op) -> bool {
    match op {
        Op::Shl | Op::Shr => true,
        _ => false,
    }
}

fn made(
    types: &Types,
    op: Op,
    a: HeldExpr,
    b: HeldExpr,
    kind: IntType,
    at: Spot,
) -> Result<HeldExpr, Stop> {
    let whole = TypedKind::Binary(op, a.into_box(), b.into_box());
    node(types, whole, Types::int(kind), at)
}
