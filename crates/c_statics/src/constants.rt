use c_typed::{TypeId, TypeKind, TypeTable, TypedExpr, TypedKind};
use c_values::{Cmp, IntType, Op, UnOp, apply, apply_unary, compare, convert, is_inside};

fn int_kind(types: &TypeTable, of: TypeId) -> Option<IntType> {
    match types.kind(of) {
        TypeKind::Int(kind) => Some(kind),
        _ => None,
    }
}

fn operated(op: Op, kind: IntType, a: i128, b: i128) -> Option<i128> {
    if !is_inside(kind, a) {
        return None;
    }
    match op {
        Op::Shl => apply(Op::Shl, kind, a, b).ok(),
        Op::Shr => apply(Op::Shr, kind, a, b).ok(),
        _ => {
            if !is_inside(kind, b) {
                return None;
            }
            apply(op, kind, a, b).ok()
        }
    }
}

fn unary_operated(op: UnOp, kind: IntType, a: i128) -> Option<i128> {
    if !is_inside(kind, a) {
        return None;
    }
    apply_unary(op, kind, a).ok()
}

fn truth(holds: bool) -> i128 {
    if holds { 1 } else { 0 }
}

fn compared(c: Cmp, a: i128, b: i128) -> i128 {
    truth(compare(c, a, b))
}

/// The value of an integer constant expression (ISO/IEC 9899:1999, 6.6). None where the expression is none, or has no value.
pub fn integer(e: &TypedExpr, types: &TypeTable) -> Option<i128> {
    let kind = int_kind(types, e.of)?;
    match &e.kind {
        TypedKind::Constant(value) => Some(*value),
        TypedKind::Convert(a) => Some(convert(kind, integer(a, types)?)),
        TypedKind::Unary(op, a) => unary_operated(*op, kind, integer(a, types)?),
        TypedKind::Binary(op, a, b) => {
            let left = integer(a, types)?;
            operated(*op, kind, left, integer(b, types)?)
        }
        TypedKind::Compare(c, a, b) => {
            let left = integer(a, types)?;
            Some(compared(*c, left, integer(b, types)?))
        }
        TypedKind::Not(a) => Some(truth(integer(a, types)? == 0)),
        TypedKind::Both(a, b) => match integer(a, types)? {
            0 => Some(0),
            _ => Some(truth(integer(b, types)? != 0)),
        },
        TypedKind::Either(a, b) => match integer(a, types)? {
            0 => Some(truth(integer(b, types)? != 0)),
            _ => Some(1),
        },
        TypedKind::Choose(c, a, b) => match integer(c, types)? {
            0 => integer(b, types),
            _ => integer(a, types),
        },
        _ => None,
    }
}
