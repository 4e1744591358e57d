use crate::arithmetic::is_shift;
use crate::conversions::convert;
use crate::integers::{promote, promoted, to_int, usual};
use crate::nodes::node;
use crate::values::is_lvalue;
use c_faults::{Spot, Stop, refuse};
use c_typed::{HeldExpr, TypeId, TypeKind, TypedKind, Types};
use c_values::{IntType, Op};
use sv_base::faults;

/// What is assigned to has to be an lvalue of a complete type that is no array (ISO/IEC 9899:1999, 6.3.2.1). `const` is not
/// checked.
pub fn modifiable(types: &Types, target: &HeldExpr, at: Spot) -> Result<(), Stop> {
    let of = target.of();
    if !is_lvalue(&types.table, &target.node) || is_array(types, of) {
        return refuse(faults::NO_LVALUE, at);
    }
    if !types.table.is_complete(of) {
        return refuse(faults::NO_LVALUE, at);
    }
    Ok(())
}

fn is_array(types: &Types, of: TypeId) -> bool {
    match types.table.kind(of) {
        TypeKind::Array(_, _) => true,
        _ => false,
    }
}

/// `target = value` (6.5.16.1), whose target was judged.
pub fn assign(
    types: &Types,
    target: HeldExpr,
    value: HeldExpr,
    at: Spot,
) -> Result<HeldExpr, Stop> {
    let of = types.unqualified(target.of());
    let value = convert(types, value, of, at)?;
    let whole = TypedKind::Assign(target.into_box(), value.into_box());
    node(types, whole, of, at)
}

/// `target op= by` (6.5.16.2), whose target was judged. The value is the one before where `old`.
pub fn update(
    types: &Types,
    op: Op,
    target: HeldExpr,
    by: HeldExpr,
    old: bool,
    at: Spot,
) -> Result<HeldExpr, Stop> {
    let of = types.unqualified(target.of());
    match (types.table.kind(of), types.table.kind(by.of())) {
        (TypeKind::Int(i), TypeKind::Int(j)) => {
            let through = common(op, i, j);
            let by = counted(types, op, by, j, through)?;
            made(types, op, target, by, of, Types::int(through), old, at)
        }
        (TypeKind::Pointer(to), TypeKind::Int(_)) => {
            if is_sum(op) && types.table.is_complete(to) {
                return made(types, op, target, by, of, of, old, at);
            }
            refuse(faults::OPERANDS, at)
        }
        _ => refuse(faults::OPERANDS, at),
    }
}

// The type in which the operator is done.
fn common(op: Op, target: IntType, by: IntType) -> IntType {
    if is_shift(op) {
        return promote(target);
    }
    usual(target, by)
}

fn counted(
    types: &Types,
    op: Op,
    by: HeldExpr,
    kind: IntType,
    through: IntType,
) -> Result<HeldExpr, Stop> {
    if is_shift(op) {
        return promoted(types, by, kind);
    }
    to_int(types, by, through)
}

fn is_sum(op: Op) -> bool {
    match op {
        Op::Add | Op::Sub => true,
        _ => false,
    }
}

fn made(
    types: &Types,
    op: Op,
    target: HeldExpr,
    by: HeldExpr,
    of: TypeId,
    through: TypeId,
    old: bool,
    at: Spot,
) -> Result<HeldExpr, Stop> {
    let whole = TypedKind::Update {
        op,
        target: target.into_box(),
        by: by.into_box(),
        through,
        old,
    };
    node(types, whole, of, at)
}

/// `++` or `--`, before or behind its operand (6.5.2.4 and 6.5.3.1).
pub fn bump(
    types: &Types,
    target: HeldExpr,
    up: bool,
    before: bool,
    at: Spot,
) -> Result<HeldExpr, Stop> {
    counts(types, target.of(), at)?;
    modifiable(types, &target, at)?;
    let one = node(types, TypedKind::Constant(1), Types::int(IntType::Int), at)?;
    let op = if up { Op::Add } else { Op::Sub };
    update(types, op, target, one, !before, at)
}

fn counts(types: &Types, of: TypeId, at: Spot) -> Result<(), Stop> {
    match types.table.kind(of) {
        TypeKind::Array(_, _) | TypeKind::Function(_) => refuse(faults::NO_LVALUE, at),
        TypeKind::Int(_) => Ok(()),
        TypeKind::Pointer(to) => {
            if types.table.is_complete(to) {
                return Ok(());
            }
            refuse(faults::OPERANDS, at)
        }
        TypeKind::Void | TypeKind::Record(_) => refuse(faults::OPERANDS, at),
    }
}
