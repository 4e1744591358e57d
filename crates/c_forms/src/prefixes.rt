use crate::choices::condition;
use crate::integers::{promote, promoted};
use crate::nodes::node;
use c_faults::{Spot, Stop, refuse};
use c_typed::{HeldExpr, TypeId, TypeKind, TypedKind, Types};
use c_values::{IntType, UnOp};
use sv_base::faults;

fn integer(types: &Types, value: &HeldExpr, at: Spot) -> Result<IntType, Stop> {
    match types.table.kind(value.of()) {
        TypeKind::Int(kind) => Ok(kind),
        _ => refuse(faults::OPERANDS, at),
    }
}

/// `+a` (ISO/IEC 9899:1999, 6.5.3.3)
pub fn plus(types: &Types, value: HeldExpr, at: Spot) -> Result<HeldExpr, Stop> {
    let kind = integer(types, &value, at)?;
    promoted(types, value, kind)
}

/// `-a` and `~a` (6.5.3.3)
pub fn unary(types: &Types, op: UnOp, value: HeldExpr, at: Spot) -> Result<HeldExpr, Stop> {
    let kind = integer(types, &value, at)?;
    let value = promoted(types, value, kind)?;
    let of = Types::int(promote(kind));
    node(types, TypedKind::Unary(op, value.into_box()), of, at)
}

/// `!a` (6.5.3.3)
pub fn negate(types: &Types, value: HeldExpr, at: Spot) -> Result<HeldExpr, Stop> {
    condition(types, &value, at)?;
    let of = Types::int(IntType::Int);
    node(types, TypedKind::Not(value.into_box()), of, at)
}

/// `sizeof` a type (6.5.3.4), an `unsigned int`.
pub fn size_of(types: &Types, of: TypeId, at: Spot) -> Result<HeldExpr, Stop> {
    match types.table.size(of) {
        Some(bytes) => {
            let value = TypedKind::Constant(bytes as i128);
            node(types, value, Types::int(IntType::UInt), at)
        }
        None => refuse(faults::UNKNOWN_SIZE, at),
    }
}
