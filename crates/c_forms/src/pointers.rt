use crate::nodes::node;
use c_faults::{Spot, Stop, refuse};
use c_typed::{HeldExpr, TypeId, TypeKind, TypedKind, Types};
use sv_base::faults;

/// What an operand is to a sum or a subscript.
#[derive(Clone, Copy, Debug, PartialEq, Eq)]
pub enum Operand {
    Integer,
    /// A pointer to a complete object type, which has arithmetic (ISO/IEC 9899:1999, 6.5.6).
    Pointer(TypeId),
    Other,
}

pub fn operand_of(types: &Types, value: &HeldExpr) -> Operand {
    match types.table.kind(value.of()) {
        TypeKind::Int(_) => Operand::Integer,
        TypeKind::Pointer(to) => {
            if types.table.is_complete(to) {
                return Operand::Pointer(to);
            }
            Operand::Other
        }
        _ => Operand::Other,
    }
}

/// A pointer plus or minus an integer.
pub fn sum(
    types: &Types,
    pointer: HeldExpr,
    index: HeldExpr,
    minus: bool,
    swapped: bool,
    at: Spot,
) -> Result<HeldExpr, Stop> {
    let of = pointer.of();
    let kind = TypedKind::Sum {
        pointer: pointer.into_box(),
        index: index.into_box(),
        minus,
        swapped,
    };
    node(types, kind, of, at)
}

/// A sum with a pointer, in either order.
pub fn added(types: &Types, a: HeldExpr, b: HeldExpr, at: Spot) -> Result<HeldExpr, Stop> {
    match (operand_of(types, &a), operand_of(types, &b)) {
        (Operand::Pointer(_), Operand::Integer) => sum(types, a, b, false, false, at),
        (Operand::Integer, Operand::Pointer(_)) => sum(types, b, a, false, true, at),
        _ => refuse(faults::OPERANDS, at),
    }
}

/// A pointer minus an integer, or minus a pointer to a like type.
pub fn subtracted(types: &Types, a: HeldExpr, b: HeldExpr, at: Spot) -> Result<HeldExpr, Stop> {
    match (operand_of(types, &a), operand_of(types, &b)) {
        (Operand::Pointer(_), Operand::Integer) => sum(types, a, b, true, false, at),
        (Operand::Pointer(one), Operand::Pointer(other)) => {
            if types.table.alike(one, other) {
                return difference(types, a, b, at);
            }
            refuse(faults::OPERANDS, at)
        }
        _ => refuse(faults::OPERANDS, at),
    }
}

fn difference(types: &Types, a: HeldExpr, b: HeldExpr, at: Spot) -> Result<HeldExpr, Stop> {
    let kind = TypedKind::Minus(a.into_box(), b.into_box());
    node(types, kind, Types::int(c_values::IntType::Int), at)
}
