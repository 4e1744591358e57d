use crate::nodes::{node, spot_of};
use c_faults::Stop;
use c_typed::{HeldExpr, TypeKind, TypedKind, Types};
use c_values::{IntType, is_signed, width};

// The integer conversion rank (ISO/IEC 9899:1999, 6.3.1.1).
fn rank(kind: IntType) -> u8 {
    match kind {
        IntType::Bool => 0,
        IntType::Char | IntType::SChar | IntType::UChar => 1,
        IntType::Short | IntType::UShort => 2,
        IntType::Int | IntType::UInt => 3,
        IntType::Long | IntType::ULong => 4,
        IntType::LongLong | IntType::ULongLong => 5,
    }
}

/// The type after the integer promotions (6.3.1.1). Each type of lower rank than `int` has values of `int` alone.
pub fn promote(kind: IntType) -> IntType {
    if rank(kind) < rank(IntType::Int) {
        return IntType::Int;
    }
    kind
}

/// The common type after the usual arithmetic conversions (6.3.1.8).
pub fn usual(one: IntType, other: IntType) -> IntType {
    let one = promote(one);
    let other = promote(other);
    match (is_signed(one), is_signed(other)) {
        (true, false) => of_two_signs(one, other),
        (false, true) => of_two_signs(other, one),
        _ => greater(one, other),
    }
}

fn greater(one: IntType, other: IntType) -> IntType {
    if rank(one) < rank(other) {
        return other;
    }
    one
}

fn of_two_signs(signed: IntType, unsigned: IntType) -> IntType {
    if rank(unsigned) >= rank(signed) {
        return unsigned;
    }
    if width(signed) > width(unsigned) {
        return signed;
    }
    unsigned_of(signed)
}

// The unsigned type of the rank of a promoted type.
fn unsigned_of(kind: IntType) -> IntType {
    match kind {
        IntType::Int => IntType::UInt,
        IntType::Long => IntType::ULong,
        IntType::LongLong => IntType::ULongLong,
        other => other,
    }
}

/// An integer converted to a type (6.3.1.3), by a conversion only where it has another.
pub fn to_int(types: &Types, value: HeldExpr, kind: IntType) -> Result<HeldExpr, Stop> {
    if types.table.kind(value.of()) == TypeKind::Int(kind) {
        return Ok(value);
    }
    let at = spot_of(&value);
    node(
        types,
        TypedKind::Convert(value.into_box()),
        Types::int(kind),
        at,
    )
}

/// An integer of this type after the integer promotions.
pub fn promoted(types: &Types, value: HeldExpr, kind: IntType) -> Result<HeldExpr, Stop> {
    to_int(types, value, promote(kind))
}
