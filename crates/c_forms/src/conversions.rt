use crate::constants::is_null;
use crate::integers::to_int;
use crate::nodes::{node, spot_of};
use crate::values::is_lvalue;
use c_faults::{Spot, Stop, refuse};
use c_typed::{HeldExpr, TypeId, TypeKind, TypedKind, Types};
use sv_base::faults;

/// A null pointer of a type, in the place of a constant 0.
pub fn null(types: &Types, of: TypeId, zero: HeldExpr) -> Result<HeldExpr, Stop> {
    let at = spot_of(&zero);
    node(types, TypedKind::Null, of, at)
}

/// A pointer as one of a type, by a conversion only where it leads to another.
pub fn to_pointer(types: &Types, value: HeldExpr, of: TypeId) -> Result<HeldExpr, Stop> {
    if types.table.kind(value.of()) == types.table.kind(of) {
        return Ok(value);
    }
    let at = spot_of(&value);
    node(types, TypedKind::Convert(value.into_box()), of, at)
}

/// A value converted as by assignment to an object of a type (ISO/IEC 9899:1999, 6.5.16.1). Pointers convert to each other,
/// and constant 0 to a pointer. The fault stands at the token.
pub fn convert(types: &Types, value: HeldExpr, to: TypeId, at: Spot) -> Result<HeldExpr, Stop> {
    let to = types.unqualified(to);
    match (types.table.kind(to), types.table.kind(value.of())) {
        (TypeKind::Int(kind), TypeKind::Int(_)) => to_int(types, value, kind),
        (TypeKind::Pointer(_), TypeKind::Pointer(_)) => to_pointer(types, value, to),
        (TypeKind::Pointer(_), TypeKind::Int(_)) => {
            if is_null(&types.table, &value.node) {
                return null(types, to, value);
            }
            refuse(faults::CONVERSION, at)
        }
        (TypeKind::Record(_), TypeKind::Record(_)) => record(types, value, to, at),
        _ => refuse(faults::CONVERSION, at),
    }
}

// A structure is taken from an lvalue of a like one.
fn record(types: &Types, value: HeldExpr, to: TypeId, at: Spot) -> Result<HeldExpr, Stop> {
    if !is_lvalue(&types.table, &value.node) {
        return refuse(faults::CONVERSION, at);
    }
    if !types.table.alike(value.of(), to) {
        return refuse(faults::CONVERSION, at);
    }
    if !types.table.is_complete(to) {
        return refuse(faults::UNKNOWN_SIZE, at);
    }
    Ok(value)
}

/// A cast (6.5.4): between integers and pointers, and to void.
pub fn cast(types: &Types, value: HeldExpr, to: TypeId, at: Spot) -> Result<HeldExpr, Stop> {
    let to = types.unqualified(to);
    match (types.table.kind(to), types.table.kind(value.of())) {
        (TypeKind::Void, _) => converted(types, value, Types::void(), at),
        (TypeKind::Int(_), TypeKind::Int(_)) => converted(types, value, to, at),
        (TypeKind::Int(_), TypeKind::Pointer(_)) => converted(types, value, to, at),
        (TypeKind::Pointer(_), TypeKind::Pointer(_)) => converted(types, value, to, at),
        (TypeKind::Pointer(_), TypeKind::Int(_)) => {
            if is_null(&types.table, &value.node) {
                return node(types, TypedKind::Null, to, at);
            }
            converted(types, value, to, at)
        }
        _ => refuse(faults::CONVERSION, at),
    }
}

fn converted(types: &Types, value: HeldExpr, to: TypeId, at: Spot) -> Result<HeldExpr, Stop> {
    node(types, TypedKind::Convert(value.into_box()), to, at)
}
