use crate::conversions::convert;
use crate::integers::promoted;
use crate::nodes::node;
use c_faults::{Spot, Stop, refuse};
use c_typed::{HeldExpr, HeldExprs, TypeId, TypeKind, TypedKind, Types};
use sv_base::{faults, limits};

/// The type of the function that a value leads to (ISO/IEC 9899:1999, 6.5.2.2).
pub fn callee(types: &Types, function: &HeldExpr, at: Spot) -> Result<TypeId, Stop> {
    match types.table.kind(function.of()) {
        TypeKind::Pointer(to) => match types.table.kind(to) {
            TypeKind::Function(_) => Ok(to),
            _ => refuse(faults::OPERANDS, at),
        },
        _ => refuse(faults::OPERANDS, at),
    }
}

/// The number of arguments has to be that of the parameters, or with `...` at least as great.
pub fn counted(types: &Types, function: TypeId, arguments: usize, at: Spot) -> Result<(), Stop> {
    let parameters = types.table.params(function).len();
    if arguments < parameters {
        return refuse(faults::ARGUMENT_COUNT, at);
    }
    if parameters < arguments && !types.table.has_dots(function) {
        return refuse(faults::ARGUMENT_COUNT, at);
    }
    Ok(())
}

/// An argument, counted from 0, as by assignment to its parameter, or behind the last one promoted (6.5.2.2).
pub fn argument(
    types: &Types,
    function: TypeId,
    number: usize,
    value: HeldExpr,
    at: Spot,
) -> Result<HeldExpr, Stop> {
    let passed = match parameter(types, function, number) {
        Some(of) => convert(types, value, of, at)?,
        None => further(types, value, at)?,
    };
    if number >= limits::PARAMETERS {
        return refuse(faults::TOO_MANY_PARAMETERS, at);
    }
    Ok(passed)
}

fn parameter(types: &Types, function: TypeId, number: usize) -> Option<TypeId> {
    types.table.params(function).get(number).copied()
}

fn further(types: &Types, value: HeldExpr, at: Spot) -> Result<HeldExpr, Stop> {
    match types.table.kind(value.of()) {
        TypeKind::Int(kind) => promoted(types, value, kind),
        TypeKind::Pointer(_) => Ok(value),
        _ => refuse(faults::CONVERSION, at),
    }
}

/// A call, whose callee and arguments were judged.
pub fn call(
    types: &Types,
    function: HeldExpr,
    of: TypeId,
    arguments: HeldExprs,
    at: Spot,
) -> Result<HeldExpr, Stop> {
    let gives = match types.table.kind(of) {
        TypeKind::Function(gives) => gives,
        _ => return refuse(faults::OPERANDS, at),
    };
    let whole = TypedKind::Call(function.into_box(), arguments.into_list());
    node(types, whole, gives, at)
}
