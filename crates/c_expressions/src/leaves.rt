//! Expressions without operands.

use c_faults::{Spot, Stop, refuse};
use c_forms::node;
use c_names::{Checker, Meaning};
use c_typed::{HeldExpr, TypedKind, Types};
use c_values::IntType;
use sv_base::{faults, limits};

/// A name (ISO/IEC 9899:1999, 6.5.1).
pub fn name(c: &mut Checker, name: u32, at: Spot) -> Result<HeldExpr, Stop> {
    if c.is_long_jump(name) {
        return refuse(faults::LONG_JUMP, at);
    }
    match c.look_up(name) {
        None => refuse(faults::UNDECLARED, at),
        Some(Meaning::Typedef(_)) => refuse(faults::DECLARED_OTHERWISE, at),
        Some(Meaning::Constant(value)) => number(c, value, IntType::Int, at),
        Some(Meaning::Object { number, of }) => node(&c.types, TypedKind::Local(number), of, at),
        Some(Meaning::Linked { number, of, .. }) => {
            c.use_linked(number);
            node(&c.types, TypedKind::Linked(number), of, at)
        }
    }
}

/// A constant with its type (6.4.4.1).
pub fn number(c: &Checker, value: i128, kind: IntType, at: Spot) -> Result<HeldExpr, Stop> {
    node(&c.types, TypedKind::Constant(value), Types::int(kind), at)
}

/// A text (6.4.5): an array of `char` with a zero at its end.
pub fn text(c: &mut Checker, bytes: &[u8], at: Spot) -> Result<HeldExpr, Stop> {
    let length = bytes.len() as u64;
    if length >= limits::OBJECT_BYTES {
        return refuse(faults::OBJECT_TOO_LARGE, at);
    }
    let of = c
        .types
        .array_of(Types::int(IntType::Char), Some(length + 1))?;
    let number = c.add_text(bytes, of, at)?;
    node(&c.types, TypedKind::Local(number), of, at)
}
