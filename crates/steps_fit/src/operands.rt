ghost use Rattle.std.specs.Prelude.{◌≡◌, ◌<◌, ◌^◌, ℤ, pos, length, IsTrue};
ghost use Rattle.c_values.specs.Operators.{is_shift};
ghost use Rattle.core_ir.specs.Programs.{function_of};
ghost use Rattle.core_ir.specs.Ranges.{within};
ghost use Rattle.core_ir.specs.StepsFit.{APointer, AnInteger, AnOperand, HoldsAll, HoldsWithin, IntegerIn, IsSize, MayHold, MayTake, OfSomeType, PutsIntegers, PutsLeaf, PutsOperand, PutsPointer, RightOperand, StoredFits, leaf_at};

use crate::ranges::{Range, includes, type_range};
use c_values::{IntType, Op};
use core_ir::{Function, Leaf, Operand};

// Constants are within this either way.
const NUMBERS: Range = (-18_446_744_073_709_551_616, 18_446_744_073_709_551_616);
// Sizes of elements are within this either way.
const SIZES: Range = (-1_073_741_824, 1_073_741_824);

/// What a register holds, if the function has it.
pub(crate) fn leaf_at(f: &Function, r: u32) -> Option<Leaf>
    ensures { result ≡ leaf_at (function_of f.now) r }
{
    match f.registers.get(r as usize) {
        Some(register) => Some(register.leaf),
        None => None,
    }
}

pub(crate) fn holds_within(range: Range, leaf: Option<Leaf>) -> bool
    ensures { IsTrue result → HoldsWithin range leaf }
{
    match leaf {
        Some(Leaf::Int(t)) => includes(range, type_range(t)),
        _ => false,
    }
}

pub(crate) fn holds_all(range: Range, leaf: Option<Leaf>) -> bool
    ensures { IsTrue result → HoldsAll range leaf }
{
    match leaf {
        Some(Leaf::Int(t)) => includes(type_range(t), range),
        _ => false,
    }
}

pub(crate) fn may_hold(to: Option<Leaf>, from: Option<Leaf>) -> bool
    ensures { IsTrue result → MayHold to from }
{
    match to {
        Some(Leaf::Int(t)) => holds_within(type_range(t), from),
        Some(Leaf::Pointer) => matches!(from, Some(Leaf::Pointer)),
        None => false,
    }
}

pub(crate) fn integer_in(f: &Function, range: Range, a: Operand) -> bool
    ensures { IsTrue result → IntegerIn (function_of f.now) range a }
{
    match a {
        Operand::Const(number) => includes(range, (number, number)),
        Operand::Reg(r) => holds_within(range, leaf_at(f, r)),
    }
}

pub(crate) fn is_integer(f: &Function, a: Operand) -> bool
    ensures { IsTrue result → AnInteger (function_of f.now) a }
{
    integer_in(f, NUMBERS, a)
}

pub(crate) fn is_pointer(f: &Function, r: u32) -> bool
    ensures { IsTrue result → APointer (function_of f.now) r }
{
    matches!(leaf_at(f, r), Some(Leaf::Pointer))
}

/// Whether an operand is a value of some integer type: two of the types have all values of the others.
pub(crate) fn of_some_type(f: &Function, a: Operand) -> bool
    ensures { IsTrue result → OfSomeType (function_of f.now) a }
{
    integer_in(f, type_range(IntType::ULongLong), a)
        || integer_in(f, type_range(IntType::LongLong), a)
}

pub(crate) fn is_operand(f: &Function, a: Operand) -> bool
    ensures { IsTrue result → AnOperand (function_of f.now) a }
{
    match a {
        Operand::Const(_) => is_integer(f, a),
        Operand::Reg(r) => (r as usize) < f.registers.len(),
    }
}

pub(crate) fn may_take(f: &Function, to: Option<Leaf>, a: Operand) -> bool
    ensures { IsTrue result → MayTake (function_of f.now) to a }
{
    match to {
        Some(Leaf::Int(t)) => integer_in(f, type_range(t), a),
        _ => match a {
            Operand::Const(_) => false,
            Operand::Reg(r) => may_hold(to, leaf_at(f, r)),
        },
    }
}

pub(crate) fn puts_integers(f: &Function, range: Range, to: u32) -> bool
    ensures { IsTrue result → PutsIntegers (function_of f.now) range to }
{
    f.parameters <= to && holds_all(range, leaf_at(f, to))
}

pub(crate) fn puts_pointer(f: &Function, to: u32) -> bool
    ensures { IsTrue result → PutsPointer (function_of f.now) to }
{
    f.parameters <= to && is_pointer(f, to)
}

pub(crate) fn puts_operand(f: &Function, to: u32, a: Operand) -> bool
    ensures { IsTrue result → PutsOperand (function_of f.now) to a }
{
    f.parameters <= to && may_take(f, leaf_at(f, to), a)
}

pub(crate) fn puts_leaf(f: &Function, leaf: Leaf, to: u32) -> bool
    ensures { IsTrue result → PutsLeaf (function_of f.now) leaf to }
{
    match leaf {
        Leaf::Int(t) => puts_integers(f, type_range(t), to),
        Leaf::Pointer => puts_pointer(f, to),
    }
}

pub(crate) fn is_size(size: i128) -> bool
    ensures { IsTrue result → IsSize size }
{
    size != 0 && includes(SIZES, (size, size))
}

fn is_shift(op: Op) -> bool
    ensures { result ≡ is_shift op }
{
    matches!(op, Op::Shl | Op::Shr)
}

/// Whether the right operand of an operator fits: of a shift it is a value of any type.
pub(crate) fn right_operand(f: &Function, op: Op, t: IntType, b: Operand) -> bool
    ensures { IsTrue result → RightOperand (function_of f.now) (is_shift op) t b }
{
    if is_shift(op) {
        of_some_type(f, b)
    } else {
        integer_in(f, type_range(t), b)
    }
}

pub(crate) fn stored_fits(f: &Function, leaf: Leaf, a: Operand) -> bool
    ensures { IsTrue result → StoredFits (function_of f.now) leaf a }
{
    match leaf {
        Leaf::Int(_) => is_integer(f, a),
        Leaf::Pointer => match a {
            Operand::Const(number) => number == 0,
            Operand::Reg(r) => is_pointer(f, r),
        },
    }
}
