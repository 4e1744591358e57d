ghost use Rattle.intervals.specs.Intervals.{IsIn, IsNear};

use crate::near::near_interval;
use c_values::{IntType, is_inside, width};
use core_ir::Leaf;
use intervals::{Interval, range_of};
use stored_bounds::leaf_range;

/// Whether an access of one kind uses a leaf of the other: both hold pointers, both `_Bool`, or both other integers of one
/// size. `_Bool` alone is one bit wide.
pub(crate) fn agrees(a: Leaf, b: Leaf) -> bool {
    match (a, b) {
        (Leaf::Pointer, Leaf::Pointer) => return true,
        (Leaf::Int(a), Leaf::Int(b)) => return width(a) == width(b),
        _ => return false,
    }
}

pub(crate) fn is_character(leaf: Leaf) -> bool {
    match leaf {
        Leaf::Int(IntType::Char | IntType::SChar | IntType::UChar) => return true,
        _ => return false,
    }
}

/// What a register that may hold the numbers of a range counts as when an external function gives it: any number, or offset 0
/// for a pointer, whose range is that of no integer type.
pub(crate) fn unknown_in(range: Interval) -> Interval
    ensures near { IsNear result }
{
    let offsets = leaf_range(Leaf::Pointer);
    if range.low == offsets.low && range.high == offsets.high {
        return near_interval(0, 0);
    }
    near_interval(range.low, range.high)
}

/// The numbers as values of a type: those of an operand lie in it; others count as any value.
pub(crate) fn in_type(t: IntType, i: Interval) -> Interval
    ensures inside { IsIn t result }
{
    if i.low <= i.high && is_inside(t, i.low) && is_inside(t, i.high) {
        return i;
    }
    range_of(t)
}
