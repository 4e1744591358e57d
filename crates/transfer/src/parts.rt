// What a step finds in the facts by number. Lists of the facts ascend, so that look-ups halve them.

ghost use Rattle.std.specs.Prelude.{IfSome};
ghost use Rattle.intervals.specs.Intervals.{IsNear};

use crate::known::Known;
use crate::near::near_interval;
use core_ir::{CalleePart, ClassPart, LeafPart};
use intervals::Interval;

/// The least number of a function in a set.
pub(crate) const FUNCTION: u32 = 2147483648;

/// The region classes and functions to which a register may point.
pub(crate) fn set_of<'a>(facts: Known<'a>, register: u32) -> &'a [u32] {
    match facts.sets.get(register as usize) {
        Some(set) => return set,
        None => return &[],
    }
}

/// Whether a register may point into a region.
pub(crate) fn points_to_region(facts: Known<'_>, register: u32) -> bool {
    match set_of(facts, register) {
        [first, ..] => return *first < FUNCTION,
        [] => return false,
    }
}

/// A region class; none for a function.
pub(crate) fn class_part<'a>(facts: Known<'a>, class: u32) -> Option<&'a ClassPart> {
    match facts
        .classes
        .binary_search_by_key(&class, |part| part.class)
    {
        Ok(at) => return facts.classes.get(at),
        Err(_) => return None,
    }
}

/// A leaf class of a region class.
pub(crate) fn leaf_part(part: &ClassPart, class: u32) -> Option<&LeafPart> {
    match part.leaves.binary_search_by_key(&class, |leaf| leaf.class) {
        Ok(at) => return part.leaves.get(at),
        Err(_) => return None,
    }
}

/// The numbers of a leaf class; none where it holds none yet.
pub(crate) fn leaf_numbers(facts: Known<'_>, class: u32) -> Option<Interval>
    ensures near { IfSome result IsNear }
{
    match facts.leaves.binary_search_by_key(&class, |part| part.class) {
        Ok(at) => return numbers_at(facts, at),
        Err(_) => return None,
    }
}

fn numbers_at(facts: Known<'_>, at: usize) -> Option<Interval>
    ensures near { IfSome result IsNear }
{
    match facts.leaves.get(at) {
        Some(part) => return Some(near_interval(part.low, part.high)),
        None => return None,
    }
}

pub(crate) fn callee_part<'a>(facts: Known<'a>, callee: u32) -> Option<&'a CalleePart> {
    match facts
        .callees
        .binary_search_by_key(&callee, |part| part.callee)
    {
        Ok(at) => return facts.callees.get(at),
        Err(_) => return None,
    }
}
