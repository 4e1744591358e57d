ghost use Rattle.intervals.specs.Intervals.{IsNear};

use crate::known::Known;
use crate::leaves::{agrees, is_character};
use crate::parts::{class_part, leaf_numbers, points_to_region, set_of};
use core_ir::{Leaf, LeafPart};
use intervals::{Interval, cast, join};
use stored_bounds::leaf_range;

/// What a load may find: nothing yet, the numbers that it may find, or any of its kind.
#[derive(Clone, Copy)]
pub(crate) enum Loaded {
    Nothing,
    Numbers(Interval),
    Anything,
}

// The numbers of a leaf class as those of a load.
fn as_loaded(leaf: Leaf, i: Interval) -> Interval
    requires near { IsNear i }
{
    match leaf {
        Leaf::Int(t) => return cast(t, i),
        Leaf::Pointer => return i,
    }
}

fn with_numbers(found: Loaded, i: Interval) -> Loaded {
    match found {
        Loaded::Nothing => return Loaded::Numbers(i),
        Loaded::Numbers(old) => return Loaded::Numbers(join(old, i)),
        Loaded::Anything => return Loaded::Anything,
    }
}

// What a load may find in a leaf class, joined to what it may find elsewhere. A load of a character finds a byte of any leaf.
fn with_leaf(facts: Known<'_>, found: Loaded, leaf: Leaf, part: &LeafPart) -> Loaded {
    if !agrees(leaf, part.leaf) {
        if is_character(leaf) {
            return Loaded::Anything;
        }
        return found;
    }
    match leaf_numbers(facts, part.class) {
        Some(i) => return with_numbers(found, as_loaded(leaf, i)),
        None => return found,
    }
}

fn with_class(facts: Known<'_>, found: Loaded, leaf: Leaf, class: u32) -> Loaded {
    let mut found = found;
    if let Some(part) = class_part(facts, class) {
        for one in &part.leaves {
            found = with_leaf(facts, found, leaf, one);
        }
    }
    found
}

/// What a load of a kind finds at an address: the numbers of the leaf classes that it may meet. It finds any of its kind where
/// nothing is known of the address, or where it reads a byte of something else.
pub(crate) fn load(facts: Known<'_>, address: u32, leaf: Leaf) -> Option<Interval> {
    if !points_to_region(facts, address) {
        return Some(leaf_range(leaf));
    }
    let mut found = Loaded::Nothing;
    for class in set_of(facts, address) {
        found = with_class(facts, found, leaf, *class);
    }
    match found {
        Loaded::Nothing => return None,
        Loaded::Numbers(i) => return Some(i),
        Loaded::Anything => return Some(leaf_range(leaf)),
    }
}

/// The shortest and the longest of the regions to which a register may point.
pub(crate) fn lengths(facts: Known<'_>, address: u32) -> Option<(u64, u64)> {
    let mut found = None;
    for class in set_of(facts, address) {
        if let Some(part) = class_part(facts, *class) {
            found = with_length(found, part.length);
        }
    }
    found
}

fn with_length(found: Option<(u64, u64)>, length: u64) -> Option<(u64, u64)> {
    match found {
        Some((shortest, longest)) => return Some((shortest.min(length), longest.max(length))),
        None => return Some((length, length)),
    }
}
