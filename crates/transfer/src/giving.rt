// What steps contribute, by the state before them.

ghost use Rattle.intervals.specs.Intervals.{IsNear};

use crate::calling::called;
use crate::gathered::Gathered;
use crate::known::Known;
use crate::leaves::{agrees, is_character};
use crate::operands::numbers;
use crate::parts::{callee_part, class_part, leaf_numbers, leaf_part, set_of};
use core_ir::{Bounds, Callee, CalleePart, ClassPart, Leaf, LeafPart, Operand};
use intervals::{Interval, cast, join};
use std::alloc::Global;
use stored_bounds::{closed, entry_groups, unknown};
use sv_base::NoMemory;
use var_state::State;

// Numbers as a leaf holds them.
fn as_stored(leaf: Leaf, i: Interval) -> Interval
    requires near { IsNear i }
{
    match leaf {
        Leaf::Int(t) => return cast(t, i),
        Leaf::Pointer => return i,
    }
}

// A store of a character writes a byte of any leaf.
fn store_to(
    gathered: &mut Gathered,
    part: &LeafPart,
    leaf: Leaf,
    i: Interval,
) -> Result<(), NoMemory>
    requires near { IsNear i }
{
    if agrees(part.leaf, leaf) {
        return gathered.give(part, as_stored(part.leaf, i));
    }
    if is_character(leaf) {
        return gathered.give(part, unknown(part.leaf));
    }
    Ok(())
}

fn store_in(
    gathered: &mut Gathered,
    part: &ClassPart,
    leaf: Leaf,
    i: Interval,
) -> Result<(), NoMemory>
    requires near { IsNear i }
{
    for one in &part.leaves {
        store_to(gathered, one, leaf, i)?;
    }
    Ok(())
}

/// A store contributes to the leaf classes at its address.
pub(crate) fn store(
    state: &State,
    address: u32,
    value: Operand,
    leaf: Leaf,
    facts: Known<'_>,
    gathered: &mut Gathered,
) -> Result<(), NoMemory> {
    let Some(i) = numbers(state, value) else {
        return Ok(());
    };
    for class in set_of(facts, address) {
        if let Some(part) = class_part(facts, *class) {
            store_in(gathered, part, leaf, i)?;
        }
    }
    Ok(())
}

/// The leaves of an object that begins are indeterminate.
pub(crate) fn begin(
    facts: Known<'_>,
    object: u32,
    gathered: &mut Gathered,
) -> Result<(), NoMemory> {
    if let Some(part) = class_part(facts, object) {
        for leaf in &part.leaves {
            gathered.give(leaf, unknown(leaf.leaf))?;
        }
    }
    Ok(())
}

fn with_more(found: Option<Interval>, more: Option<Interval>) -> Option<Interval> {
    match (found, more) {
        (Some(found), Some(more)) => return Some(join(found, more)),
        (Some(found), None) => return Some(found),
        (None, more) => return more,
    }
}

// Joins the numbers of leaf classes to those at their places.
fn add_sources(
    facts: Known<'_>,
    found: &mut Vec<Option<Interval>>,
    leaves: &[u32],
) -> Result<(), NoMemory> {
    for (i, class) in leaves.iter().enumerate() {
        let more = leaf_numbers(facts, *class);
        if let Some(place) = found.get_mut(i) {
            *place = with_more(*place, more);
        } else {
            found.push(more)?;
        }
    }
    Ok(())
}

// By leaf of the type, what the sub-objects of that type at an address hold.
fn sources(
    alloc: Global,
    facts: Known<'_>,
    from: u32,
    layout: u32,
) -> Result<Vec<Option<Interval>>, NoMemory> {
    let mut found = Vec::new(alloc);
    for class in set_of(facts, from) {
        if let Some(part) = class_part(facts, *class) {
            for one in &part.layouts {
                if one.layout == layout {
                    add_sources(facts, &mut found, &one.leaves)?;
                }
            }
        }
    }
    Ok(found)
}

fn copy_to(
    gathered: &mut Gathered,
    part: &ClassPart,
    leaves: &[u32],
    found: &[Option<Interval>],
) -> Result<(), NoMemory> {
    for (class, numbers) in leaves.iter().zip(found) {
        if let (Some(leaf), Some(i)) = (leaf_part(part, *class), numbers) {
            gathered.give(leaf, *i)?;
        }
    }
    Ok(())
}

/// An object copy contributes, leaf by leaf, what the sub-objects of the type at the one address hold to those at the other.
pub(crate) fn copy_object(
    alloc: Global,
    facts: Known<'_>,
    to: u32,
    from: u32,
    layout: u32,
    gathered: &mut Gathered,
) -> Result<(), NoMemory> {
    let found = sources(alloc, facts, from, layout)?;
    for class in set_of(facts, to) {
        if let Some(part) = class_part(facts, *class) {
            for one in &part.layouts {
                if one.layout == layout {
                    copy_to(gathered, part, &one.leaves, &found)?;
                }
            }
        }
    }
    Ok(())
}

// The argument of an entry register; where it is missing, nothing is bounded.
fn argument(args: &[Operand], r: u32) -> Option<Operand> {
    match args.get(r as usize) {
        Some(o) => return Some(*o),
        None => return None,
    }
}

fn high_of(state: &State, args: &[Operand], r: u32) -> Option<i128> {
    let i = numbers(state, argument(args, r)?)?;
    Some(i.high)
}

fn low_of(state: &State, args: &[Operand], r: u32) -> Option<i128> {
    let i = numbers(state, argument(args, r)?)?;
    Some(0i128.saturating_sub(i.low))
}

// The bound of one argument less another, where both are registers of one cluster.
fn difference_of(state: &State, args: &[Operand], from: u32, to: u32) -> Option<i128> {
    match (argument(args, from)?, argument(args, to)?) {
        (Operand::Reg(from), Operand::Reg(to)) => return state.difference(to, from),
        _ => return None,
    }
}

// The row of the constant zero: the greatest numbers of the arguments.
fn add_highs(
    list: &mut Vec<Option<i128>>,
    state: &State,
    args: &[Operand],
    group: &[u32],
) -> Result<(), NoMemory> {
    for r in group {
        list.push(high_of(state, args, *r))?;
    }
    Ok(())
}

// The row of an argument: its least number, negated, and the other arguments less it.
fn add_row(
    list: &mut Vec<Option<i128>>,
    state: &State,
    args: &[Operand],
    group: &[u32],
    from: u32,
) -> Result<(), NoMemory> {
    list.push(low_of(state, args, from))?;
    for to in group {
        if *to != from {
            list.push(difference_of(state, args, from, *to))?;
        }
    }
    Ok(())
}

// The bounds of the arguments of a group of entry registers, closed.
fn entry_bounds(
    alloc: Global,
    state: &State,
    args: &[Operand],
    group: &[u32],
) -> Result<Bounds, NoMemory> {
    let mut entries = Vec::new(alloc);
    add_highs(&mut entries, state, args, group)?;
    for from in group {
        add_row(&mut entries, state, args, group, *from)?;
    }
    let size = u8::try_from(group.len()).unwrap_or(0);
    closed(alloc, &Bounds { size, entries })
}

fn give_to(
    alloc: Global,
    state: &State,
    part: &CalleePart,
    args: &[Operand],
    gathered: &mut Gathered,
) -> Result<(), NoMemory> {
    if part.external {
        return Ok(());
    }
    let mut entry = Vec::new(alloc);
    let groups = entry_groups(alloc, &part.clusters, part.parameters)?;
    for group in &groups {
        entry.push(entry_bounds(alloc, state, args, group)?)?;
    }
    gathered.call(alloc, part.callee, entry)
}

/// A call contributes the bounds of its arguments to each defined callee.
pub(crate) fn call(
    alloc: Global,
    state: &State,
    callee: Callee,
    args: &[Operand],
    facts: Known<'_>,
    gathered: &mut Gathered,
) -> Result<(), NoMemory> {
    match callee {
        Callee::Direct(g) => match callee_part(facts, g.0) {
            Some(part) => give_to(alloc, state, part, args, gathered),
            None => Ok(()),
        },
        Callee::External(_) => Ok(()),
        Callee::Through { register, kind } => {
            for target in set_of(facts, register) {
                if let Some(part) = called(facts, *target, kind) {
                    give_to(alloc, state, part, args, gathered)?;
                }
            }
            Ok(())
        }
    }
}
