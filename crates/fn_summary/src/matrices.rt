// Lists of matrices as artifacts store them.

use core_ir::{Bounds, Register};
use std::alloc::Global;
use stored_bounds::{copied, joined, leaf_range, widened};
use sv_base::NoMemory;

pub(crate) type Range = (i128, i128);

pub(crate) fn copied_list(alloc: Global, list: &[Bounds]) -> Result<Vec<Bounds>, NoMemory> {
    let mut copy = Vec::new(alloc);
    for bounds in list {
        copy.push(copied(alloc, bounds)?)?;
    }
    Ok(copy)
}

/// Matrix by matrix the join of both.
pub(crate) fn joined_list(
    alloc: Global,
    a: &[Bounds],
    b: &[Bounds],
) -> Result<Vec<Bounds>, NoMemory> {
    let mut joins = Vec::new(alloc);
    for (left, right) in a.iter().zip(b) {
        joins.push(joined(alloc, left, right)?)?;
    }
    Ok(joins)
}

/// Matrix by matrix `old` widened by its join with `new`.
pub(crate) fn widened_list(
    alloc: Global,
    old: &[Bounds],
    new: &[Bounds],
    ranges: &[Vec<Range>],
) -> Result<Vec<Bounds>, NoMemory> {
    let mut list = Vec::new(alloc);
    for k in 0..old.len().min(new.len()).min(ranges.len()) {
        let join = joined(alloc, &old[k], &new[k])?;
        list.push(widened(alloc, &old[k], &join, &ranges[k])?)?;
    }
    Ok(list)
}

fn group_ranges(
    alloc: Global,
    registers: &[Register],
    group: &[u32],
) -> Result<Vec<Range>, NoMemory> {
    let mut ranges = Vec::new(alloc);
    for r in group {
        if let Some(register) = registers.get(*r as usize) {
            let range = leaf_range(register.leaf);
            ranges.push((range.low, range.high))?;
        }
    }
    Ok(ranges)
}

/// The ranges of registers, group by group.
pub(crate) fn ranges_of(
    alloc: Global,
    registers: &[Register],
    groups: &[Vec<u32>],
) -> Result<Vec<Vec<Range>>, NoMemory> {
    let mut list = Vec::new(alloc);
    for group in groups {
        list.push(group_ranges(alloc, registers, group)?)?;
    }
    Ok(list)
}

fn picked(alloc: Global, ranges: &[Range], group: &[u32]) -> Result<Vec<Range>, NoMemory> {
    let mut found = Vec::new(alloc);
    for r in group {
        if let Some(range) = ranges.get(*r as usize) {
            found.push(*range)?;
        }
    }
    Ok(found)
}

/// Of ranges by register those of each group.
pub(crate) fn picked_by_group(
    alloc: Global,
    ranges: &[Range],
    groups: &[Vec<u32>],
) -> Result<Vec<Vec<Range>>, NoMemory> {
    let mut list = Vec::new(alloc);
    for group in groups {
        list.push(picked(alloc, ranges, group)?)?;
    }
    Ok(list)
}
