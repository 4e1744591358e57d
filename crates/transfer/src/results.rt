use core_ir::{Bounds, CalleePart};
use std::alloc::Global;
use stored_bounds::{bound_at, closed, result_groups};
use sv_base::NoMemory;

/// What a bound of a callee's result speaks of.
#[derive(Clone, Copy, Debug, PartialEq, Eq)]
pub(crate) enum Side {
    Zero,
    /// An argument by its number.
    Argument(u32),
    Given,
}

/// `to - from` is at most `c` when the callee returns.
#[derive(Clone, Copy)]
pub(crate) struct ResultBound {
    pub(crate) from: Side,
    pub(crate) to: Side,
    pub(crate) c: i128,
}

fn side_of(register: u32, result_register: Option<u32>) -> Side {
    if Some(register) == result_register {
        return Side::Given;
    }
    Side::Argument(register)
}

// The sides of a group's variables, the constant zero first.
fn sides_of(
    alloc: Global,
    group: &[u32],
    result_register: Option<u32>,
) -> Result<Vec<Side>, NoMemory> {
    let mut sides = Vec::new(alloc);
    sides.push(Side::Zero)?;
    for r in group {
        sides.push(side_of(*r, result_register))?;
    }
    Ok(sides)
}

fn add_bounds(
    list: &mut Vec<ResultBound>,
    sides: &[Side],
    i: usize,
    from: Side,
    bounds: &Bounds,
) -> Result<(), NoMemory> {
    for (j, to) in sides.iter().enumerate() {
        if i != j {
            if let Some(c) = bound_at(bounds, i, j) {
                list.push(ResultBound { from, to: *to, c })?;
            }
        }
    }
    Ok(())
}

fn add_matrix(
    list: &mut Vec<ResultBound>,
    sides: &[Side],
    bounds: &Bounds,
) -> Result<(), NoMemory> {
    for (i, from) in sides.iter().enumerate() {
        add_bounds(list, sides, i, *from, bounds)?;
    }
    Ok(())
}

/// The bounds of a callee's result, closed; none where it does not return.
pub(crate) fn result_bounds(
    alloc: Global,
    part: &CalleePart,
) -> Result<Option<Vec<ResultBound>>, NoMemory> {
    let Some(matrices) = &part.result else {
        return Ok(None);
    };
    let groups = result_groups(alloc, &part.clusters, part.parameters, part.result_register)?;
    let mut list = Vec::new(alloc);
    for (group, stored) in groups.iter().zip(matrices) {
        let sides = sides_of(alloc, group, part.result_register)?;
        let bounds = closed(alloc, stored)?;
        add_matrix(&mut list, &sides, &bounds)?;
    }
    Ok(Some(list))
}
