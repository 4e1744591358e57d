// The state in which a body starts: entry registers as the context says, and every other register its range.

use c_values::Cmp;
use core_ir::{Bounds, Function, Operand};
use std::alloc::Global;
use stored_bounds::{bound_at, entry_groups, leaf_range};
use sv_base::NoMemory;
use var_state::{Layout, State};

fn layout(alloc: Global, f: &Function, clusters: &[Vec<u32>]) -> Result<Layout, NoMemory> {
    let mut own = Vec::new(alloc);
    for cluster in clusters {
        own.push(Vec::from_slice(alloc, cluster)?)?;
    }
    let mut ranges = Vec::new(alloc);
    for register in &f.registers {
        let range = leaf_range(register.leaf);
        ranges.push((range.low, range.high))?;
    }
    Ok(Layout {
        clusters: own,
        ranges,
    })
}

// Bounds `v_j - v_i`, where variable k is the register at k - 1 of the group, and variable 0 is zero.
fn add_bound(state: &mut State, group: &[u32], i: usize, j: usize, bound: i128) {
    match (i.checked_sub(1), j.checked_sub(1)) {
        (None, Some(j)) => {
            if let Some(r) = group.get(j) {
                state.assume(Cmp::Le, Operand::Reg(*r), Operand::Const(bound));
            }
        }
        (Some(i), None) => {
            if let Some(r) = group.get(i) {
                state.assume(
                    Cmp::Ge,
                    Operand::Reg(*r),
                    Operand::Const(bound.wrapping_neg()),
                );
            }
        }
        (Some(i), Some(j)) => {
            if let (Some(from), Some(to)) = (group.get(i), group.get(j)) {
                state.add_difference(*to, *from, bound);
            }
        }
        (None, None) => {}
    }
}

fn add_bounds(state: &mut State, group: &[u32], bounds: &Bounds) {
    for i in 0..group.len().saturating_add(1) {
        for j in 0..group.len().saturating_add(1) {
            if i != j {
                if let Some(bound) = bound_at(bounds, i, j) {
                    add_bound(state, group, i, j, bound);
                }
            }
        }
    }
}

/// The state in which the body starts.
pub(crate) fn entry_state(
    alloc: Global,
    f: &Function,
    clusters: &[Vec<u32>],
    context: &[Bounds],
) -> Result<State, NoMemory> {
    let layout = layout(alloc, f, clusters)?;
    let mut state = State::top(alloc, &layout)?;
    let groups = entry_groups(alloc, clusters, f.parameters)?;
    for (group, bounds) in groups.iter().zip(context) {
        add_bounds(&mut state, group, bounds);
    }
    Ok(state)
}
