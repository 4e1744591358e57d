// The context of a function in a round: what its callers contribute, joined, and for an entry what the environment may pass.

use crate::basis::Past;
use core_ir::{Bounds, CoreProgram, Function, Leaf};
use round_facts::Contribution;
use std::alloc::Global;
use stored_bounds::{closed, entry_groups, joined, leaf_range, unbounded};
use sv_base::NoMemory;

fn closed_list(alloc: Global, list: &[Bounds]) -> Result<Vec<Bounds>, NoMemory> {
    let mut copy = Vec::new(alloc);
    for bounds in list {
        copy.push(closed(alloc, bounds)?)?;
    }
    Ok(copy)
}

fn joined_list(alloc: Global, a: &[Bounds], b: &[Bounds]) -> Result<Vec<Bounds>, NoMemory> {
    let mut joins = Vec::new(alloc);
    for (left, right) in a.iter().zip(b) {
        joins.push(joined(alloc, left, right)?)?;
    }
    Ok(joins)
}

// A contribution joins those before it.
fn joined_with(
    alloc: Global,
    context: Option<Vec<Bounds>>,
    more: &[Bounds],
) -> Result<Option<Vec<Bounds>>, NoMemory> {
    match context {
        None => Ok(Some(closed_list(alloc, more)?)),
        Some(context) => Ok(Some(joined_list(alloc, &context, more)?)),
    }
}

// What the environment may pass for a parameter: any integer of its type, and pointers of offset 0.
fn entry_range(leaf: Leaf) -> (i128, i128) {
    match leaf {
        Leaf::Pointer => (0, 0),
        Leaf::Int(_) => {
            let range = leaf_range(leaf);
            (range.low, range.high)
        }
    }
}

fn entry_bounds(alloc: Global, f: &Function, group: &[u32]) -> Result<Bounds, NoMemory> {
    let mut ranges = Vec::new(alloc);
    for r in group {
        if let Some(register) = f.registers.get(*r as usize) {
            ranges.push(entry_range(register.leaf))?;
        }
    }
    closed(alloc, &unbounded(alloc, &ranges)?)
}

// The context of a function that the environment calls.
fn entry_context(
    alloc: Global,
    f: &Function,
    clusters: &[Vec<u32>],
) -> Result<Vec<Bounds>, NoMemory> {
    let mut context = Vec::new(alloc);
    let groups = entry_groups(alloc, clusters, f.parameters)?;
    for group in &groups {
        context.push(entry_bounds(alloc, f, group)?)?;
    }
    Ok(context)
}

fn is_entry(core: &CoreProgram, f: u32) -> bool {
    core.entries.iter().any(|entry| entry.0 == f)
}

fn entry_of(past: &Past, contribution: Contribution) -> Option<&[Bounds]> {
    let artifact = past.summary_of(contribution.caller)?;
    Some(artifact.calls.get(contribution.place)?.entry.as_slice())
}

/// The context of a function, none where nothing calls it.
pub(crate) fn context(
    alloc: Global,
    core: &CoreProgram,
    past: &Past,
    f: u32,
    function: &Function,
) -> Result<Option<Vec<Bounds>>, NoMemory> {
    let mut context = None;
    if let Some(list) = past.contributions.get(f as usize) {
        for contribution in list {
            if let Some(entry) = entry_of(past, *contribution) {
                context = joined_with(alloc, context, entry)?;
            }
        }
    }
    if is_entry(core, f) {
        let entry = entry_context(alloc, function, past.kept.clusters_of(f))?;
        context = joined_with(alloc, context, &entry)?;
    }
    Ok(context)
}
