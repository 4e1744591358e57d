// What is said of a function of which nothing better is known.

use core_ir::{Artifact, Bounds, CallPart, CoreProgram, Function, WritePart};
use round_facts::{Kept, Links};
use std::alloc::Global;
use stored_bounds::{entry_groups, leaf_range, result_groups, unbounded};
use sv_base::NoMemory;

fn ranges(alloc: Global, f: &Function, group: &[u32]) -> Result<Vec<(i128, i128)>, NoMemory> {
    let mut ranges = Vec::new(alloc);
    for r in group {
        if let Some(register) = f.registers.get(*r as usize) {
            let range = leaf_range(register.leaf);
            ranges.push((range.low, range.high))?;
        }
    }
    Ok(ranges)
}

fn tops(alloc: Global, f: &Function, groups: &[Vec<u32>]) -> Result<Vec<Bounds>, NoMemory> {
    let mut list = Vec::new(alloc);
    for group in groups {
        let ranges = ranges(alloc, f, group)?;
        list.push(unbounded(alloc, &ranges)?)?;
    }
    Ok(list)
}

// The context in which each argument may be any of its type.
fn any_context(
    alloc: Global,
    f: &Function,
    clusters: &[Vec<u32>],
) -> Result<Vec<Bounds>, NoMemory> {
    let groups = entry_groups(alloc, clusters, f.parameters)?;
    tops(alloc, f, &groups)
}

fn any_result(alloc: Global, f: &Function, clusters: &[Vec<u32>]) -> Result<Vec<Bounds>, NoMemory> {
    let groups = result_groups(alloc, clusters, f.parameters, f.result)?;
    tops(alloc, f, &groups)
}

fn any_calls(
    alloc: Global,
    core: &CoreProgram,
    kept: &Kept,
    called: &[u32],
) -> Result<Vec<CallPart>, NoMemory> {
    let mut calls = Vec::new(alloc);
    for callee in called {
        if let Some(g) = core.functions.get(*callee as usize) {
            let entry = any_context(alloc, g, kept.clusters_of(*callee))?;
            calls.push(CallPart {
                callee: *callee,
                entry,
            })?;
        }
    }
    Ok(calls)
}

fn any_writes(
    alloc: Global,
    core: &CoreProgram,
    written: &[u32],
) -> Result<Vec<WritePart>, NoMemory> {
    let mut writes = Vec::new(alloc);
    for class in written {
        if let Some(leaf) = core.classes.leaves.get(*class as usize) {
            let range = leaf_range(*leaf);
            writes.push(WritePart {
                class: *class,
                low: range.low,
                high: range.high,
            })?;
        }
    }
    Ok(writes)
}

/// Any context and any result, to each callee any arguments, and any value in each leaf class that the function may write.
pub(crate) fn top(
    alloc: Global,
    core: &CoreProgram,
    kept: &Kept,
    links: &Links,
    f: u32,
) -> Result<Artifact, NoMemory> {
    let Some(function) = core.functions.get(f as usize) else {
        return Ok(Artifact {
            changed: false,
            context: None,
            result: None,
            calls: Vec::new(alloc),
            writes: Vec::new(alloc),
        });
    };
    let clusters = kept.clusters_of(f);
    Ok(Artifact {
        changed: false,
        context: Some(any_context(alloc, function, clusters)?),
        result: Some(any_result(alloc, function, clusters)?),
        calls: any_calls(alloc, core, kept, links.called_by(f))?,
        writes: any_writes(alloc, core, links.written_by(f))?,
    })
}
