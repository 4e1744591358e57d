// What functions contribute to one another.

use core_ir::{Artifact, CoreProgram, WritePart};
use intervals::{Interval, join};
use std::alloc::Global;
use sv_base::NoMemory;

/// A contribution to the context of a function: the caller, and the place of the contribution in its summary.
#[derive(Clone, Copy, Debug, PartialEq, Eq)]
pub struct Contribution {
    pub caller: u32,
    pub place: usize,
}

fn add_calls(
    lists: &mut Vec<Vec<Contribution>>,
    artifact: &Artifact,
    caller: u32,
) -> Result<(), NoMemory> {
    for place in 0..artifact.calls.len() {
        let callee = artifact.calls[place].callee;
        if let Some(list) = lists.get_mut(callee as usize) {
            list.push(Contribution { caller, place })?;
        }
    }
    Ok(())
}

/// By function what its callers contribute to its context, in the order of the callers.
pub fn contributions(
    alloc: Global,
    summaries: &[Option<Artifact>],
) -> Result<Vec<Vec<Contribution>>, NoMemory> {
    let mut lists = Vec::new(alloc);
    for _function in 0..summaries.len() {
        lists.push(Vec::new(alloc))?;
    }
    for k in 0..summaries.len().min(4294967295) {
        if let Some(artifact) = &summaries[k] {
            add_calls(&mut lists, artifact, k as u32)?;
        }
    }
    Ok(lists)
}

fn joined(old: Option<Interval>, write: WritePart) -> Interval {
    let new = Interval {
        low: write.low,
        high: write.high,
    };
    match old {
        None => new,
        Some(old) => join(old, new),
    }
}

fn add_writes(leaves: &mut Vec<Option<Interval>>, writes: &[WritePart]) {
    for write in writes {
        if let Some(leaf) = leaves.get_mut(write.class as usize) {
            let old = *leaf;
            *leaf = Some(joined(old, *write));
        }
    }
}

/// By leaf class the interval of its numbers: what the static initialisers give it, joined with what functions write.
pub fn leaf_intervals(
    alloc: Global,
    core: &CoreProgram,
    summaries: &[Option<Artifact>],
) -> Result<Vec<Option<Interval>>, NoMemory> {
    let mut leaves = Vec::new(alloc);
    for start in &core.leaf_starts {
        leaves.push(start.map(|(low, high)| Interval { low, high }))?;
    }
    for summary in summaries {
        if let Some(artifact) = summary {
            add_writes(&mut leaves, &artifact.writes);
        }
    }
    Ok(leaves)
}
