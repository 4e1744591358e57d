// Artifacts of earlier rounds, decoded.

use crate::artifacts::Artifacts;
use artifact_codec::decode;
use core_ir::{Artifact, Constraint, CoreProgram, Function, Solution, Stored};
use std::alloc::Global;
use sv_base::NoMemory;

fn stored(
    alloc: Global,
    shelf: &impl Artifacts,
    round: u32,
    task: u32,
) -> Result<Option<Stored>, NoMemory> {
    match shelf.get(round, task) {
        Some(bytes) => decode(alloc, bytes),
        None => Ok(None),
    }
}

fn summary(
    alloc: Global,
    shelf: &impl Artifacts,
    round: u32,
    task: u32,
) -> Result<Option<Artifact>, NoMemory> {
    match stored(alloc, shelf, round, task)? {
        Some(Stored::Summary(artifact)) => Ok(Some(artifact)),
        _ => Ok(None),
    }
}

/// Whether a summary says that it is not as in the round before. One that is missing does.
pub(crate) fn summary_has_changed(
    alloc: Global,
    shelf: &impl Artifacts,
    round: u32,
    task: u32,
) -> Result<bool, NoMemory> {
    match summary(alloc, shelf, round, task)? {
        Some(artifact) => Ok(artifact.changed),
        None => Ok(true),
    }
}

fn add_constraints(
    alloc: Global,
    all: &mut Vec<Constraint>,
    shelf: &impl Artifacts,
    task: u32,
) -> Result<(), NoMemory> {
    match stored(alloc, shelf, 0, task)? {
        Some(Stored::Constraints(mut list)) => {
            all.append(&mut list)?;
            Ok(())
        }
        _ => Ok(()),
    }
}

/// The constraints of all functions.
pub fn gathered_constraints(
    alloc: Global,
    shelf: &impl Artifacts,
    functions: u32,
) -> Result<Vec<Constraint>, NoMemory> {
    let mut all = Vec::new(alloc);
    for f in 0..functions {
        add_constraints(alloc, &mut all, shelf, f)?;
    }
    Ok(all)
}

/// By function the node of its first register. Nodes past 2^64 do not occur.
pub fn bases(alloc: Global, functions: &[Function]) -> Result<Vec<usize>, NoMemory> {
    let mut bases = Vec::new(alloc);
    let mut base: usize = 0;
    for f in functions {
        bases.push(base)?;
        base = base.saturating_add(f.registers.len());
    }
    Ok(bases)
}

fn sets(alloc: Global, shelf: &impl Artifacts) -> Result<Vec<Vec<u32>>, NoMemory> {
    match stored(alloc, shelf, 1, 0)? {
        Some(Stored::Solved(Solution { sets })) => Ok(sets),
        _other => Ok(Vec::new(alloc)),
    }
}

/// The points-to sets of all registers.
#[derive(Drop)]
pub struct Solved {
    // by node
    sets: Vec<Vec<u32>>,
    // by function the node of its first register
    bases: Vec<usize>,
}

impl Solved {
    fn read(
        alloc: Global,
        shelf: &impl Artifacts,
        functions: &[Function],
    ) -> Result<Solved, NoMemory> {
        Ok(Solved {
            sets: sets(alloc, shelf)?,
            bases: bases(alloc, functions)?,
        })
    }

    /// The set of a register of a function, empty where there is none.
    pub fn set(&self, f: u32, r: u32) -> &[u32] {
        let base = self.bases.get(f as usize).copied().unwrap_or(0);
        match self.sets.get(base.saturating_add(r as usize)) {
            Some(set) => set,
            None => &[],
        }
    }
}

fn alone(alloc: Global, registers: usize) -> Result<Vec<Vec<u32>>, NoMemory> {
    let mut clusters = Vec::new(alloc);
    for r in 0..registers.min(4294967295) {
        clusters.push(Vec::from_array(alloc, [r as u32])?)?;
    }
    Ok(clusters)
}

fn clusters(
    alloc: Global,
    shelf: &impl Artifacts,
    f: &Function,
    task: u32,
) -> Result<Vec<Vec<u32>>, NoMemory> {
    match stored(alloc, shelf, 2, task)? {
        Some(Stored::Clusters(clusters)) => Ok(clusters),
        _ => alone(alloc, f.registers.len()),
    }
}

/// What the rounds before say that a round of summaries reads.
#[derive(Drop)]
pub struct Kept {
    pub solved: Solved,
    /// By function.
    pub clusters: Vec<Vec<Vec<u32>>>,
    /// By function the summary of the round before, none where it is missing or no spelling, and none in the first round of summaries.
    pub summaries: Vec<Option<Artifact>>,
}

impl Kept {
    /// For a round of summaries or colours, of which `first` is the first.
    pub fn read(
        alloc: Global,
        shelf: &impl Artifacts,
        core: &CoreProgram,
        round: u32,
        first: u32,
    ) -> Result<Kept, NoMemory> {
        let mut all_clusters = Vec::new(alloc);
        let mut summaries = Vec::new(alloc);
        for k in 0..core.functions.len().min(4294967295) {
            let task = k as u32;
            all_clusters.push(clusters(alloc, shelf, &core.functions[k], task)?)?;
            if first < round {
                summaries.push(summary(alloc, shelf, round - 1, task)?)?;
            } else {
                summaries.push(None)?;
            }
        }
        Ok(Kept {
            solved: Solved::read(alloc, shelf, &core.functions)?,
            clusters: all_clusters,
            summaries,
        })
    }

    /// The clusters of a function.
    pub fn clusters_of(&self, f: u32) -> &[Vec<u32>] {
        match self.clusters.get(f as usize) {
            Some(clusters) => clusters,
            None => &[],
        }
    }

    /// The summary of a function in the round before.
    pub fn summary_of(&self, f: u32) -> Option<&Artifact> {
        match self.summaries.get(f as usize) {
            Some(Some(artifact)) => Some(artifact),
            _ => None,
        }
    }

    /// Whether the summary of a function was not as in the round before it. One that is missing was not.
    pub fn has_changed(&self, f: u32) -> bool {
        match self.summary_of(f) {
            Some(artifact) => artifact.changed,
            None => true,
        }
    }
}
