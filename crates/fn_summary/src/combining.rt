// What a round says of a function, from what the analysis found and from what the round before says.

use crate::findings::{Phase, Situation};
use crate::likeness::{have_same_parts, is_nothing};
use crate::matrices::{Range, copied_list, joined_list, picked_by_group, ranges_of, widened_list};
use core_ir::{Artifact, Bounds, CallPart, Function, Leaf, WritePart};
use intervals::{Interval, join, widen};
use std::alloc::Global;
use std::collections::{BTreeMap, HashMap};
use stored_bounds::{entry_groups, leaf_range, result_groups};
use sv_base::NoMemory;
use transfer::Known;

fn grown_list(
    alloc: Global,
    old: &[Bounds],
    new: &[Bounds],
    ranges: &[Vec<Range>],
    phase: Phase,
) -> Result<Vec<Bounds>, NoMemory> {
    match phase {
        Phase::Widening => widened_list(alloc, old, new, ranges),
        Phase::Joining | Phase::Falling => joined_list(alloc, old, new),
    }
}

fn grown_result(
    alloc: Global,
    f: &Function,
    clusters: &[Vec<u32>],
    old: &Option<Vec<Bounds>>,
    new: Option<Vec<Bounds>>,
    phase: Phase,
) -> Result<Option<Vec<Bounds>>, NoMemory> {
    let Some(old) = old else {
        return Ok(new);
    };
    let Some(new) = new else {
        return Ok(Some(copied_list(alloc, old)?));
    };
    let groups = result_groups(alloc, clusters, f.parameters, f.result)?;
    let ranges = ranges_of(alloc, &f.registers, &groups)?;
    Ok(Some(grown_list(alloc, old, &new, &ranges, phase)?))
}

// By group of a callee's entry registers their ranges.
fn callee_ranges(
    alloc: Global,
    known: Known<'_>,
    callee: u32,
) -> Result<Vec<Vec<Range>>, NoMemory> {
    match known
        .callees
        .binary_search_by_key(&callee, |part| part.callee)
    {
        Ok(place) => {
            let part = &known.callees[place];
            let groups = entry_groups(alloc, &part.clusters, part.parameters)?;
            picked_by_group(alloc, &part.ranges, &groups)
        }
        Err(_) => Ok(Vec::new(alloc)),
    }
}

fn by_callee(alloc: Global, calls: Vec<CallPart>) -> Result<BTreeMap<u32, Vec<Bounds>>, NoMemory> {
    let mut map = BTreeMap::new(alloc);
    for part in calls {
        map.insert(part.callee, part.entry)?;
    }
    Ok(map)
}

fn grown_calls(
    alloc: Global,
    known: Known<'_>,
    old: &[CallPart],
    new: Vec<CallPart>,
    phase: Phase,
) -> Result<Vec<CallPart>, NoMemory> {
    let mut map = by_callee(alloc, new)?;
    for part in old {
        let entry = match map.remove(&part.callee) {
            None => copied_list(alloc, &part.entry)?,
            Some(new) => {
                let ranges = callee_ranges(alloc, known, part.callee)?;
                grown_list(alloc, &part.entry, &new, &ranges, phase)?
            }
        };
        map.insert(part.callee, entry)?;
    }
    let mut calls = Vec::new(alloc);
    for (callee, entry) in map {
        calls.push(CallPart { callee, entry })?;
    }
    Ok(calls)
}

// By leaf class what it holds.
fn leaves_of(alloc: Global, known: Known<'_>) -> Result<HashMap<u32, Leaf>, NoMemory> {
    let mut leaves = HashMap::new(alloc);
    for part in known.classes {
        for leaf in &part.leaves {
            leaves.insert(leaf.class, leaf.leaf)?;
            for (rival, held) in &leaf.rivals {
                leaves.insert(*rival, *held)?;
            }
        }
    }
    Ok(leaves)
}

fn interval_of(write: WritePart) -> Interval {
    Interval {
        low: write.low,
        high: write.high,
    }
}

fn grown_write(old: Interval, new: Interval, leaf: Leaf, phase: Phase) -> Interval {
    let both = join(old, new);
    match phase {
        Phase::Widening => widen(old, both, leaf_range(leaf)),
        Phase::Joining | Phase::Falling => both,
    }
}

fn by_class(alloc: Global, writes: &[WritePart]) -> Result<BTreeMap<u32, Interval>, NoMemory> {
    let mut map = BTreeMap::new(alloc);
    for write in writes {
        map.insert(write.class, interval_of(*write))?;
    }
    Ok(map)
}

fn grown_writes(
    alloc: Global,
    known: Known<'_>,
    old: &[WritePart],
    new: &[WritePart],
    phase: Phase,
) -> Result<Vec<WritePart>, NoMemory> {
    let leaves = leaves_of(alloc, known)?;
    let mut map = by_class(alloc, new)?;
    for write in old {
        let before = interval_of(*write);
        let leaf = leaves.get(&write.class).copied().unwrap_or(Leaf::Pointer);
        let grown = match map.get(&write.class) {
            None => before,
            Some(now) => grown_write(before, *now, leaf, phase),
        };
        map.insert(write.class, grown)?;
    }
    let mut writes = Vec::new(alloc);
    for (class, interval) in map {
        writes.push(WritePart {
            class,
            low: interval.low,
            high: interval.high,
        })?;
    }
    Ok(writes)
}

// What was found, put together with what the round before says.
fn grown(
    alloc: Global,
    f: &Function,
    situation: Situation<'_>,
    old: &Artifact,
    found: Artifact,
    phase: Phase,
) -> Result<Artifact, NoMemory> {
    let Artifact {
        changed,
        context,
        result: returned,
        calls,
        writes,
    } = found;
    Ok(Artifact {
        changed,
        context,
        result: grown_result(alloc, f, situation.clusters, &old.result, returned, phase)?,
        calls: grown_calls(alloc, situation.known, &old.calls, calls, phase)?,
        writes: grown_writes(alloc, situation.known, &old.writes, &writes, phase)?,
    })
}

fn combined(
    alloc: Global,
    f: &Function,
    situation: Situation<'_>,
    old: &Artifact,
    found: Artifact,
    phase: Phase,
) -> Result<Artifact, NoMemory> {
    if phase == Phase::Falling {
        return Ok(found);
    }
    grown(alloc, f, situation, old, found, phase)
}

/// The artifact of a round, from what was found and from that of the round before.
pub(crate) fn artifact(
    alloc: Global,
    f: &Function,
    situation: Situation<'_>,
    old: Option<&Artifact>,
    found: Artifact,
    phase: Phase,
) -> Result<Artifact, NoMemory> {
    let Some(old) = old else {
        let mut first = found;
        first.changed = !is_nothing(&first);
        return Ok(first);
    };
    let mut next = combined(alloc, f, situation, old, found, phase)?;
    next.changed = !have_same_parts(&next, old);
    Ok(next)
}
