// What the analysis of a function reads beside it.

use crate::basis::Past;
use core_ir::{
    Bounds, CalleePart, ClassPart, ClassTable, CoreProgram, Facts, Function, LayoutPart, Leaf,
    LeafPart, RegionClass, Step, WritePart, in_order,
};
use intervals::Interval;
use std::alloc::Global;
use stored_bounds::{copied, leaf_range};
use sv_base::NoMemory;

fn copied_list(alloc: Global, list: &[Bounds]) -> Result<Vec<Bounds>, NoMemory> {
    let mut copy = Vec::new(alloc);
    for bounds in list {
        copy.push(copied(alloc, bounds)?)?;
    }
    Ok(copy)
}

fn sets(
    alloc: Global,
    past: &Past,
    f: u32,
    function: &Function,
) -> Result<Vec<Vec<u32>>, NoMemory> {
    let mut sets = Vec::new(alloc);
    for r in 0..function.registers.len().min(4294967295) {
        sets.push(Vec::from_slice(alloc, past.kept.solved.set(f, r as u32))?)?;
    }
    Ok(sets)
}

// ---- callees

// A caller looks at entry registers and at the result alone, so the other clusters of a callee are left out.
fn is_seen(cluster: &[u32], g: &Function) -> bool {
    cluster
        .iter()
        .any(|r| *r < g.parameters || Some(*r) == g.result)
}

fn seen_clusters(
    alloc: Global,
    g: &Function,
    clusters: &[Vec<u32>],
) -> Result<Vec<Vec<u32>>, NoMemory> {
    let mut seen = Vec::new(alloc);
    for cluster in clusters {
        if is_seen(cluster, g) {
            seen.push(Vec::from_slice(alloc, cluster)?)?;
        }
    }
    Ok(seen)
}

fn entry_ranges(alloc: Global, g: &Function) -> Result<Vec<(i128, i128)>, NoMemory> {
    let mut ranges = Vec::new(alloc);
    for r in 0..g.parameters {
        if let Some(register) = g.registers.get(r as usize) {
            let range = leaf_range(register.leaf);
            ranges.push((range.low, range.high))?;
        }
    }
    Ok(ranges)
}

fn result_of(alloc: Global, past: &Past, callee: u32) -> Result<Option<Vec<Bounds>>, NoMemory> {
    match past.summary_of(callee) {
        Some(artifact) => match &artifact.result {
            Some(result) => Ok(Some(copied_list(alloc, result)?)),
            None => Ok(None),
        },
        None => Ok(None),
    }
}

fn defined_part(
    alloc: Global,
    past: &Past,
    callee: u32,
    g: &Function,
) -> Result<CalleePart, NoMemory> {
    Ok(CalleePart {
        callee,
        kind: g.kind,
        external: false,
        parameters: g.parameters,
        ranges: entry_ranges(alloc, g)?,
        result_register: g.result,
        clusters: seen_clusters(alloc, g, past.kept.clusters_of(callee))?,
        result: result_of(alloc, past, callee)?,
    })
}

fn external_part(alloc: Global, core: &CoreProgram, callee: u32) -> CalleePart {
    let e = (callee as usize).saturating_sub(core.functions.len());
    let kind = match core.externals.get(e) {
        Some(external) => external.kind,
        None => 0,
    };
    CalleePart {
        callee,
        kind,
        external: true,
        parameters: 0,
        ranges: Vec::new(alloc),
        result_register: None,
        clusters: Vec::new(alloc),
        result: None,
    }
}

fn callees(
    alloc: Global,
    core: &CoreProgram,
    past: &Past,
    f: u32,
) -> Result<Vec<CalleePart>, NoMemory> {
    let mut parts = Vec::new(alloc);
    for callee in past.links.called_by(f) {
        let part = match core.functions.get(*callee as usize) {
            Some(g) => defined_part(alloc, past, *callee, g)?,
            None => external_part(alloc, core, *callee),
        };
        parts.push(part)?;
    }
    Ok(parts)
}

// ---- classes

// What the body itself names: the objects that it begins, and the types that it copies.
#[derive(Drop)]
struct Mentioned {
    regions: Vec<u32>,
    layouts: Vec<u32>,
}

fn names_of(alloc: Global, function: &Function) -> Result<Mentioned, NoMemory> {
    let mut named = Mentioned {
        regions: Vec::new(alloc),
        layouts: Vec::new(alloc),
    };
    let steps = in_order(alloc, &function.body)?;
    for step in &steps {
        match step {
            Step::Begin { object, .. } => named.regions.push(*object)?,
            Step::CopyObject { layout, .. } => named.layouts.push(*layout)?,
            _ => {}
        }
    }
    named.layouts.sort()?;
    named.layouts.dedup();
    Ok(named)
}

// The region classes that a function sees, ascending.
fn regions(
    alloc: Global,
    core: &CoreProgram,
    sets: &[Vec<u32>],
    begun: &[u32],
) -> Result<Vec<u32>, NoMemory> {
    let mut all = Vec::from_slice(alloc, begun)?;
    for set in sets {
        for member in set {
            if (*member as usize) < core.classes.regions.len() {
                all.push(*member)?;
            }
        }
    }
    all.sort()?;
    all.dedup();
    Ok(all)
}

fn rivals(alloc: Global, classes: &ClassTable, class: u32) -> Result<Vec<(u32, Leaf)>, NoMemory> {
    let mut list = Vec::new(alloc);
    if let Some(rivals) = classes.rivals.get(class as usize) {
        for rival in rivals {
            if let Some(leaf) = classes.leaves.get(*rival as usize) {
                list.push((*rival, *leaf))?;
            }
        }
    }
    Ok(list)
}

fn leaf_parts(
    alloc: Global,
    classes: &ClassTable,
    region: &RegionClass,
) -> Result<Vec<LeafPart>, NoMemory> {
    let mut parts = Vec::new(alloc);
    for class in &region.leaves {
        if let Some(leaf) = classes.leaves.get(*class as usize) {
            parts.push(LeafPart {
                class: *class,
                leaf: *leaf,
                rivals: rivals(alloc, classes, *class)?,
            })?;
        }
    }
    Ok(parts)
}

fn layout_parts(
    alloc: Global,
    region: &RegionClass,
    layouts: &[u32],
) -> Result<Vec<LayoutPart>, NoMemory> {
    let mut parts = Vec::new(alloc);
    for part in &region.layouts {
        if layouts.binary_search(&part.layout).is_ok() {
            parts.push(LayoutPart {
                layout: part.layout,
                leaves: Vec::from_slice(alloc, &part.leaves)?,
            })?;
        }
    }
    Ok(parts)
}

fn class_parts(
    alloc: Global,
    classes: &ClassTable,
    regions: &[u32],
    layouts: &[u32],
) -> Result<Vec<ClassPart>, NoMemory> {
    let mut parts = Vec::new(alloc);
    for class in regions {
        if let Some(region) = classes.regions.get(*class as usize) {
            parts.push(ClassPart {
                class: *class,
                length: region.length,
                leaves: leaf_parts(alloc, classes, region)?,
                layouts: layout_parts(alloc, region, layouts)?,
            })?;
        }
    }
    Ok(parts)
}

// ---- leaf classes

fn leaf_classes(alloc: Global, parts: &[ClassPart]) -> Result<Vec<u32>, NoMemory> {
    let mut all = Vec::new(alloc);
    for part in parts {
        for leaf in &part.leaves {
            all.push(leaf.class)?;
        }
    }
    all.sort()?;
    all.dedup();
    Ok(all)
}

fn interval_of(leaves: &[Option<Interval>], class: u32) -> Option<Interval> {
    leaves.get(class as usize).copied().flatten()
}

fn leaf_intervals(
    alloc: Global,
    past: &Past,
    parts: &[ClassPart],
) -> Result<Vec<WritePart>, NoMemory> {
    let mut list = Vec::new(alloc);
    let classes = leaf_classes(alloc, parts)?;
    for class in &classes {
        if let Some(interval) = interval_of(&past.leaves, *class) {
            list.push(WritePart {
                class: *class,
                low: interval.low,
                high: interval.high,
            })?;
        }
    }
    Ok(list)
}

/// What the steps of a function look up.
pub(crate) fn facts(
    alloc: Global,
    core: &CoreProgram,
    past: &Past,
    f: u32,
    function: &Function,
    rising: bool,
) -> Result<Facts, NoMemory> {
    let sets = sets(alloc, past, f, function)?;
    let named = names_of(alloc, function)?;
    let regions = regions(alloc, core, &sets, &named.regions)?;
    let classes = class_parts(alloc, &core.classes, &regions, &named.layouts)?;
    Ok(Facts {
        sets,
        callees: callees(alloc, core, past, f)?,
        leaves: leaf_intervals(alloc, past, &classes)?,
        classes,
        rising,
    })
}
