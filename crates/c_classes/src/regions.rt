use crate::nodes::{Node, Objects};
use crate::numbers::Marks;
use c_typed::TypeTable;
use core_ir::{LayoutPart, Part, PartClass, RegionClass};
use std::alloc::Global;
use sv_base::NoMemory;

fn leaves_of(alloc: Global, node: &Node) -> Result<Vec<u32>, NoMemory> {
    let mut list = Vec::new(alloc);
    for class in node.leaves.first..node.leaves.end {
        list.push(class)?;
    }
    Ok(list)
}

// The regions with their lengths and leaf classes, but without what steps select and copy.
fn bare_regions(
    alloc: Global,
    types: &TypeTable,
    objects: &Objects,
) -> Result<Vec<RegionClass>, NoMemory> {
    let mut list = Vec::new(alloc);
    for number in &objects.regions {
        if let Some(node) = objects.node(*number) {
            list.push(RegionClass {
                length: types.extent(node.of).size,
                leaves: leaves_of(alloc, node)?,
                parts: Vec::new(alloc),
                layouts: Vec::new(alloc),
            })?;
        }
    }
    Ok(list)
}

// By layout, the nodes that have it, ascending.
fn nodes_by_layout(alloc: Global, objects: &Objects) -> Result<Vec<Vec<u32>>, NoMemory> {
    let mut all = Vec::new(alloc);
    let mut number = 0u32;
    for node in &objects.nodes {
        let layout = node.layout as usize;
        for _ in all.len()..layout + 1 {
            all.push(Vec::new(alloc))?;
        }
        if let Some(nodes) = all.get_mut(layout) {
            let nodes: &mut Vec<u32> = nodes;
            nodes.push(number)?;
        }
        number = number.checked_add(1).ok_or(NoMemory)?;
    }
    Ok(all)
}

// The region class that a sub-object is in a node of its layout.
fn class_of(objects: &Objects, number: u32, member: Option<u32>) -> Option<u32> {
    match member {
        None => objects.region(number),
        Some(position) => {
            let node = objects.node(number)?;
            let kid = objects.kid(node, position)?;
            objects.region(kid)
        }
    }
}

fn push_part(
    regions: &mut Vec<RegionClass>,
    region: Option<u32>,
    part: PartClass,
) -> Result<(), NoMemory> {
    if let Some(class) = region {
        if let Some(region) = regions.get_mut(class as usize) {
            region.parts.push(part)?;
        }
    }
    Ok(())
}

// A sub-object, in each region around it.
fn push_part_around(
    objects: &Objects,
    regions: &mut Vec<RegionClass>,
    inner: u32,
    part: PartClass,
) -> Result<(), NoMemory> {
    let mut at = Some(inner);
    for _ in 0..objects.nodes.len() {
        let Some(number) = at else {
            break;
        };
        let Some(node) = objects.node(number) else {
            break;
        };
        push_part(regions, node.region, part)?;
        at = node.parent;
    }
    Ok(())
}

fn push_parts_of(
    objects: &Objects,
    regions: &mut Vec<RegionClass>,
    nodes: &[u32],
    part: u32,
    member: Option<u32>,
) -> Result<(), NoMemory> {
    for number in nodes {
        if let Some(class) = class_of(objects, *number, member) {
            push_part_around(objects, regions, *number, PartClass { part, class })?;
        }
    }
    Ok(())
}

// A layout that steps copy, in each region around one of its nodes.
fn push_layout_around(
    alloc: Global,
    objects: &Objects,
    regions: &mut Vec<RegionClass>,
    node: &Node,
) -> Result<(), NoMemory> {
    let mut at = node;
    for _ in 0..objects.nodes.len() {
        if let Some(class) = at.region {
            if let Some(region) = regions.get_mut(class as usize) {
                region.layouts.push(LayoutPart {
                    layout: node.layout,
                    leaves: leaves_of(alloc, node)?,
                })?;
            }
        }
        let Some(parent) = at.parent else {
            break;
        };
        let Some(around) = objects.node(parent) else {
            break;
        };
        at = around;
    }
    Ok(())
}

/// The region classes with the sub-objects that steps select and those of the types that steps copy.
pub fn region_classes(
    alloc: Global,
    types: &TypeTable,
    objects: &Objects,
    parts: &[Part],
    copied: &Marks,
) -> Result<Vec<RegionClass>, NoMemory> {
    let mut regions = bare_regions(alloc, types, objects)?;
    let by_layout = nodes_by_layout(alloc, objects)?;
    let mut number = 0u32;
    for part in parts {
        if let Some(nodes) = by_layout.get(part.layout as usize) {
            push_parts_of(objects, &mut regions, nodes, number, part.member)?;
        }
        number = number.checked_add(1).ok_or(NoMemory)?;
    }
    for node in &objects.nodes {
        if copied.is_marked(node.layout) {
            push_layout_around(alloc, objects, &mut regions, node)?;
        }
    }
    Ok(regions)
}
