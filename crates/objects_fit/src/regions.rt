use crate::extents::Extent;
use crate::nodes::{Node, NodeForm, Nodes, Span};
use crate::trees::Layouts;
use core_ir::{CoreProgram, Part, PartClass, RegionClass, Step, in_order};
use std::alloc::Global;
use sv_base::NoMemory;

// How much of what steps select and copy in a region was met.
#[derive(Clone, Copy)]
struct Met {
    parts: usize,
    layouts: usize,
}

/// The region classes of a table, which are gone through together with the nodes.
#[derive(Drop)]
struct Meeting {
    list: Vec<Met>,
}

// Whether a list has these numbers one after another.
fn is_span(list: &[u32], span: Span) -> bool {
    let mut next = span.first;
    for number in list {
        if *number != next || next >= span.end {
            return false;
        }
        next = next.saturating_add(1);
    }
    next == span.end
}

// Whether a class is that of a region, as far as lengths and leaf classes go.
fn is_bare_region(nodes: &Nodes, extents: &[Extent], number: u32, class: &RegionClass) -> bool {
    let Some(node) = nodes.node(number) else {
        return false;
    };
    match extents.get(number as usize) {
        None => false,
        Some(extent) => class.length == extent.size && is_span(&class.leaves, node.leaves),
    }
}

fn are_bare_regions(nodes: &Nodes, extents: &[Extent], regions: &[RegionClass]) -> bool {
    let mut classes = regions.iter();
    for number in &nodes.regions {
        match classes.next() {
            None => return false,
            Some(class) => {
                if !is_bare_region(nodes, extents, *number, class) {
                    return false;
                }
            }
        }
    }
    classes.next().is_none()
}

// The region class that a sub-object is in a node of its type.
fn class_of(nodes: &Nodes, node: Node, member: Option<u32>) -> Option<u32> {
    let Some(position) = member else {
        return node.region;
    };
    let NodeForm::Members { .. } = node.form else {
        return None;
    };
    let place = node.kids.first.checked_add(position)?;
    if place >= node.kids.end {
        return None;
    }
    nodes.node(nodes.kid(place)?)?.region
}

impl Meeting {
    fn new(alloc: Global, nodes: &Nodes) -> Result<Meeting, NoMemory> {
        let mut list = Vec::new(alloc);
        for _ in &nodes.regions {
            list.push(Met {
                parts: 0,
                layouts: 0,
            })?;
        }
        Ok(Meeting { list })
    }

    // Whether the next part of a region is this one.
    fn meets_part(&mut self, regions: &[RegionClass], class: u32, part: PartClass) -> bool {
        let (Some(met), Some(region)) = (
            self.list.get_mut(class as usize),
            regions.get(class as usize),
        ) else {
            return false;
        };
        match region.parts.get(met.parts) {
            None => false,
            Some(listed) => {
                met.parts = met.parts.saturating_add(1);
                *listed == part
            }
        }
    }

    // Whether the next sub-object of a region that steps copy is this node.
    fn meets_layout(&mut self, regions: &[RegionClass], class: u32, node: Node) -> bool {
        let (Some(met), Some(region)) = (
            self.list.get_mut(class as usize),
            regions.get(class as usize),
        ) else {
            return false;
        };
        match region.layouts.get(met.layouts) {
            None => false,
            Some(listed) => {
                met.layouts = met.layouts.saturating_add(1);
                listed.layout == node.layout && is_span(&listed.leaves, node.leaves)
            }
        }
    }

    // Whether a sub-object comes next in each region around a node.
    fn meets_part_around(
        &mut self,
        nodes: &Nodes,
        regions: &[RegionClass],
        inner: Node,
        part: PartClass,
    ) -> bool {
        let mut at = inner;
        for _ in 0..nodes.list.len() {
            if let Some(class) = at.region {
                if !self.meets_part(regions, class, part) {
                    return false;
                }
            }
            match at.parent {
                None => return true,
                Some(parent) => match nodes.node(parent) {
                    None => return false,
                    Some(around) => at = around,
                },
            }
        }
        false
    }

    // Whether a node comes next in each region around it.
    fn meets_layout_around(&mut self, nodes: &Nodes, regions: &[RegionClass], node: Node) -> bool {
        let mut at = node;
        for _ in 0..nodes.list.len() {
            if let Some(class) = at.region {
                if !self.meets_layout(regions, class, node) {
                    return false;
                }
            }
            match at.parent {
                None => return true,
                Some(parent) => match nodes.node(parent) {
                    None => return false,
                    Some(around) => at = around,
                },
            }
        }
        false
    }

    // Whether a sub-object comes next wherever there is a node of its type.
    fn meets_parts(
        &mut self,
        nodes: &Nodes,
        layouts: &Layouts,
        regions: &[RegionClass],
        number: u32,
        part: Part,
    ) -> bool {
        let mut next = layouts.first(part.layout);
        for _ in 0..u64::MAX {
            let Some(at) = next else {
                return true;
            };
            let Some(node) = nodes.node(at) else {
                return false;
            };
            if let Some(class) = class_of(nodes, node, part.member) {
                let part = PartClass {
                    part: number,
                    class,
                };
                if !self.meets_part_around(nodes, regions, node, part) {
                    return false;
                }
            }
            next = layouts.after(at);
        }
        false
    }

    fn meets_all_parts(
        &mut self,
        nodes: &Nodes,
        layouts: &Layouts,
        core: &CoreProgram,
    ) -> Result<bool, NoMemory> {
        let mut number = 0u32;
        for part in &core.parts {
            if !self.meets_parts(nodes, layouts, &core.classes.regions, number, *part) {
                return Ok(false);
            }
            number = number.checked_add(1).ok_or(NoMemory)?;
        }
        Ok(true)
    }

    fn meets_all_layouts(
        &mut self,
        nodes: &Nodes,
        regions: &[RegionClass],
        copied: &Copied,
    ) -> bool {
        for node in &nodes.list {
            if copied.has(node.layout) && !self.meets_layout_around(nodes, regions, *node) {
                return false;
            }
        }
        true
    }

    // Whether all of each region was met.
    fn is_over(&self, regions: &[RegionClass]) -> bool {
        let mut classes = regions.iter();
        for met in &self.list {
            match classes.next() {
                None => return false,
                Some(class) => {
                    if met.parts != class.parts.len() || met.layouts != class.layouts.len() {
                        return false;
                    }
                }
            }
        }
        true
    }
}

/// The types that steps copy, those of which there is no object aside.
#[derive(Drop)]
struct Copied {
    marks: Vec<bool>,
}

impl Copied {
    fn has(&self, layout: u32) -> bool {
        match self.marks.get(layout as usize) {
            Some(mark) => *mark,
            None => false,
        }
    }

    fn mark(&mut self, step: &Step) {
        if let Step::CopyObject { layout, .. } = step {
            if let Some(mark) = self.marks.get_mut(*layout as usize) {
                *mark = true;
            }
        }
    }

    fn mark_all(&mut self, steps: &[&Step]) {
        for step in steps {
            self.mark(*step);
        }
    }

    fn of(alloc: Global, core: &CoreProgram, layouts: &Layouts) -> Result<Copied, NoMemory> {
        let mut copied = Copied {
            marks: Vec::new(alloc),
        };
        for _ in 0..layouts.len() {
            copied.marks.push(false)?;
        }
        for f in &core.functions {
            copied.mark_all(&in_order(alloc, &f.body)?);
        }
        Ok(copied)
    }
}

/// Whether the table has the regions of the nodes, with what steps select and copy in them.
pub(crate) fn regions_fit(
    alloc: Global,
    core: &CoreProgram,
    nodes: &Nodes,
    layouts: &Layouts,
    extents: &[Extent],
) -> Result<bool, NoMemory> {
    let regions = &core.classes.regions;
    if !are_bare_regions(nodes, extents, regions) {
        return Ok(false);
    }
    let copied = Copied::of(alloc, core, layouts)?;
    let mut meeting = Meeting::new(alloc, nodes)?;
    Ok(
        meeting.meets_all_parts(nodes, layouts, core)?
            && meeting.meets_all_layouts(nodes, regions, &copied)
            && meeting.is_over(regions),
    )
}
