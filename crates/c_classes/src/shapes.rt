use crate::nodes::{Node, NodeForm, Objects};
use core_ir::{Shape, ShapeForm, ShapeList};
use std::alloc::Global;
use sv_base::NoMemory;

// The offsets of a node's members, in order.
fn offsets(alloc: Global, objects: &Objects, node: &Node) -> Result<Vec<u64>, NoMemory> {
    let mut list = Vec::new(alloc);
    for place in node.kids.first..node.kids.end {
        if let Some(kid) = objects.kids.get(place as usize) {
            if let Some(member) = objects.node(*kid) {
                list.push(member.offset)?;
            }
        }
    }
    Ok(list)
}

// The tree of a node. Those of its members are the last ones of the list, the first member the very last.
fn push_tree(
    alloc: Global,
    objects: &Objects,
    node: &Node,
    list: &mut ShapeList,
) -> Result<(), NoMemory> {
    match node.form {
        NodeForm::Scalar(leaf) => list.push(Shape {
            layout: node.layout,
            region: node.region,
            form: ShapeForm::Scalar {
                leaf,
                class: node.leaves.first,
            },
        }),
        NodeForm::Array { count, stride } => {
            list.push_array(node.layout, node.region, count, stride)
        }
        NodeForm::Members { rival } => {
            let offsets = offsets(alloc, objects, node)?;
            list.push_members(node.layout, node.region, rival, &offsets)
        }
    }
}

// The tree of an object, whose nodes are taken from the last one on.
fn push_object(
    alloc: Global,
    objects: &Objects,
    root: u32,
    list: &mut ShapeList,
) -> Result<(), NoMemory> {
    let end = match objects.node(root) {
        None => return Ok(()),
        Some(node) => node.end,
    };
    for number in (root..end).rev() {
        if let Some(node) = objects.node(number) {
            push_tree(alloc, objects, node, list)?;
        }
    }
    Ok(())
}

/// The trees of all objects.
pub fn shapes_of(alloc: Global, objects: &Objects) -> Result<ShapeList, NoMemory> {
    let mut list = ShapeList::new(alloc);
    for root in &objects.roots {
        push_object(alloc, objects, *root, &mut list)?;
    }
    Ok(list)
}
