ghost use Rattle.std.specs.Prelude.{◌≡◌};
ghost use Rattle.core_ir.specs.Classes.{leaf_size};

use crate::nodes::{Node, NodeForm, Nodes, number_of};
use c_values::width;
use core_ir::Leaf;
use std::alloc::Global;
use sv_base::NoMemory;

/// The size of a sub-object and its alignment, in bytes.
#[derive(Clone, Copy)]
pub(crate) struct Extent {
    pub(crate) size: u64,
    pub(crate) align: u64,
}

// Each scalar is aligned to its size (ISO/IEC 9899:1999, 6.2.6.1).
fn leaf_size(leaf: Leaf) -> u64
    ensures { result ≡ leaf_size leaf }
{
    match leaf {
        Leaf::Int(kind) => u64::from((width(kind) + 7) / 8),
        Leaf::Pointer => 4,
    }
}

// The least multiple of an alignment that is not below the size. None where it is too great.
fn rounded(align: u64, size: u64) -> Option<u64> {
    if align == 0 {
        return None;
    }
    let sum = size.checked_add(align - 1)?;
    (sum / align).checked_mul(align)
}

// What is known of the members of a node up to one of them.
#[derive(Clone, Copy)]
struct Members {
    // where the last one ends, and the greatest end
    before: u64,
    end: u64,
    align: u64,
}

impl Members {
    // With one more member. None where it lies elsewhere than behind the one before it, or of a union not at the start.
    fn with(self, rival: bool, offset: u64, member: Extent) -> Option<Members> {
        let wanted = if rival {
            0
        } else {
            rounded(member.align, self.before)?
        };
        if offset != wanted {
            return None;
        }
        let before = offset.checked_add(member.size)?;
        Some(Members {
            before,
            end: self.end.max(before),
            align: self.align.max(member.align),
        })
    }
}

// Elements, of which there is one at least, lie one behind another.
fn array_extent(count: u64, stride: u64, element: Extent) -> Option<Extent> {
    if count == 0 || stride != element.size {
        return None;
    }
    Some(Extent {
        size: count.checked_mul(stride)?,
        align: element.align,
    })
}

fn kid_extent(nodes: &Nodes, extents: &[Extent], place: u32) -> Option<Extent> {
    let kid = nodes.kid(place)?;
    extents.get(kid as usize).copied()
}

fn members_extent(nodes: &Nodes, extents: &[Extent], node: Node, rival: bool) -> Option<Extent> {
    let mut members = Members {
        before: 0,
        end: 0,
        align: 1,
    };
    for place in node.kids.first..node.kids.end {
        let member = nodes.node(nodes.kid(place)?)?;
        let extent = kid_extent(nodes, extents, place)?;
        members = members.with(rival, member.offset, extent)?;
    }
    if node.kids.first == node.kids.end {
        return None;
    }
    Some(Extent {
        size: rounded(members.align, members.end)?,
        align: members.align,
    })
}

// The extent of a node by those of what is in it. None where it is not laid out as C has it (6.7.2.1).
fn extent_of(nodes: &Nodes, extents: &[Extent], node: Node) -> Option<Extent> {
    match node.form {
        NodeForm::Scalar(leaf) => {
            let size = leaf_size(leaf);
            Some(Extent { size, align: size })
        }
        NodeForm::Array { count, stride } => {
            array_extent(count, stride, kid_extent(nodes, extents, node.kids.first)?)
        }
        NodeForm::Members { rival } => members_extent(nodes, extents, node, rival),
    }
}

// Sets the extents, those of what is in a node before its own. False where a node is not laid out.
fn set_extents(nodes: &Nodes, extents: &mut [Extent], count: u32) -> bool {
    for number in (0..count).rev() {
        let Some(node) = nodes.node(number) else {
            return false;
        };
        let Some(extent) = extent_of(nodes, extents, node) else {
            return false;
        };
        if let Some(place) = extents.get_mut(number as usize) {
            *place = extent;
        }
    }
    true
}

/// By node, its extent. None where objects are not laid out as C has it.
pub(crate) fn extents_of(alloc: Global, nodes: &Nodes) -> Result<Option<Vec<Extent>>, NoMemory> {
    let mut extents = Vec::new(alloc);
    for _ in &nodes.list {
        extents.push(Extent { size: 0, align: 1 })?;
    }
    if set_extents(nodes, &mut extents, number_of(nodes.list.len())?) {
        Ok(Some(extents))
    } else {
        Ok(None)
    }
}
