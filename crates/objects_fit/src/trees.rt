use crate::nodes::{Node, Nodes, Span, number_of};
use std::alloc::Global;
use sv_base::NoMemory;

// Types are numbered by their first use, and a use takes a token.
const LAYOUTS: usize = 8_388_608;

/// The nodes by the numbers of their types.
#[derive(Drop)]
pub(crate) struct Layouts {
    /// By type, the first node of it.
    first: Vec<Option<u32>>,
    /// By node, the next one of its type.
    next: Vec<Option<u32>>,
}

// Room for the number of each type. None where one is too great.
fn room_for(alloc: Global, nodes: &Nodes) -> Result<Option<Layouts>, NoMemory> {
    let mut layouts = Layouts {
        first: Vec::new(alloc),
        next: Vec::new(alloc),
    };
    for node in &nodes.list {
        let layout = node.layout as usize;
        if layout >= LAYOUTS {
            return Ok(None);
        }
        for _ in layouts.first.len()..layout + 1 {
            layouts.first.push(None)?;
        }
        layouts.next.push(None)?;
    }
    Ok(Some(layouts))
}

impl Layouts {
    /// None where a type's number is too great.
    pub(crate) fn of(alloc: Global, nodes: &Nodes) -> Result<Option<Layouts>, NoMemory> {
        let Some(mut layouts) = room_for(alloc, nodes)? else {
            return Ok(None);
        };
        for number in (0..number_of(nodes.list.len())?).rev() {
            if let Some(node) = nodes.node(number) {
                layouts.put_before(node.layout, number);
            }
        }
        Ok(Some(layouts))
    }

    // A node comes before those of its type that are there.
    fn put_before(&mut self, layout: u32, number: u32) {
        if let Some(first) = self.first.get_mut(layout as usize) {
            if let Some(next) = self.next.get_mut(number as usize) {
                *next = *first;
            }
            *first = Some(number);
        }
    }

    /// The number behind that of the last type that a node has.
    pub(crate) fn len(&self) -> usize {
        self.first.len()
    }

    /// The first node of a type.
    pub(crate) fn first(&self, layout: u32) -> Option<u32> {
        self.first.get(layout as usize).copied()?
    }

    /// The next node of the same type.
    pub(crate) fn after(&self, node: u32) -> Option<u32> {
        self.next.get(node as usize).copied()?
    }
}

// Whether two members or elements lie alike and are of one type.
fn kids_alike(nodes: &Nodes, one: u32, other: u32) -> Option<bool> {
    let one = nodes.node(nodes.kid(one)?)?;
    let other = nodes.node(nodes.kid(other)?)?;
    Some(one.offset == other.offset && one.layout == other.layout)
}

fn all_kids_alike(nodes: &Nodes, one: Span, other: Span) -> bool {
    let mut place = other.first;
    for kid in one.first..one.end {
        if place >= other.end || kids_alike(nodes, kid, place) != Some(true) {
            return false;
        }
        place = place.saturating_add(1);
    }
    place == other.end
}

fn is_alike(nodes: &Nodes, one: Node, other: Node) -> bool {
    one.form == other.form && all_kids_alike(nodes, one.kids, other.kids)
}

/// Whether sub-objects of one type have one tree: each is like the first one of its type, and so is what is in it.
pub(crate) fn have_one_tree(nodes: &Nodes, layouts: &Layouts) -> bool {
    for node in &nodes.list {
        let Some(first) = layouts.first(node.layout) else {
            return false;
        };
        let Some(model) = nodes.node(first) else {
            return false;
        };
        if !is_alike(nodes, *node, model) {
            return false;
        }
    }
    true
}
