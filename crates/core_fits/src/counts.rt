use objects_fit::{Node, NodeForm, Nodes};
use std::alloc::Global;
use sv_base::NoMemory;

/// How often the sub-objects of a node occur in an object.
#[derive(Clone, Copy)]
pub(crate) struct Count {
    /// In all elements of the arrays around it.
    pub(crate) all: u64,
    /// Where each union around it begins with the member in which it is.
    pub(crate) begun: u64,
    /// Of those that are begun, the unions of which a member is listed, and the members that are listed.
    set: u64,
    chosen: u64,
    /// Of those that are begun, the leaves of which a value is listed.
    pub(crate) given: u64,
}

/// By node.
#[derive(Drop)]
pub(crate) struct Counts {
    list: Vec<Count>,
}

// How often a member of a union is the one with which it begins: without a listed one it is the first.
fn begun_in_union(around: Count, kid: Count, is_first: bool) -> Option<u64> {
    if is_first {
        around
            .begun
            .checked_sub(around.set)?
            .checked_add(kid.chosen)
    } else {
        Some(kid.chosen)
    }
}

// The counts of a node by those of the node around it. None where they are too great.
fn within(form: NodeForm, around: Count, kid: Count, is_first: bool) -> Option<Count> {
    let mut next = kid;
    match form {
        NodeForm::Scalar(_) => return None,
        NodeForm::Array { count, .. } => {
            next.all = around.all.checked_mul(count)?;
            next.begun = around.begun.checked_mul(count)?;
        }
        NodeForm::Members { rival } => {
            next.all = around.all;
            next.begun = if rival {
                begun_in_union(around, kid, is_first)?
            } else {
                around.begun
            };
        }
    }
    Some(next)
}

impl Counts {
    /// Nothing is counted yet.
    pub(crate) fn new(alloc: Global, nodes: &Nodes) -> Result<Counts, NoMemory> {
        let mut list = Vec::new(alloc);
        for _ in &nodes.list {
            list.push(Count {
                all: 1,
                begun: 1,
                set: 0,
                chosen: 0,
                given: 0,
            })?;
        }
        Ok(Counts { list })
    }

    pub(crate) fn at(&self, node: u32) -> Option<Count> {
        self.list.get(node as usize).copied()
    }

    /// A value of a leaf that is begun is listed.
    pub(crate) fn give(&mut self, leaf: u32) {
        if let Some(count) = self.list.get_mut(leaf as usize) {
            count.given = count.given.saturating_add(1);
        }
    }

    /// A member of a union that is begun is listed.
    pub(crate) fn choose(&mut self, union: u32, member: u32) {
        if let Some(count) = self.list.get_mut(union as usize) {
            count.set = count.set.saturating_add(1);
        }
        if let Some(count) = self.list.get_mut(member as usize) {
            count.chosen = count.chosen.saturating_add(1);
        }
    }

    // The counts of a node, once those of the node around it are complete.
    fn completed(&self, nodes: &Nodes, number: u32, node: Node) -> Option<Count> {
        let kid = self.at(number)?;
        let Some(parent) = node.parent else {
            return Some(kid);
        };
        let outer = nodes.node(parent)?;
        let is_first = nodes.kid(outer.kids.first) == Some(number);
        within(outer.form, self.at(parent)?, kid, is_first)
    }

    /// All that is listed is counted: how often each sub-object occurs. False where counts are too great.
    pub(crate) fn complete(&mut self, nodes: &Nodes) -> bool {
        let mut number = 0u32;
        for node in &nodes.list {
            match self.completed(nodes, number, *node) {
                None => return false,
                Some(count) => {
                    if let Some(place) = self.list.get_mut(number as usize) {
                        *place = count;
                    }
                }
            }
            number = number.saturating_add(1);
        }
        true
    }
}
