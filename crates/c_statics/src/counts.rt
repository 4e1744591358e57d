use c_classes::{Node, NodeForm, Objects};
use std::alloc::Global;
use sv_base::NoMemory;

/// How often the sub-objects of a node occur in an object.
#[derive(Clone, Copy)]
pub(crate) struct Count {
    /// In all elements of the arrays around it.
    pub(crate) all: u64,
    /// Where each union around it begins with the member in which it is.
    pub(crate) begun: u64,
    /// Where a union is begun by a part of the initialiser, with any member, and where a part chooses this member of a union.
    pub(crate) set: u64,
    pub(crate) chosen: u64,
    /// Where a part gives a leaf its value.
    pub(crate) given: u64,
}

/// The counts of the nodes of one object, from its root on.
#[derive(Drop)]
pub(crate) struct Counts {
    root: u32,
    list: Vec<Count>,
}

fn given_once_more(count: Count) -> Count {
    let mut next = count;
    next.given = next.given.saturating_add(1);
    next
}

fn set_once_more(count: Count) -> Count {
    let mut next = count;
    next.set = next.set.saturating_add(1);
    next
}

fn chosen_once_more(count: Count) -> Count {
    let mut next = count;
    next.chosen = next.chosen.saturating_add(1);
    next
}

// How often a member of a union is the one with which it begins: without a part of the initialiser it is the first one.
fn begun_in_union(around: Count, kid: Count, is_first: bool) -> u64 {
    if is_first {
        around
            .begun
            .saturating_sub(around.set)
            .saturating_add(kid.chosen)
    } else {
        kid.chosen
    }
}

// The counts of a node by those of the node around it.
fn within(node: &Node, around: Count, kid: Count, is_first: bool) -> Count {
    let mut next = kid;
    match node.form {
        NodeForm::Scalar(_) => {}
        NodeForm::Array { count, .. } => {
            next.all = around.all.saturating_mul(count);
            next.begun = around.begun.saturating_mul(count);
        }
        NodeForm::Members { rival } => {
            next.all = around.all;
            next.begun = if rival {
                begun_in_union(around, kid, is_first)
            } else {
                around.begun
            };
        }
    }
    next
}

impl Counts {
    /// The object with this root, of which no part is counted yet.
    pub(crate) fn new(alloc: Global, objects: &Objects, root: u32) -> Result<Counts, NoMemory> {
        let end = match objects.node(root) {
            None => root,
            Some(node) => node.end,
        };
        let mut list = Vec::new(alloc);
        for _ in root..end {
            list.push(Count {
                all: 1,
                begun: 1,
                set: 0,
                chosen: 0,
                given: 0,
            })?;
        }
        Ok(Counts { root, list })
    }

    pub(crate) fn at(&self, node: u32) -> Option<Count> {
        let place = node.checked_sub(self.root)?;
        self.list.get(place as usize).copied()
    }

    fn put(&mut self, node: u32, count: Count) {
        if let Some(place) = node.checked_sub(self.root) {
            if let Some(old) = self.list.get_mut(place as usize) {
                *old = count;
            }
        }
    }

    /// A part gives a leaf its value.
    pub(crate) fn give(&mut self, leaf: u32) {
        if let Some(count) = self.at(leaf) {
            self.put(leaf, given_once_more(count));
        }
    }

    /// A union begins with a member, by a part.
    pub(crate) fn choose(&mut self, union: u32, member: u32) {
        if let Some(count) = self.at(union) {
            self.put(union, set_once_more(count));
        }
        if let Some(count) = self.at(member) {
            self.put(member, chosen_once_more(count));
        }
    }

    // The counts of a node, once those of the node around it are complete.
    fn complete_one(&mut self, objects: &Objects, number: u32) {
        let Some(node) = objects.node(number) else {
            return;
        };
        let Some(parent) = node.parent else {
            return;
        };
        let (Some(around), Some(kid)) = (self.at(parent), self.at(number)) else {
            return;
        };
        if let Some(outer) = objects.node(parent) {
            let is_first = objects.kid(outer, 0) == Some(number);
            self.put(number, within(outer, around, kid, is_first));
        }
    }

    /// All parts are counted: how often each sub-object occurs.
    pub(crate) fn complete(&mut self, objects: &Objects) {
        if let Some(node) = objects.node(self.root) {
            for number in self.root..node.end {
                self.complete_one(objects, number);
            }
        }
    }
}
