use crate::unions::{Passed, Setting, Unions};
use c_classes::{NodeForm, Objects, Span};
use c_typed::InitialPart;
use std::alloc::Global;
use sv_base::NoMemory;

/// A part of an initialiser: its path, and its place in the list of parts.
#[derive(PartialEq, Eq, PartialOrd, Ord, Drop)]
pub struct Entry {
    pub path: Vec<u32>,
    pub at: u32,
}

/// What is known of an entry: the node of its path, and the unions on the path, as places in the list of `Entries`.
#[derive(Clone, Copy)]
pub(crate) struct Found {
    pub(crate) node: u32,
    pub(crate) passed: Span,
}

/// The parts of an initialiser by path, with the unions that their paths pass.
#[derive(Drop)]
pub(crate) struct Entries {
    pub(crate) list: Vec<Entry>,
    pub(crate) found: Vec<Found>,
    pub(crate) passed: Vec<u32>,
    pub(crate) unions: Unions,
}

// A node on the path of an entry, and its number among the unions where it is one.
#[derive(Clone, Copy)]
struct Stop {
    node: u32,
    union: Option<u32>,
}

fn number_of(length: usize) -> Result<u32, NoMemory> {
    match u32::try_from(length) {
        Ok(number) => Ok(number),
        Err(_) => Err(NoMemory),
    }
}

/// The parts of an initialiser by path, those of one path in their order.
pub fn sorted_entries(alloc: Global, parts: &[InitialPart]) -> Result<Vec<Entry>, NoMemory> {
    let mut list = Vec::new(alloc);
    let mut at = 0u32;
    for part in parts {
        let path = Vec::from_slice(alloc, part.path.as_slice())?;
        list.push(Entry { path, at })?;
        at = at.checked_add(1).ok_or(NoMemory)?;
    }
    list.sort()?;
    Ok(list)
}

// How many steps two paths have in common from the start on.
fn common(one: &[u32], other: &[u32]) -> usize {
    let mut count = 0usize;
    for step in one {
        match other.get(count) {
            Some(same) if *same == *step => count = count.saturating_add(1),
            _ => break,
        }
    }
    count
}

fn is_union(objects: &Objects, number: u32) -> bool {
    match objects.node(number) {
        Some(node) => matches!(node.form, NodeForm::Members { rival: true }),
        None => false,
    }
}

// The member or element of a node; the node itself where it has none.
fn inner(objects: &Objects, number: u32, step: u32) -> u32 {
    match objects.node(number) {
        None => number,
        Some(node) => objects.kid(node, step).unwrap_or(number),
    }
}

impl Entries {
    /// The parts of the initialiser of the object with this node.
    pub(crate) fn new(
        alloc: Global,
        objects: &Objects,
        root: u32,
        parts: &[InitialPart],
    ) -> Result<Entries, NoMemory> {
        let list = sorted_entries(alloc, parts)?;
        let mut entries = Entries {
            list: Vec::new(alloc),
            found: Vec::new(alloc),
            passed: Vec::new(alloc),
            unions: Unions::new(alloc),
        };
        let mut along = Vec::new(alloc);
        let mut before: &[u32] = &[];
        let mut number = 0u32;
        for entry in &list {
            let shared = common(before, &entry.path);
            entries.go_along(objects, root, &mut along, entry, shared, number)?;
            entries.note(&along, entry)?;
            before = &entry.path;
            number = number.checked_add(1).ok_or(NoMemory)?;
        }
        entries.list = list;
        Ok(entries)
    }

    // The nodes on the path of an entry, of which the first ones are those of the entry before.
    fn go_along(
        &mut self,
        objects: &Objects,
        root: u32,
        along: &mut Vec<Stop>,
        entry: &Entry,
        shared: usize,
        number: u32,
    ) -> Result<(), NoMemory> {
        if along.is_empty() {
            let union = self.union_at(objects, root, number, 0)?;
            along.push(Stop { node: root, union })?;
        }
        along.truncate(shared.saturating_add(1));
        let mut depth = along.len();
        let mut node = match along.last() {
            None => root,
            Some(stop) => stop.node,
        };
        let known = depth.saturating_sub(1);
        for step in entry.path.iter().skip(known) {
            node = inner(objects, node, *step);
            let union = self.union_at(objects, node, number, depth)?;
            along.push(Stop { node, union })?;
            depth = depth.checked_add(1).ok_or(NoMemory)?;
        }
        Ok(())
    }

    // The number of a node among the unions, if it is one. The first so many steps of the entry's path lead to it.
    fn union_at(
        &mut self,
        objects: &Objects,
        node: u32,
        entry: u32,
        depth: usize,
    ) -> Result<Option<u32>, NoMemory> {
        if is_union(objects, node) {
            Ok(Some(self.unions.add(node, entry, depth)?))
        } else {
            Ok(None)
        }
    }

    // The unions that an entry passes, and where its path leads.
    fn note(&mut self, along: &[Stop], entry: &Entry) -> Result<(), NoMemory> {
        let first = number_of(self.passed.len())?;
        let mut node = 0;
        let mut depth = 0usize;
        for stop in along {
            node = stop.node;
            if let Some(union) = stop.union {
                if let Some(member) = entry.path.get(depth) {
                    let setting = Setting {
                        member: *member,
                        at: entry.at,
                    };
                    self.unions.pass(union, setting);
                    self.passed.push(union)?;
                }
            }
            depth = depth.saturating_add(1);
        }
        let end = number_of(self.passed.len())?;
        let passed = Span { first, end };
        self.found.push(Found { node, passed })?;
        Ok(())
    }

    /// What is known of an entry that stands in the end: no later one is of the same sub-object, and none later sets another member
    /// of a union on its path (ISO/IEC 9899:1999, 6.7.8).
    pub(crate) fn standing(&self, place: usize) -> Option<Found> {
        let found = self.found.get(place)?;
        let entry = self.list.get(place)?;
        if self.is_followed(place, entry) {
            return None;
        }
        for place in found.passed.first..found.passed.end {
            if let Some(union) = self.passed.get(place as usize) {
                if self.unions.is_over(*union, entry.at) {
                    return None;
                }
            }
        }
        Some(*found)
    }

    // Whether the next entry has the same path.
    fn is_followed(&self, place: usize, entry: &Entry) -> bool {
        match place.checked_add(1) {
            None => false,
            Some(place) => match self.list.get(place) {
                None => false,
                Some(next) => next.path == entry.path,
            },
        }
    }

    /// The part of an entry.
    pub(crate) fn part<'a>(
        &self,
        parts: &'a [InitialPart],
        place: usize,
    ) -> Option<&'a InitialPart> {
        let entry = self.list.get(place)?;
        parts.get(entry.at as usize)
    }

    /// The path of a union.
    pub(crate) fn path_to(&self, alloc: Global, union: Passed) -> Result<Vec<u32>, NoMemory> {
        let mut path = Vec::new(alloc);
        if let Some(entry) = self.list.get(union.entry as usize) {
            for step in entry.path.iter().take(union.depth) {
                path.push(*step)?;
            }
        }
        Ok(path)
    }

    /// The unions on the path of an entry that stands begin with the members that the path takes.
    pub(crate) fn choose(&mut self, found: Found) {
        for place in found.passed.first..found.passed.end {
            if let Some(union) = self.passed.get(place as usize) {
                self.unions.choose(*union);
            }
        }
    }
}
