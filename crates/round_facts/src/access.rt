// Which leaf classes a step of a function may read and write, by the points-to sets alone.

use crate::kept::Solved;
use c_values::{IntType, width};
use core_ir::{ClassTable, LayoutPart, Leaf, RegionClass, Step};
use std::alloc::Global;
use std::collections::HashSet;
use sv_base::NoMemory;

/// Functions have the numbers from this one on in points-to sets.
pub(crate) const FUNCTION: u32 = 2147483648;

// Whether an access as one type may meet a leaf of the other: two pointers, or integers of one size and both or none `_Bool`.
fn agree(a: Leaf, b: Leaf) -> bool {
    match (a, b) {
        (Leaf::Pointer, Leaf::Pointer) => true,
        (Leaf::Int(s), Leaf::Int(t)) => width(s) == width(t),
        _ => false,
    }
}

fn is_character(leaf: Leaf) -> bool {
    matches!(
        leaf,
        Leaf::Int(IntType::Char) | Leaf::Int(IntType::SChar) | Leaf::Int(IntType::UChar)
    )
}

fn number_of(leaf: Leaf) -> u8 {
    match leaf {
        Leaf::Int(kind) => kind as u8,
        Leaf::Pointer => 255,
    }
}

#[derive(Clone, Copy, PartialEq, Eq, Hash)]
struct Access {
    address: u32,
    leaf: u8,
    stores: bool,
}

/// The leaf classes that a function may read and write.
#[derive(Drop)]
pub(crate) struct Accesses<'a> {
    pub(crate) alloc: Global,
    pub(crate) classes: &'a ClassTable,
    pub(crate) solved: &'a Solved,
    pub(crate) f: u32,
    seen: HashSet<Access>,
    pub(crate) reads: Vec<u32>,
    pub(crate) writes: Vec<u32>,
}

fn push_all(list: &mut Vec<u32>, more: &[u32]) -> Result<(), NoMemory> {
    list.extend_from_slice(more)?;
    Ok(())
}

fn has_layout(part: &LayoutPart, layout: u32) -> bool {
    part.layout == layout
}

// The leaf classes of the sub-objects of a type in a region class.
fn push_copied(list: &mut Vec<u32>, region: &RegionClass, layout: u32) -> Result<(), NoMemory> {
    for part in &region.layouts {
        if has_layout(part, layout) {
            push_all(list, &part.leaves)?;
        }
    }
    Ok(())
}

impl<'a> Accesses<'a> {
    pub(crate) fn new(
        alloc: Global,
        classes: &'a ClassTable,
        solved: &'a Solved,
        f: u32,
    ) -> Accesses<'a> {
        Accesses {
            alloc,
            classes,
            solved,
            f,
            seen: HashSet::new(alloc),
            reads: Vec::new(alloc),
            writes: Vec::new(alloc),
        }
    }

    // The leaf classes to which an address may point, with repetitions.
    fn leaves_at(&self, address: u32) -> Result<Vec<u32>, NoMemory> {
        let mut leaves = Vec::new(self.alloc);
        for member in self.solved.set(self.f, address) {
            if let Some(region) = self.classes.regions.get(*member as usize) {
                push_all(&mut leaves, &region.leaves)?;
            }
        }
        Ok(leaves)
    }

    // Whether a leaf class holds what agrees with an access.
    fn meets(&self, class: u32, leaf: Leaf) -> bool {
        match self.classes.leaves.get(class as usize) {
            Some(held) => agree(*held, leaf),
            None => false,
        }
    }

    fn is_new(&mut self, address: u32, leaf: Leaf, stores: bool) -> Result<bool, NoMemory> {
        let access = Access {
            address,
            leaf: number_of(leaf),
            stores,
        };
        Ok(self.seen.insert(access)?)
    }

    // A character load that may meet another type reads no interval.
    fn load(&mut self, address: u32, leaf: Leaf) -> Result<(), NoMemory> {
        if !self.is_new(address, leaf, false)? {
            return Ok(());
        }
        let leaves = self.leaves_at(address)?;
        let mut met = Vec::new(self.alloc);
        for class in &leaves {
            if self.meets(*class, leaf) {
                met.push(*class)?;
            }
        }
        if is_character(leaf) && met.len() < leaves.len() {
            return Ok(());
        }
        push_all(&mut self.reads, &met)
    }

    // A character store may also change leaves of other types.
    fn store(&mut self, address: u32, leaf: Leaf) -> Result<(), NoMemory> {
        if !self.is_new(address, leaf, true)? {
            return Ok(());
        }
        let leaves = self.leaves_at(address)?;
        for class in &leaves {
            if is_character(leaf) || self.meets(*class, leaf) {
                self.writes.push(*class)?;
            }
        }
        Ok(())
    }

    fn begin(&mut self, object: u32) -> Result<(), NoMemory> {
        if let Some(region) = self.classes.regions.get(object as usize) {
            push_all(&mut self.writes, &region.leaves)?;
        }
        Ok(())
    }

    fn copy_from(&mut self, from: u32, layout: u32) -> Result<(), NoMemory> {
        for member in self.solved.set(self.f, from) {
            if let Some(region) = self.classes.regions.get(*member as usize) {
                push_copied(&mut self.reads, region, layout)?;
            }
        }
        Ok(())
    }

    fn copy_to(&mut self, to: u32, layout: u32) -> Result<(), NoMemory> {
        for member in self.solved.set(self.f, to) {
            if let Some(region) = self.classes.regions.get(*member as usize) {
                push_copied(&mut self.writes, region, layout)?;
            }
        }
        Ok(())
    }

    pub(crate) fn add(&mut self, step: &Step) -> Result<(), NoMemory> {
        match step {
            Step::Load {
                address,
                leaf,
                volatile,
                ..
            } => {
                if *volatile {
                    return Ok(());
                }
                self.load(*address, *leaf)
            }
            Step::Store { address, leaf, .. } => self.store(*address, *leaf),
            Step::CopyObject { to, from, layout } => {
                self.copy_from(*from, *layout)?;
                self.copy_to(*to, *layout)
            }
            Step::Begin {
                object,
                initialised,
            } => {
                if *initialised {
                    return Ok(());
                }
                self.begin(*object)
            }
            _ => Ok(()),
        }
    }

    /// What is written with its rivals, each class once and ascending.
    pub(crate) fn all_writes(&self) -> Result<Vec<u32>, NoMemory> {
        let mut all = Vec::new(self.alloc);
        for class in &self.writes {
            all.push(*class)?;
            if let Some(rivals) = self.classes.rivals.get(*class as usize) {
                push_all(&mut all, rivals)?;
            }
        }
        all.sort()?;
        all.dedup();
        Ok(all)
    }

    /// Each class that is read once, ascending.
    pub(crate) fn all_reads(&self) -> Result<Vec<u32>, NoMemory> {
        let mut all = Vec::from_slice(self.alloc, &self.reads)?;
        all.sort()?;
        all.dedup();
        Ok(all)
    }
}
