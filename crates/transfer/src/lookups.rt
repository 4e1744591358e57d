use crate::known::Known;
use crate::loading::{lengths, load};
use crate::results::{ResultBound, result_bounds};
use core_ir::{CalleePart, Leaf};
use intervals::Interval;
use std::alloc::Global;
use std::collections::BTreeMap;
use sv_base::NoMemory;

/// What steps looked up in the facts of one analysis, which stay the same all the time: what loads find, by address and kind;
/// the lengths of regions, by address; and what calls give, by callee.
#[derive(Drop)]
pub struct Lookups {
    loads: BTreeMap<(u32, u32), Option<Interval>>,
    lengths: BTreeMap<u32, Option<(u64, u64)>>,
    results: BTreeMap<u32, Option<Vec<ResultBound>>>,
}

fn kind_of(leaf: Leaf) -> u32 {
    match leaf {
        Leaf::Pointer => 0,
        Leaf::Int(t) => 1 + t as u32,
    }
}

impl Lookups {
    /// Nothing was looked up yet.
    pub fn new(alloc: Global) -> Lookups {
        Lookups {
            loads: BTreeMap::new(alloc),
            lengths: BTreeMap::new(alloc),
            results: BTreeMap::new(alloc),
        }
    }

    /// What a load finds; none where there is nothing to find yet.
    pub(crate) fn load(
        &mut self,
        facts: Known<'_>,
        address: u32,
        leaf: Leaf,
    ) -> Result<Option<Interval>, NoMemory> {
        let key = (address, kind_of(leaf));
        if let Some(found) = self.loads.get(&key) {
            return Ok(*found);
        }
        let found = load(facts, address, leaf);
        self.loads.insert(key, found)?;
        Ok(found)
    }

    /// The shortest and the longest of the regions at an address; none where there is no region.
    pub(crate) fn lengths(
        &mut self,
        facts: Known<'_>,
        address: u32,
    ) -> Result<Option<(u64, u64)>, NoMemory> {
        if let Some(found) = self.lengths.get(&address) {
            return Ok(*found);
        }
        let found = lengths(facts, address);
        self.lengths.insert(address, found)?;
        Ok(found)
    }

    /// Makes what a callee gives ready to be read.
    pub(crate) fn prepare(&mut self, alloc: Global, part: &CalleePart) -> Result<(), NoMemory> {
        if !self.results.contains_key(&part.callee) {
            let found = result_bounds(alloc, part)?;
            self.results.insert(part.callee, found)?;
        }
        Ok(())
    }

    /// What a callee gives; none where it does not return.
    pub(crate) fn result(&self, callee: u32) -> Option<&Vec<ResultBound>> {
        match self.results.get(&callee) {
            Some(Some(bounds)) => return Some(bounds),
            _ => return None,
        }
    }
}
