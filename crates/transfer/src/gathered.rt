use core_ir::{Bounds, CallPart, Effects, LeafPart, WritePart};
use intervals::{Interval, join};
use std::alloc::Global;
use std::collections::BTreeMap;
use stored_bounds::{joined, unknown};
use sv_base::NoMemory;

/// What steps contribute: by callee to its context, and by leaf class what is written there.
#[derive(Drop)]
pub struct Gathered {
    calls: BTreeMap<u32, Vec<Bounds>>,
    writes: BTreeMap<u32, Interval>,
}

// Matrix by matrix.
fn join_all(alloc: Global, a: &[Bounds], b: &[Bounds]) -> Result<Vec<Bounds>, NoMemory> {
    let mut list = Vec::new(alloc);
    for (left, right) in a.iter().zip(b) {
        list.push(joined(alloc, left, right)?)?;
    }
    Ok(list)
}

impl Gathered {
    /// Nothing is contributed.
    pub fn new(alloc: Global) -> Gathered {
        Gathered {
            calls: BTreeMap::new(alloc),
            writes: BTreeMap::new(alloc),
        }
    }

    fn write(&mut self, class: u32, i: Interval) -> Result<(), NoMemory> {
        if let Some(old) = self.writes.get_mut(&class) {
            *old = join(*old, i);
            return Ok(());
        }
        self.writes.insert(class, i)?;
        Ok(())
    }

    /// Numbers are written to a leaf class. Each of its rivals becomes indeterminate.
    pub(crate) fn give(&mut self, leaf: &LeafPart, i: Interval) -> Result<(), NoMemory> {
        self.write(leaf.class, i)?;
        for (class, rival) in &leaf.rivals {
            self.write(*class, unknown(*rival))?;
        }
        Ok(())
    }

    /// A callee is called with these matrices over its entry registers.
    pub(crate) fn call(
        &mut self,
        alloc: Global,
        callee: u32,
        entry: Vec<Bounds>,
    ) -> Result<(), NoMemory> {
        if let Some(old) = self.calls.get_mut(&callee) {
            *old = join_all(alloc, old, &entry)?;
            return Ok(());
        }
        self.calls.insert(callee, entry)?;
        Ok(())
    }

    /// All that was contributed, by ascending numbers.
    pub fn into_effects(self, alloc: Global) -> Result<Effects, NoMemory> {
        let Gathered {
            calls: by_callee,
            writes: by_class,
        } = self;
        let mut calls = Vec::new(alloc);
        for (callee, entry) in by_callee {
            calls.push(CallPart { callee, entry })?;
        }
        let mut writes = Vec::new(alloc);
        for (class, i) in by_class {
            writes.push(WritePart {
                class,
                low: i.low,
                high: i.high,
            })?;
        }
        Ok(Effects { calls, writes })
    }
}
