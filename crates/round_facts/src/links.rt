// Which functions a function may call, and through which leaf classes functions may meet, by the points-to sets alone.

use crate::access::{Accesses, FUNCTION};
use crate::kept::Solved;
use core_ir::{Callee, CoreProgram, Step, in_order};
use std::alloc::Global;
use sv_base::NoMemory;

/// By function, and by leaf class. All lists ascend.
#[derive(Drop)]
pub struct Links {
    /// The functions that a function may call. External functions have the numbers after those of the defined ones.
    pub called: Vec<Vec<u32>>,
    /// The defined functions that may call a function.
    pub callers: Vec<Vec<u32>>,
    /// The leaf classes that a function may write.
    pub writes: Vec<Vec<u32>>,
    /// By leaf class the functions that may read it.
    pub readers: Vec<Vec<u32>>,
}

// The number of a function's type.
fn kind_of(core: &CoreProgram, g: u32) -> Option<u32> {
    match core.functions.get(g as usize) {
        Some(f) => Some(f.kind),
        None => {
            let e = (g as usize).checked_sub(core.functions.len())?;
            Some(core.externals.get(e)?.kind)
        }
    }
}

fn push_through(
    called: &mut Vec<u32>,
    core: &CoreProgram,
    set: &[u32],
    kind: u32,
) -> Result<(), NoMemory> {
    for member in set {
        if let Some(g) = member.checked_sub(FUNCTION) {
            if kind_of(core, g) == Some(kind) {
                called.push(g)?;
            }
        }
    }
    Ok(())
}

fn push_called(
    called: &mut Vec<u32>,
    core: &CoreProgram,
    solved: &Solved,
    f: u32,
    callee: Callee,
) -> Result<(), NoMemory> {
    match callee {
        Callee::Direct(g) => {
            called.push(g.0)?;
            Ok(())
        }
        Callee::Through { register, kind } => {
            push_through(called, core, solved.set(f, register), kind)
        }
        Callee::External(e) => {
            let number = core.functions.len().saturating_add(e as usize);
            called.push(number.min(4294967295) as u32)?;
            Ok(())
        }
    }
}

// Empty lists, so many.
fn empty_lists(alloc: Global, count: usize) -> Result<Vec<Vec<u32>>, NoMemory> {
    let mut lists = Vec::new(alloc);
    for _list in 0..count {
        lists.push(Vec::new(alloc))?;
    }
    Ok(lists)
}

// The number joins the list of each of these, where it has one.
fn push_to_each(lists: &mut Vec<Vec<u32>>, places: &[u32], number: u32) -> Result<(), NoMemory> {
    for place in places {
        if let Some(list) = lists.get_mut(*place as usize) {
            list.push(number)?;
        }
    }
    Ok(())
}

impl Links {
    fn add(
        &mut self,
        alloc: Global,
        core: &CoreProgram,
        solved: &Solved,
        f: u32,
        steps: &[&Step],
    ) -> Result<(), NoMemory> {
        let mut called = Vec::new(alloc);
        let mut accesses = Accesses::new(alloc, &core.classes, solved, f);
        for step in steps {
            if let Step::Call { callee, .. } = step {
                push_called(&mut called, core, solved, f, *callee)?;
            }
            accesses.add(*step)?;
        }
        called.sort()?;
        called.dedup();
        push_to_each(&mut self.callers, &called, f)?;
        push_to_each(&mut self.readers, &accesses.all_reads()?, f)?;
        self.writes.push(accesses.all_writes()?)?;
        self.called.push(called)?;
        Ok(())
    }

    /// The links of all functions.
    pub fn of(alloc: Global, core: &CoreProgram, solved: &Solved) -> Result<Links, NoMemory> {
        let mut links = Links {
            called: Vec::new(alloc),
            callers: empty_lists(alloc, core.functions.len())?,
            writes: Vec::new(alloc),
            readers: empty_lists(alloc, core.classes.leaves.len())?,
        };
        for k in 0..core.functions.len().min(4294967295) {
            let steps = in_order(alloc, &core.functions[k].body)?;
            links.add(alloc, core, solved, k as u32, &steps)?;
        }
        Ok(links)
    }

    /// The functions that a function may call.
    pub fn called_by(&self, f: u32) -> &[u32] {
        match self.called.get(f as usize) {
            Some(list) => list,
            None => &[],
        }
    }

    /// The defined functions that may call a function.
    pub fn callers_of(&self, f: u32) -> &[u32] {
        match self.callers.get(f as usize) {
            Some(list) => list,
            None => &[],
        }
    }

    /// The leaf classes that a function may write.
    pub fn written_by(&self, f: u32) -> &[u32] {
        match self.writes.get(f as usize) {
            Some(list) => list,
            None => &[],
        }
    }

    /// The functions that may read a leaf class.
    pub fn readers_of(&self, class: u32) -> &[u32] {
        match self.readers.get(class as usize) {
            Some(list) => list,
            None => &[],
        }
    }
}
