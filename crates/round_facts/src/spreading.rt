// How a change spreads: from a function to those that it may call, to those that may call it, and to those that may read what it may
// write.

use crate::links::Links;
use std::alloc::Global;
use sv_base::NoMemory;

#[derive(Drop)]
struct Spread<'a> {
    links: &'a Links,
    // by function whether it is reached
    reached: Vec<bool>,
    // by leaf class whether its readers are reached
    stirred: Vec<bool>,
    // functions that were reached and from which nothing was spread yet
    todo: Vec<u32>,
}

fn flags(alloc: Global, count: usize) -> Result<Vec<bool>, NoMemory> {
    let mut flags = Vec::new(alloc);
    for _flag in 0..count {
        flags.push(false)?;
    }
    Ok(flags)
}

// Sets a flag, and says whether it was not set before.
fn set(flags: &mut Vec<bool>, place: u32) -> bool {
    match flags.get_mut(place as usize) {
        Some(flag) => {
            let is_new = !*flag;
            *flag = true;
            is_new
        }
        None => false,
    }
}

impl<'a> Spread<'a> {
    fn new(alloc: Global, links: &'a Links) -> Result<Spread<'a>, NoMemory> {
        Ok(Spread {
            links,
            reached: flags(alloc, links.called.len())?,
            stirred: flags(alloc, links.readers.len())?,
            todo: Vec::new(alloc),
        })
    }

    fn reach(&mut self, functions: &[u32]) -> Result<(), NoMemory> {
        for g in functions {
            if set(&mut self.reached, *g) {
                self.todo.push(*g)?;
            }
        }
        Ok(())
    }

    fn stir(&mut self, class: u32) -> Result<(), NoMemory> {
        if set(&mut self.stirred, class) {
            let links = self.links;
            self.reach(links.readers_of(class))?;
        }
        Ok(())
    }

    // From one function.
    fn spread_from(&mut self, f: u32) -> Result<(), NoMemory> {
        let links = self.links;
        self.reach(links.called_by(f))?;
        self.reach(links.callers_of(f))?;
        for class in links.written_by(f) {
            self.stir(*class)?;
        }
        Ok(())
    }
}

/// Those that are reached from the functions that changed, and these, by function: the least set that is closed.
pub fn reached_in_all_steps(
    alloc: Global,
    links: &Links,
    changed: &[u32],
) -> Result<Vec<bool>, NoMemory> {
    let mut spread = Spread::new(alloc, links)?;
    spread.reach(changed)?;
    for _function in 0..u64::MAX {
        match spread.todo.pop() {
            Some(f) => spread.spread_from(f)?,
            None => break,
        }
    }
    Ok(spread.reached)
}

/// The functions that changed, and those that are reached from these at once, by function.
pub fn reached_in_one_step(
    alloc: Global,
    links: &Links,
    changed: &[u32],
) -> Result<Vec<bool>, NoMemory> {
    let mut spread = Spread::new(alloc, links)?;
    spread.reach(changed)?;
    for f in changed {
        spread.spread_from(*f)?;
    }
    Ok(spread.reached)
}
