// A walk over a body in one state: what it has met, and what to do at single steps.

use crate::matrices::joined_list;
use crate::recall::Recall;
use core_ir::{Bounds, Function, Operand, Step, in_order};
use intervals::Interval;
use std::alloc::Global;
use sv_base::{Colour, NoMemory, SiteId};
use transfer::{Gathered, Known, Lookups, after, colour_at, step};
use var_state::{Patch, Running, State};

/// A block around the present step.
#[derive(Drop)]
pub(crate) struct OpenBlock {
    // the mark at its start
    pub(crate) mark: usize,
    // the states in which steps left it, joined, relative to the mark
    pub(crate) exits: Patch,
}

#[derive(Drop)]
pub(crate) struct Walk<'a> {
    pub(crate) alloc: Global,
    pub(crate) f: &'a Function,
    pub(crate) known: Known<'a>,
    /// Entry and result registers by cluster.
    pub(crate) groups: &'a [Vec<u32>],
    pub(crate) running: Running,
    pub(crate) lookups: Lookups,
    pub(crate) gathered: Gathered,
    pub(crate) visits: Vec<(SiteId, Colour)>,
    pub(crate) result: Option<Vec<Bounds>>,
    /// Innermost last.
    pub(crate) blocks: Vec<OpenBlock>,
    /// Exits to blocks before this place do not count.
    pub(crate) first_live: usize,
    /// Whether contributions, returns and visits count.
    pub(crate) counts: bool,
    /// Whether a loop stands around the present step.
    pub(crate) in_loop: bool,
    pub(crate) recall: Recall,
}

impl<'a> Walk<'a> {
    pub(crate) fn new(
        alloc: Global,
        f: &'a Function,
        known: Known<'a>,
        groups: &'a [Vec<u32>],
        state: State,
    ) -> Result<Walk<'a>, NoMemory> {
        Ok(Walk {
            alloc,
            f,
            known,
            groups,
            running: Running::new(alloc, state)?,
            lookups: Lookups::new(alloc),
            gathered: Gathered::new(alloc),
            visits: Vec::new(alloc),
            result: None,
            blocks: Vec::new(alloc),
            first_live: 0,
            counts: true,
            in_loop: false,
            recall: Recall::new(alloc),
        })
    }

    /// The result, the contributions and the visits.
    pub(crate) fn into_parts(self) -> (Option<Vec<Bounds>>, Gathered, Vec<(SiteId, Colour)>) {
        let Walk {
            gathered,
            visits,
            result: returned,
            ..
        } = self;
        (returned, gathered, visits)
    }

    pub(crate) fn is_bottom(&self) -> bool {
        self.running.state().is_bottom()
    }

    /// Steps that no state reaches: their checks are visited as unreachable, and their loops are counted.
    pub(crate) fn pass_over(&mut self, steps: &[Step]) -> Result<(), NoMemory> {
        let all = in_order(self.alloc, steps)?;
        for step in &all {
            match step {
                Step::Check { site, .. } => {
                    if self.counts {
                        self.visits.push((*site, Colour::Unreachable))?;
                    }
                }
                Step::Loop(_) => self.recall.pass_over(),
                _ => {}
            }
        }
        Ok(())
    }

    pub(crate) fn open_block(&mut self) -> Result<(), NoMemory> {
        let mark = self.running.mark()?;
        let exits = Patch::bottom(self.alloc);
        self.blocks.push(OpenBlock { mark, exits })?;
        Ok(())
    }

    /// The state behind the innermost block.
    pub(crate) fn close_block(&mut self) -> Result<(), NoMemory> {
        if let Some(block) = self.blocks.pop() {
            self.running.join(self.alloc, block.exits)?;
            self.running.release();
        }
        Ok(())
    }

    // The place of a block that a step leaves, none where that does not count.
    fn place_of(&self, block: u32) -> Option<usize> {
        let place = self
            .blocks
            .len()
            .checked_sub(1)?
            .checked_sub(block as usize)?;
        if place < self.first_live {
            None
        } else {
            Some(place)
        }
    }

    /// Leaves a block around the step, 0 the innermost one.
    pub(crate) fn exit(&mut self, block: u32) -> Result<(), NoMemory> {
        match self.place_of(block) {
            Some(place) => {
                if let Some(open) = self.blocks.get_mut(place) {
                    self.running.leave(self.alloc, open.mark, &mut open.exits)?;
                }
            }
            None => self.running.set_bottom(),
        }
        Ok(())
    }

    // Puts what is given back into the result register.
    fn set_result(&mut self, r: u32, value: Option<Operand>) -> Result<(), NoMemory> {
        match value {
            None => {
                let range = self.running.state().range(r);
                self.running.set_interval(self.alloc, r, Some(range))
            }
            Some(Operand::Reg(from)) => self.running.set_sum(self.alloc, r, from, 0),
            Some(Operand::Const(c)) => self
                .running
                .set_interval(self.alloc, r, Some(Interval { low: c, high: c })),
        }
    }

    fn add_result(&mut self, value: Option<Operand>) -> Result<(), NoMemory> {
        if let Some(r) = self.f.result {
            self.set_result(r, value)?;
        }
        if self.is_bottom() {
            return Ok(());
        }
        let new = projected_list(self.alloc, self.running.state(), self.groups)?;
        let joined = match &self.result {
            None => new,
            Some(old) => joined_list(self.alloc, old, &new)?,
        };
        self.result = Some(joined);
        Ok(())
    }

    /// The function ends.
    pub(crate) fn give_back(&mut self, value: Option<Operand>) -> Result<(), NoMemory> {
        if self.counts && !self.is_bottom() {
            self.add_result(value)?;
        }
        self.running.set_bottom();
        Ok(())
    }

    fn see(&mut self, site: SiteId, address: u32, width: u64) -> Result<(), NoMemory> {
        let colour = colour_at(
            self.running.state(),
            address,
            width,
            self.known,
            &mut self.lookups,
        )?;
        self.visits.push((site, colour))?;
        Ok(())
    }

    /// A step with no steps inside that goes on behind it.
    pub(crate) fn plain(&mut self, s: &Step) -> Result<(), NoMemory> {
        if !self.counts {
            return after(
                self.alloc,
                &mut self.running,
                s,
                self.known,
                &mut self.lookups,
            );
        }
        if let Step::Check {
            site,
            address,
            width,
        } = s
        {
            self.see(*site, *address, *width)?;
        }
        step(
            self.alloc,
            &mut self.running,
            s,
            self.known,
            &mut self.lookups,
            &mut self.gathered,
        )
    }
}

// The bound of `v_j - v_i`, where variable k is the register at k - 1 of the group, and variable 0 is zero.
fn projected_bound(state: &State, group: &[u32], i: usize, j: usize) -> Option<i128> {
    match (i.checked_sub(1), j.checked_sub(1)) {
        (None, Some(j)) => Some(state.bounds(*group.get(j)?)?.high),
        (Some(i), None) => Some(state.bounds(*group.get(i)?)?.low.wrapping_neg()),
        (Some(i), Some(j)) => state.difference(*group.get(j)?, *group.get(i)?),
        (None, None) => None,
    }
}

fn projected(alloc: Global, state: &State, group: &[u32]) -> Result<Bounds, NoMemory> {
    let mut entries = Vec::new(alloc);
    for i in 0..group.len().saturating_add(1) {
        for j in 0..group.len().saturating_add(1) {
            if i != j {
                entries.push(projected_bound(state, group, i, j))?;
            }
        }
    }
    Ok(Bounds {
        size: group.len().min(16) as u8,
        entries,
    })
}

// What a state says of registers that stand in one cluster, group by group.
fn projected_list(
    alloc: Global,
    state: &State,
    groups: &[Vec<u32>],
) -> Result<Vec<Bounds>, NoMemory> {
    let mut list = Vec::new(alloc);
    for group in groups {
        list.push(projected(alloc, state, group)?)?;
    }
    Ok(list)
}
