// All rounds of an analysis in memory, one task after another.

ghost use Rattle.std.specs.Prelude.{◌≡◌, ◌+◌, ◌<◌, ◌^◌, IfOk, OnOk, Some, false, length, map, min, slice_get, true};
ghost use Rattle.std.specs.List.{range_with_len};
ghost use Rattle.round_tasks.specs.Rounds.{last_tasks, numbered, program_of, rounds_of, tasks_in};

use crate::analysed::Analysis;
use crate::basis::Basis;
use artifact_codec::decode;
use core_ir::Stored;
use round_facts::{Artifacts, FIRST_RISING};
use std::alloc::Global;
use std::sync::Arc;
use sv_base::{Colour, NoMemory, SiteId};

/// The rounds that are done, from the first one on. The artifacts of those that no later round reads are dropped.
#[derive(Drop)]
pub struct Alone {
    // by round, and then by task
    rounds: Vec<Vec<Vec<u8>>>,
    still: Option<u32>,
}

impl Artifacts for Alone {
    fn get(&self, round: u32, task: u32) -> Option<&[u8]> {
        let row = self.rounds.get(round as usize)?;
        Some(row.get(task as usize)?.as_slice())
    }

    fn still(&self) -> Option<u32> {
        self.still
    }
}

fn is_same(before: &[Vec<u8>], now: &[Vec<u8>]) -> bool {
    if before.len() != now.len() {
        return false;
    }
    for task in 0..now.len() {
        if before[task].as_slice() != now[task].as_slice() {
            return false;
        }
    }
    true
}

impl Alone {
    /// No round is done.
    pub fn new(alloc: Global) -> Alone
        ensures rounds { rounds_of result ≡ 0 }
        ensures tasks { last_tasks result ≡ 0 }
    {
        Alone {
            rounds: Vec::new(alloc),
            still: None,
        }
    }

    /// How many rounds are done.
    pub fn rounds(&self) -> u32
        ensures { result ≡ rounds_of self.now }
    {
        self.rounds.len().min(4294967295) as u32
    }

    /// How many tasks the last round had that is done.
    pub fn tasks(&self) -> u32
        ensures { result ≡ last_tasks self.now }
    {
        match self.rounds.last() {
            Some(row) => row.len().min(4294967295) as u32,
            None => 0,
        }
    }

    // The round behind the last one is done: of those before it the points-to sets and the clusters alone are read again.
    fn drop_last(&mut self, alloc: Global)
        ensures { length self.new.rounds.items ≡ length self.old.rounds.items }
    {
        let last = self.rounds.len().saturating_sub(1);
        if last < self.rounds.len() && (last == 0 || FIRST_RISING as usize <= last) {
            self.rounds[last] = Vec::new(alloc);
        }
    }

    // The first round that is like the one before it.
    fn note_still(&mut self, row: &[Vec<u8>])
        ensures { self.new.rounds.items ≡ self.old.rounds.items }
    {
        if self.still.is_none() {
            if let Some(last) = self.rounds.last() {
                if is_same(last, row) {
                    self.still = Some(self.rounds());
                }
            }
        }
    }

    fn push(&mut self, alloc: Global, row: Vec<Vec<u8>>) -> Result<(), NoMemory>
        ensures rounds { OnOk result (length self.new.rounds.items ≡ length self.old.rounds.items + 1) }
        ensures row { OnOk result (slice_get self.new.rounds.items (length self.old.rounds.items) ≡ Some row) }
    {
        self.note_still(&row);
        self.drop_last(alloc);
        self.rounds.push(row)?;
        Ok(())
    }

    // The artifacts of a round, one for each task.
    fn row(
        &self,
        alloc: Global,
        analysis: &Analysis,
        tasks: u32,
        basis: &Arc<Basis>,
    ) -> Result<Vec<Vec<u8>>, NoMemory>
        ensures { IfOk result (λ row. length row.items ≡ tasks) }
    {
        let mut row = Vec::new(alloc);
        for task in 0..tasks {
            let view = analysis.task(alloc, self.rounds(), task, basis, self)?;
            row.push(analysis.artifact(alloc, task, &view)?)?;
        }
        Ok(row)
    }

    /// Does the next round. False where there is none.
    pub fn next_round(&mut self, alloc: Global, analysis: &Analysis) -> Result<bool, NoMemory>
        ensures rounds { IfOk result (λ more. more ≡ true → rounds_of self.new ≡ min (rounds_of self.old + 1) 4294967295) }
        ensures tasks { IfOk result (λ more. more ≡ true → last_tasks self.new ≡ tasks_in analysis.now (rounds_of self.old)) }
        ensures end { IfOk result (λ more. more ≡ false → self.new ≡ self.old) }
    {
        match analysis.next(alloc, self.rounds(), self)? {
            Some((tasks, basis)) => {
                let row = self.row(alloc, analysis, tasks, &basis)?;
                self.push(alloc, row)?;
                Ok(true)
            }
            None => Ok(false),
        }
    }

    fn add_colours(
        &self,
        alloc: Global,
        all: &mut Vec<(SiteId, Colour)>,
        task: u32,
    ) -> Result<(), NoMemory> {
        let Some(round) = self.rounds().checked_sub(1) else {
            return Ok(());
        };
        let Some(bytes) = self.get(round, task) else {
            return Ok(());
        };
        match decode(alloc, bytes)? {
            Some(Stored::Colours(list)) => {
                all.extend_from_slice(&list)?;
                Ok(())
            }
            _ => Ok(()),
        }
    }

    /// The colours that the last round gives, function by function.
    pub fn colours(&self, alloc: Global) -> Result<Vec<(SiteId, Colour)>, NoMemory> {
        let mut all = Vec::new(alloc);
        for task in 0..self.tasks() {
            self.add_colours(alloc, &mut all, task)?;
        }
        Ok(all)
    }
}

// The colours by site, those that were found, and orange for the others.
fn by_site(alloc: Global, sites: usize, found: &[(SiteId, Colour)]) -> Result<Vec<Colour>, NoMemory>
    ensures { IfOk result (λ colours. length colours.items ≡ sites) }
{
    let mut colours = vec![in alloc; Colour::Orange; sites]?;
    for (site, colour) in found {
        let at = site.0 as usize;
        if at < colours.len() {
            colours[at] = *colour;
        }
    }
    Ok(colours)
}

fn numbered(alloc: Global, colours: &[Colour]) -> Result<Vec<(SiteId, Colour)>, NoMemory>
    requires { length colours.now < 2 ^ 32 }
    ensures { IfOk result (λ list. list.items ≡ numbered 0 colours.now) }
{
    let mut list = Vec::new(alloc);
    let mut site = 0;
    for colour in colours {
        list.push((SiteId(site), *colour))?;
        site += 1;
    }
    Ok(list)
}

/// The colours of all sites of a program: each site once, in the order of their numbers. One that the last round does not name is orange.
pub fn colours_alone(alloc: Global, analysis: &Analysis) -> Result<Vec<(SiteId, Colour)>, NoMemory>
    ensures { IfOk result (λ list. map (λ x. x.0.0) list.items ≡ range_with_len 0 (length (program_of analysis.now).sites.items)) }
{
    let sites = analysis.core().sites.len();
    if sites > 4294967295 {
        return Err(NoMemory);
    }
    let mut alone = Alone::new(alloc);
    for _round in 0..u64::MAX {
        if !alone.next_round(alloc, analysis)? {
            break;
        }
    }
    let found = alone.colours(alloc)?;
    let colours = by_site(alloc, sites, &found)?;
    numbered(alloc, &colours)
}
