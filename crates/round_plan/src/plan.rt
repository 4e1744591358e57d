use crate::past::Past;
use artifact_codec::spells;
use core_ir::CoreProgram;
use round_tasks::{Analysis, Basis, Task, is_mark};
use std::alloc::Global;
use std::sync::Arc;
use sv_base::NoMemory;
use tables::{Next, Shelf, Turn, Work};

// The kinds of artifacts, as they are numbered in their spellings.
const CONSTRAINTS: u8 = 1;

const SOLVED: u8 = 2;

const CLUSTERS: u8 = 3;

const SUMMARY: u8 = 4;

const COLOURS: u8 = 5;

/// The rounds of the analysis of a program.
#[derive(Drop)]
pub struct Plan {
    analysis: Analysis,
}

impl Plan {
    /// At most so many rounds of summaries rise.
    pub fn new(core: CoreProgram, rounds: u32) -> Plan {
        Plan {
            analysis: Analysis::new(core, rounds),
        }
    }

    pub fn core(&self) -> &CoreProgram {
        self.analysis.core()
    }
}

impl Work for Plan {
    type Basis = Arc<Basis>;

    type View = Task;

    fn plan(&self, alloc: Global, round: u32, shelf: &Shelf) -> Result<Next<Arc<Basis>>, NoMemory> {
        match self.analysis.next(alloc, round, &Past { shelf })? {
            Some((tasks, basis)) => Ok(Next::Round { tasks, basis }),
            None => Ok(Next::End),
        }
    }

    /// What it takes under the lock is a reference to what the whole round needs, or the artifact of the round before.
    fn view(
        &self,
        alloc: Global,
        round: u32,
        task: u32,
        basis: &Arc<Basis>,
        shelf: &Shelf,
    ) -> Result<Task, NoMemory> {
        self.analysis
            .task(alloc, round, task, basis, &Past { shelf })
    }

    fn compute(&self, alloc: Global, turn: &Turn, view: &Task) -> Result<Vec<u8>, NoMemory> {
        self.analysis.artifact(alloc, turn.task(), view)
    }

    /// The first three rounds have one kind of artifact each, each later one summaries or colours.
    fn spelled(&self, round: u32, _task: u32, bytes: &[u8]) -> bool {
        if is_mark(bytes) {
            return false;
        }
        match round {
            0 => spells(CONSTRAINTS, bytes),
            1 => spells(SOLVED, bytes),
            2 => spells(CLUSTERS, bytes),
            _ => spells(SUMMARY, bytes) || spells(COLOURS, bytes),
        }
    }
}
