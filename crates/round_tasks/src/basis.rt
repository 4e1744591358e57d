// What a round reads of those before it, made once for all its tasks.

ghost use Rattle.std.specs.Prelude.{◌≡◌};
ghost use Rattle.round_tasks.specs.Tasks.{past_stands, stands_in};

use crate::tops::top;
use core_ir::{Artifact, Constraint, CoreProgram};
use fn_summary::Phase;
use intervals::Interval;
use round_facts::{
    Artifacts, Contribution, FIRST_RISING, Kept, Links, Stage, contributions, gathered_constraints,
    leaf_intervals, reached_in_all_steps, reached_in_one_step,
};
use std::alloc::Global;
use sv_base::{NoMemory, SiteId};

/// What a round of summaries or colours reads.
#[derive(Drop)]
pub struct Past {
    pub(crate) kept: Kept,
    pub(crate) links: Links,
    /// By function what its callers contribute to its context.
    pub(crate) contributions: Vec<Vec<Contribution>>,
    /// By leaf class.
    pub(crate) leaves: Vec<Option<Interval>>,
    /// By function whether it has the summary of the round before again: nothing that it reads has changed since that was made.
    pub(crate) stands: Vec<bool>,
}

/// What the tasks of a round need.
#[derive(Drop)]
pub enum Basis {
    Constraints,
    Solution(Vec<Constraint>),
    Clusters,
    /// Whether it is the first round of summaries, and their phase.
    Summaries(Past, bool, Phase),
    Closing(Past),
    /// With the sites by function.
    Colours(Past, Vec<Vec<SiteId>>),
}

// The functions whose summaries changed in the round before.
fn changed(alloc: Global, core: &CoreProgram, kept: &Kept) -> Result<Vec<u32>, NoMemory> {
    let mut list = Vec::new(alloc);
    for k in 0..core.functions.len().min(4294967295) {
        if kept.has_changed(k as u32) {
            list.push(k as u32)?;
        }
    }
    Ok(list)
}

fn opposite(flags: Vec<bool>) -> Vec<bool> {
    let mut flags = flags;
    for flag in flags.iter_mut() {
        *flag = !*flag;
    }
    flags
}

// Which functions the change of others does not reach: in one step, or in any number of steps.
fn unreached(
    alloc: Global,
    core: &CoreProgram,
    kept: &Kept,
    links: &Links,
    in_all_steps: bool,
) -> Result<Vec<bool>, NoMemory> {
    let changed = changed(alloc, core, kept)?;
    let reached = if in_all_steps {
        reached_in_all_steps(alloc, links, &changed)?
    } else {
        reached_in_one_step(alloc, links, &changed)?
    };
    Ok(opposite(reached))
}

// A summary that is missing is the top.
fn fill(alloc: Global, core: &CoreProgram, kept: &mut Kept, links: &Links) -> Result<(), NoMemory> {
    for k in 0..kept.summaries.len().min(4294967295) {
        if kept.summary_of(k as u32).is_none() {
            let artifact = top(alloc, core, kept, links, k as u32)?;
            if let Some(summary) = kept.summaries.get_mut(k) {
                *summary = Some(artifact);
            }
        }
    }
    Ok(())
}

impl Past {
    // `stands` may be the summaries that stand in a round like the one before; in others none does.
    fn read(
        alloc: Global,
        core: &CoreProgram,
        shelf: &impl Artifacts,
        round: u32,
        stands: Standing,
    ) -> Result<Past, NoMemory> {
        let mut kept = Kept::read(alloc, shelf, core, round, FIRST_RISING)?;
        let links = Links::of(alloc, core, &kept.solved)?;
        let stands = stands.of(alloc, core, &kept, &links)?;
        if FIRST_RISING < round {
            fill(alloc, core, &mut kept, &links)?;
        }
        Ok(Past {
            contributions: contributions(alloc, &kept.summaries)?,
            leaves: leaf_intervals(alloc, core, &kept.summaries)?,
            kept,
            links,
            stands,
        })
    }

    /// The summary of a function in the round before.
    pub(crate) fn summary_of(&self, f: u32) -> Option<&Artifact> {
        self.kept.summary_of(f)
    }

    /// Whether a function has the summary of the round before again.
    pub(crate) fn stands(&self, f: u32) -> bool
        ensures { result ≡ past_stands self.now f }
    {
        self.stands.get(f as usize).copied().unwrap_or(false)
    }
}

// Which summaries stand in a round.
#[derive(Clone, Copy, Debug, PartialEq, Eq)]
enum Standing {
    None,
    /// Those of functions that read nothing that changed.
    Unchanged,
    /// Those that no change can reach.
    Closed,
}

impl Standing {
    fn of(
        self,
        alloc: Global,
        core: &CoreProgram,
        kept: &Kept,
        links: &Links,
    ) -> Result<Vec<bool>, NoMemory> {
        match self {
            Standing::None => Ok(Vec::new(alloc)),
            Standing::Unchanged => unreached(alloc, core, kept, links, false),
            Standing::Closed => unreached(alloc, core, kept, links, true),
        }
    }
}

// By function its sites.
fn sites(alloc: Global, core: &CoreProgram) -> Result<Vec<Vec<SiteId>>, NoMemory> {
    let mut lists = Vec::new(alloc);
    for _function in 0..core.functions.len() {
        lists.push(Vec::new(alloc))?;
    }
    for k in 0..core.sites.len().min(4294967295) {
        if let Some(list) = lists.get_mut(core.sites[k].function.0 as usize) {
            list.push(SiteId(k as u32))?;
        }
    }
    Ok(lists)
}

impl Basis {
    fn rising(
        alloc: Global,
        core: &CoreProgram,
        shelf: &impl Artifacts,
        round: u32,
        widens: bool,
    ) -> Result<Basis, NoMemory> {
        // the first two rounds join, and in the first of each kind no summary was made in the same way before
        let is_first = round == FIRST_RISING;
        let standing = if is_first || round == FIRST_RISING + 2 {
            Standing::None
        } else {
            Standing::Unchanged
        };
        let phase = if widens {
            Phase::Widening
        } else {
            Phase::Joining
        };
        let past = Past::read(alloc, core, shelf, round, standing)?;
        Ok(Basis::Summaries(past, is_first, phase))
    }

    fn falling(
        alloc: Global,
        core: &CoreProgram,
        shelf: &impl Artifacts,
        round: u32,
        is_first: bool,
    ) -> Result<Basis, NoMemory> {
        let standing = if is_first {
            Standing::None
        } else {
            Standing::Unchanged
        };
        let past = Past::read(alloc, core, shelf, round, standing)?;
        Ok(Basis::Summaries(past, false, Phase::Falling))
    }

    /// Whether a task has the artifact of the round before again.
    pub(crate) fn stands(&self, task: u32) -> bool
        ensures { result ≡ stands_in self.now task }
    {
        match self {
            Basis::Summaries(past, _, _) => return past.stands(task),
            Basis::Closing(past) => return past.stands(task),
            Basis::Constraints | Basis::Solution(_) | Basis::Clusters | Basis::Colours(_, _) => {
                return false;
            }
        }
    }

    /// What the tasks of a round of this stage need, none where no round is left.
    pub(crate) fn of(
        alloc: Global,
        core: &CoreProgram,
        shelf: &impl Artifacts,
        round: u32,
        functions: u32,
        stage: Stage,
    ) -> Result<Option<Basis>, NoMemory> {
        match stage {
            Stage::Constraints => Ok(Some(Basis::Constraints)),
            Stage::Solution => Ok(Some(Basis::Solution(gathered_constraints(
                alloc, shelf, functions,
            )?))),
            Stage::Clusters => Ok(Some(Basis::Clusters)),
            Stage::Rising { widens } => Ok(Some(Basis::rising(alloc, core, shelf, round, widens)?)),
            Stage::Closing => {
                let past = Past::read(alloc, core, shelf, round, Standing::Closed)?;
                Ok(Some(Basis::Closing(past)))
            }
            Stage::Falling { is_first } => Ok(Some(Basis::falling(
                alloc, core, shelf, round, is_first,
            )?)),
            Stage::Colours => {
                let past = Past::read(alloc, core, shelf, round, Standing::None)?;
                Ok(Some(Basis::Colours(past, sites(alloc, core)?)))
            }
            Stage::End => Ok(None),
        }
    }
}
