use crate::bodies::{ROOM, run};
use crate::combining::artifact;
use crate::entry::entry_state;
use crate::findings::{Findings, Phase, Situation};
use crate::matrices::copied_list;
use crate::walk::Walk;
use core_ir::{Artifact, Bounds, Effects, Function, Step, View, in_order};
use std::alloc::Global;
use stored_bounds::result_groups;
use sv_base::{Colour, NoMemory, SiteId};
use transfer::Known;

// Of a function that is never called no site is reached.
fn unreached(alloc: Global, f: &Function) -> Result<Findings, NoMemory> {
    let mut visits: Vec<(SiteId, Colour)> = Vec::new(alloc);
    let all = in_order(alloc, &f.body)?;
    for step in &all {
        if let Step::Check { site, .. } = step {
            visits.push((*site, Colour::Unreachable))?;
        }
    }
    let artifact = Artifact {
        changed: false,
        context: None,
        result: None,
        calls: Vec::new(alloc),
        writes: Vec::new(alloc),
    };
    Ok(Findings { artifact, visits })
}

fn ended(alloc: Global, walk: Walk<'_>, context: &[Bounds]) -> Result<Findings, NoMemory> {
    let (returned, gathered, visits) = walk.into_parts();
    let Effects { calls, writes } = gathered.into_effects(alloc)?;
    let artifact = Artifact {
        changed: false,
        context: Some(copied_list(alloc, context)?),
        result: returned,
        calls,
        writes,
    };
    Ok(Findings { artifact, visits })
}

fn reached(
    alloc: Global,
    f: &Function,
    situation: Situation<'_>,
    context: &[Bounds],
) -> Result<Findings, NoMemory> {
    let groups = result_groups(alloc, situation.clusters, f.parameters, f.result)?;
    let state = entry_state(alloc, f, situation.clusters, context)?;
    let mut walk = Walk::new(alloc, f, situation.known, &groups, state)?;
    run(&f.body, &mut walk, ROOM)?;
    walk.give_back(None)?;
    ended(alloc, walk, context)
}

// What the steps give, before it is put together with what the round before says.
fn found(alloc: Global, f: &Function, situation: Situation<'_>) -> Result<Findings, NoMemory> {
    match situation.context {
        Some(context) => reached(alloc, f, situation, context),
        None => unreached(alloc, f),
    }
}

/// The analysis of a function in a round, from what the round knows beside it, and from what the round before says of it, if there is
/// one. A body that nests deeper than 4,096 steps, blocks that begin with a block counted once, is refused as for want of memory.
pub fn analyse_in(
    alloc: Global,
    f: &Function,
    situation: Situation<'_>,
    old: Option<&Artifact>,
    phase: Phase,
) -> Result<Findings, NoMemory> {
    let Findings {
        artifact: new,
        visits,
    } = found(alloc, f, situation)?;
    Ok(Findings {
        artifact: artifact(alloc, f, situation, old, new, phase)?,
        visits,
    })
}

/// As `analyse_in`, from a view.
pub fn analyse(
    alloc: Global,
    f: &Function,
    view: &View,
    old: Option<&Artifact>,
    phase: Phase,
) -> Result<Findings, NoMemory> {
    let context = match &view.context {
        Some(context) => Some(context.as_slice()),
        None => None,
    };
    let situation = Situation {
        context,
        clusters: &view.clusters,
        known: Known::of_view(view, phase != Phase::Falling),
    };
    analyse_in(alloc, f, situation, old, phase)
}
