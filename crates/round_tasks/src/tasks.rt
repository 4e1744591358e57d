// What the tasks of each stage give.

ghost use Rattle.std.specs.Prelude.{◌≡◌, ℕ, ◌<◌, ◌≤◌, ◌+◌, ◌^◌, IfOk, Some, length, slice_get, true};
ghost use Rattle.core_ir.specs.Plain.{Clusters, lists_of};
ghost use Rattle.points_to.specs.Families.{Family, Has, family_of};
ghost use Rattle.points_to.specs.Fits.{Fits};
ghost use Rattle.points_to.specs.Rules.{IsClosed};
ghost use Rattle.var_clusters.specs.Clusters.{clusters_of};
ghost use Rattle.artifact_codec.specs.Spelling.{spelling};
ghost use Rattle.round_tasks.specs.Tasks.{AreClusters, AreColours, AreConstraints, AreLeastSets, IsArtifact, IsComputed, IsSummary, listed, nodes_of};
ghost use Rattle.pt_facts.specs.Nodes.{function_count, registers_of};
ghost use Rattle.artifact_writing.specs.Marks.{IsNoMark};

use crate::basis::{Basis, Past};
use crate::contexts::context;
use crate::facts::facts;
use crate::standing::again;
use crate::tops::top;
use artifact_writing::{write, write_clusters};
use core_ir::{Artifact, Bounds, Constraint, CoreProgram, Function, Solution, Stored};
use fn_summary::{Findings, Phase, Situation, analyse_in, have_same_parts};
use points_to::{fits, solve};
use std::alloc::Global;
use std::sync::Arc;
use sv_base::{FuncId, NoMemory, SiteId};
use transfer::Known;
use var_clusters::clusters;
use verdicts::colours;

/// What the computation of a task needs.
#[derive(Drop)]
pub enum Task {
    /// The artifact is that of the round before.
    Again(Vec<u8>),
    /// It is computed.
    New(Arc<Basis>),
}

fn constraints(
    alloc: Global,
    core: &CoreProgram,
    has_room: bool,
    task: u32,
) -> Result<Vec<u8>, NoMemory>
    requires nodes { has_room ≡ true → registers_of core.now.functions.items + length core.now.pointer_starts.items < 2 ^ 32 }
    requires functions { has_room ≡ true → function_count core.now ≤ 2 ^ 31 }
    ensures exact { IfOk result (λ bytes. AreConstraints core.now task bytes.items) }
    ensures no_mark { IfOk result (λ bytes. IsNoMark bytes.items) }
{
    if !has_room {
        return Err(NoMemory);
    }
    let list = pt_facts::constraints(alloc, core, FuncId(task))?;
    write(alloc, &Stored::Constraints(list))
}

// The number of nodes: all registers, and then the leaf classes.
fn nodes(core: &CoreProgram) -> u32
    ensures { result ≡ nodes_of core.now }
{
    let count = core
        .classes
        .leaves
        .len()
        .saturating_add(core.classes.registers as usize);
    count.min(4294967295) as u32
}

// Constraints that name no nodes of the program are left out, and with them all others.
fn solved(alloc: Global, core: &CoreProgram, all: &[Constraint]) -> Result<Solution, NoMemory>
    ensures closed { Fits (nodes_of core.now) all.now core.now.classes → IfOk result (λ s. IsClosed core.now.classes all.now (family_of (lists_of s.sets.items))) }
    ensures least { Fits (nodes_of core.now) all.now core.now.classes → IfOk result (λ s. (family : Family) → IsClosed core.now.classes all.now family → (node member : ℕ) → Has (family_of (lists_of s.sets.items)) node member → Has family node member) }
{
    let nodes = nodes(core);
    if fits(nodes, all, &core.classes) {
        solve(alloc, nodes, all, &core.classes)
    } else {
        solve(alloc, nodes, &[], &core.classes)
    }
}

fn solution(alloc: Global, core: &CoreProgram, all: &[Constraint]) -> Result<Vec<u8>, NoMemory>
    ensures exact { IfOk result (λ bytes. Fits (nodes_of core.now) all.now core.now.classes → AreLeastSets core.now all.now bytes.items) }
    ensures no_mark { IfOk result (λ bytes. IsNoMark bytes.items) }
{
    let solution = solved(alloc, core, all)?;
    write(alloc, &Stored::Solved(solution))
}

fn function_at(core: &CoreProgram, task: u32) -> Result<&Function, NoMemory>
    ensures { IfOk result (λ f. slice_get core.now.functions.items task ≡ Some f.now) }
{
    match core.functions.get(task as usize) {
        Some(f) => return Ok(f),
        None => return Err(NoMemory),
    }
}

fn clustered(alloc: Global, f: &Function) -> Result<Vec<u8>, NoMemory>
    ensures exact { IfOk result (λ bytes. bytes.items ≡ spelling (Clusters (clusters_of f.now))) }
    ensures no_mark { IfOk result (λ bytes. IsNoMark bytes.items) }
{
    if f.registers.len() > 4294967295 {
        return Err(NoMemory);
    }
    let clusters = clusters(alloc, f)?;
    write_clusters(alloc, f.registers.len() as u32, clusters)
}

fn clustered_at(alloc: Global, core: &CoreProgram, task: u32) -> Result<Vec<u8>, NoMemory>
    ensures exact { IfOk result (λ bytes. AreClusters (slice_get core.now.functions.items task) bytes.items) }
    ensures no_mark { IfOk result (λ bytes. IsNoMark bytes.items) }
{
    let f = function_at(core, task)?;
    clustered(alloc, f)
}

fn analysed<'a>(
    alloc: Global,
    f: &Function,
    context: Option<&'a [Bounds]>,
    clusters: &'a [Vec<u32>],
    known: Known<'a>,
    old: Option<&Artifact>,
    phase: Phase,
) -> Result<Findings, NoMemory> {
    let situation = Situation {
        context,
        clusters,
        known,
    };
    analyse_in(alloc, f, situation, old, phase)
}

fn findings(
    alloc: Global,
    core: &CoreProgram,
    past: &Past,
    task: u32,
    f: &Function,
    old: Option<&Artifact>,
    phase: Phase,
) -> Result<Findings, NoMemory> {
    let context = context(alloc, core, past, task, f)?;
    let facts = facts(alloc, core, past, task, f, phase != Phase::Falling)?;
    let context = match &context {
        Some(context) => Some(context.as_slice()),
        None => None,
    };
    let clusters = past.kept.clusters_of(task);
    analysed(
        alloc,
        f,
        context,
        clusters,
        Known::of_facts(&facts),
        old,
        phase,
    )
}

fn summary(
    alloc: Global,
    core: &CoreProgram,
    past: &Past,
    task: u32,
    is_first: bool,
    phase: Phase,
) -> Result<Vec<u8>, NoMemory>
    ensures kind { IfOk result (λ bytes. IsSummary bytes.items) }
    ensures no_mark { IfOk result (λ bytes. IsNoMark bytes.items) }
{
    let f = function_at(core, task)?;
    let old = if is_first {
        None
    } else {
        past.summary_of(task)
    };
    let Findings {
        artifact,
        visits: _,
    } = findings(alloc, core, past, task, f, old, phase)?;
    write(alloc, &Stored::Summary(artifact))
}

// A function that a change may still reach goes to the top.
fn closed(alloc: Global, core: &CoreProgram, past: &Past, task: u32) -> Result<Vec<u8>, NoMemory>
    ensures kind { IfOk result (λ bytes. IsSummary bytes.items) }
    ensures no_mark { IfOk result (λ bytes. IsNoMark bytes.items) }
{
    let mut artifact = top(alloc, core, &past.kept, &past.links, task)?;
    artifact.changed = match past.summary_of(task) {
        Some(old) => !have_same_parts(&artifact, old),
        None => true,
    };
    write(alloc, &Stored::Summary(artifact))
}

fn coloured(
    alloc: Global,
    core: &CoreProgram,
    past: &Past,
    task: u32,
    sites: &[SiteId],
) -> Result<Vec<u8>, NoMemory>
    ensures exact { IfOk result (λ bytes. AreColours sites.now bytes.items) }
    ensures no_mark { IfOk result (λ bytes. IsNoMark bytes.items) }
{
    let f = function_at(core, task)?;
    let found = findings(alloc, core, past, task, f, None, Phase::Falling)?;
    let list = colours(alloc, sites, &found.visits)?;
    write(alloc, &Stored::Colours(list))
}

fn sites_of(sites: &[Vec<SiteId>], task: u32) -> &[SiteId]
    ensures { result.now ≡ listed (slice_get sites.now task) }
{
    match sites.get(task as usize) {
        Some(list) => list,
        None => &[],
    }
}

/// The artifact of a task of a round with this basis.
pub(crate) fn artifact(
    alloc: Global,
    core: &CoreProgram,
    has_room: bool,
    basis: &Basis,
    task: u32,
) -> Result<Vec<u8>, NoMemory>
    requires nodes { has_room ≡ true → registers_of core.now.functions.items + length core.now.pointer_starts.items < 2 ^ 32 }
    requires functions { has_room ≡ true → function_count core.now ≤ 2 ^ 31 }
    ensures exact { IfOk result (λ bytes. IsComputed core.now task basis.now bytes.items) }
    ensures no_mark { IfOk result (λ bytes. IsNoMark bytes.items) }
{
    match basis {
        Basis::Constraints => return constraints(alloc, core, has_room, task),
        Basis::Solution(all) => return solution(alloc, core, all),
        Basis::Clusters => return clustered_at(alloc, core, task),
        Basis::Summaries(past, is_first, phase) => {
            return summary(alloc, core, past, task, *is_first, *phase);
        }
        Basis::Closing(past) => return closed(alloc, core, past, task),
        Basis::Colours(past, sites) => {
            return coloured(alloc, core, past, task, sites_of(sites, task));
        }
    }
}

/// The artifact of a task.
pub(crate) fn compute(
    alloc: Global,
    core: &CoreProgram,
    has_room: bool,
    view: &Task,
    task: u32,
) -> Result<Vec<u8>, NoMemory>
    requires nodes { has_room ≡ true → registers_of core.now.functions.items + length core.now.pointer_starts.items < 2 ^ 32 }
    requires functions { has_room ≡ true → function_count core.now ≤ 2 ^ 31 }
    ensures exact { IfOk result (λ bytes. IsArtifact core.now task view.now bytes.items) }
    ensures no_mark { IfOk result (λ bytes. IsNoMark bytes.items) }
{
    match view {
        Task::Again(bytes) => return again(alloc, bytes),
        Task::New(basis) => return artifact(alloc, core, has_room, basis, task),
    }
}
