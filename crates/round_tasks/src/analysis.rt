ghost use Rattle.std.specs.Prelude.{◌≡◌, ◌<◌, ◌≤◌, ◌+◌, ◌^◌, ◌==◌, if◌then◌else◌, IfOk, IfSome, None, length, true};
ghost use Rattle.std.specs.Arc.{arc_value};
ghost use Rattle.pt_facts.specs.Nodes.{function_count, registers_of};
ghost use Rattle.artifact_writing.specs.Marks.{IsNoMark};
ghost use Rattle.round_tasks.specs.Rounds.{functions_of, limit_of, program_of, tasks_in};
ghost use Rattle.round_tasks.specs.Tasks.{IsArtifact, IsTask};

use crate::analysed::Analysis;
use crate::basis::Basis;
use crate::tasks::{Task, compute};
use core_ir::{CoreProgram, Function};
use round_facts::{Artifacts, stage_of};
use std::alloc::Global;
use std::sync::Arc;
use sv_base::NoMemory;

// The number of all registers, none where it passes 2^32.
fn registers(functions: &[Function]) -> Option<u32>
    ensures { IfSome result (λ count. count ≡ registers_of functions.now) }
{
    let mut count: u32 = 0;
    for f in functions {
        if f.registers.len() > 4294967295 {
            return None;
        }
        count = count.checked_add(f.registers.len() as u32)?;
    }
    Some(count)
}

fn has_node_room(core: &CoreProgram) -> bool
    ensures { result ≡ true → registers_of core.now.functions.items + length core.now.pointer_starts.items < 2 ^ 32 }
{
    match registers(&core.functions) {
        Some(count) => core.pointer_starts.len() < 4294967296 - count as usize,
        None => false,
    }
}

fn has_function_room(core: &CoreProgram) -> bool
    ensures { result ≡ true → function_count core.now ≤ 2 ^ 31 }
{
    core.functions.len() <= 2147483648 && core.externals.len() <= 2147483648 - core.functions.len()
}

// The second round has one task, that of the solution.
fn task_count(functions: u32, round: u32) -> u32
    ensures { result ≡ (if round == 1 then 1 else functions) }
{
    if round == 1 { 1 } else { functions }
}

impl Analysis {
    /// At most so many rounds of summaries rise. A program without functions has no rounds at all.
    pub fn new(core: CoreProgram, rounds: u32) -> Analysis
        ensures core { program_of result ≡ core }
        ensures rounds { limit_of result ≡ rounds }
    {
        let has_nodes = has_node_room(&core);
        let has_functions = has_function_room(&core);
        let has_room = has_nodes && has_functions;
        Analysis {
            core,
            rounds,
            has_room,
        }
    }

    pub fn core(&self) -> &CoreProgram
        ensures { result.now ≡ program_of self.now }
    {
        &self.core
    }

    // The number of functions.
    fn functions(&self) -> u32
        ensures { result ≡ functions_of self.now }
    {
        self.core.functions.len().min(4294967295) as u32
    }

    /// The number of tasks of a round, counted from 0, and what they need, by the artifacts of the rounds before; none where no round
    /// is left. No round is without a task.
    pub fn next(
        &self,
        alloc: Global,
        round: u32,
        shelf: &impl Artifacts,
    ) -> Result<Option<(u32, Arc<Basis>)>, NoMemory>
        ensures some { IfOk result (λ next. IfSome next (λ x. 0 < x.0)) }
        ensures tasks { IfOk result (λ next. IfSome next (λ x. x.0 ≡ tasks_in self.now round)) }
        ensures no_function { functions_of self.now ≡ 0 → IfOk result (λ next. next ≡ None) }
    {
        let functions = self.functions();
        if functions == 0 {
            return Ok(None);
        }
        let stage = stage_of(alloc, shelf, round, functions, self.rounds)?;
        let tasks = task_count(functions, round);
        match Basis::of(alloc, &self.core, shelf, round, functions, stage)? {
            Some(basis) => Ok(Some((tasks, Arc::new(alloc, basis)?))),
            None => Ok(None),
        }
    }

    /// What the computation of a task needs.
    pub fn task(
        &self,
        alloc: Global,
        round: u32,
        task: u32,
        basis: &Arc<Basis>,
        shelf: &impl Artifacts,
    ) -> Result<Task, NoMemory>
        ensures { IfOk result (λ view. IsTask (arc_value basis.now) task view) }
    {
        if basis.stands(task) {
            if let Some(bytes) = before(alloc, shelf, round, task)? {
                return Ok(Task::Again(bytes));
            }
        }
        Ok(Task::New(Arc::try_clone(basis)?))
    }

    /// The artifact of a task.
    pub fn artifact(&self, alloc: Global, task: u32, view: &Task) -> Result<Vec<u8>, NoMemory>
        ensures exact { IfOk result (λ bytes. IsArtifact (program_of self.now) task view.now bytes.items) }
        ensures no_mark { IfOk result (λ bytes. IsNoMark bytes.items) }
    {
        compute(alloc, &self.core, self.has_room, view, task)
    }
}

// The artifact of the round before, where there is one.
fn before(
    alloc: Global,
    shelf: &impl Artifacts,
    round: u32,
    task: u32,
) -> Result<Option<Vec<u8>>, NoMemory> {
    let Some(last) = round.checked_sub(1) else {
        return Ok(None);
    };
    match shelf.get(last, task) {
        Some(bytes) => Ok(Some(Vec::from_slice(alloc, bytes)?)),
        None => Ok(None),
    }
}
