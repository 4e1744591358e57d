ghost use Rattle.std.specs.Prelude.{◌≡◌, All, IfOk, slice_get};
ghost use Rattle.lease_table.specs.Machine.{IsLeasedBy};
ghost use Rattle.tables.specs.Sound.{IsSound, machine_of};
ghost use Rattle.tables.specs.Works.{IsNoMark};

use crate::answers::stop_of;
use lease_table::Claimed;
use std::alloc::Global;
use std::sync::Wait;
use sv_base::NoMemory;
use sv_outside::{Clock, Disk, Gate};
use tables::{Publication, Stop, Tables, Turn, Work};
use tables_lock::{Lock, Seat};

// How many tasks are claimed together at most.
const MOST: u32 = 64;

// There are at most 64 workers. While a round has fewer than four tasks for each of them, tasks are claimed one by one.
const SHARED: u32 = 256;

// A task that is leased, and what its computation needs.
#[derive(Drop)]
struct Task<V> {
    turn: Turn,
    view: V,
}

// How many tasks of a round of so many are claimed together.
fn together(tasks: u32) -> u32 {
    (tasks / SHARED).clamp(1, MOST)
}

// Takes what the computation of a task needs that is leased by this ticket.
fn take_task<D: Disk, W: Work>(
    alloc: Global,
    tables: &mut Tables<D, W>,
    work: &W,
    task: u32,
    ticket: u64,
    list: &mut Vec<Task<W::View>>,
) -> Result<(), NoMemory>
    requires sound { IsSound D.told D.seen D.faults tables.old }
    requires work { tables.old.opening.work.value ≡ work.now }
    requires leased { IsLeasedBy ticket (slice_get (machine_of tables.old).tasks task) }
    ensures sound { IsSound D.told D.seen D.faults tables.new }
    ensures opening { tables.new.opening ≡ tables.old.opening }
{
    let turn = tables.turn(task, ticket);
    let Ok(view) = tables.view(alloc, work, task) else {
        tables.abandon(turn.round(), task, ticket);
        return Err(NoMemory);
    };
    list.push(Task { turn, view })?;
    Ok(())
}

// Claims tasks, or begins the next round. It answers whether there may be more to do.
fn claim_some<D: Disk, W: Work>(
    alloc: Global,
    tables: &mut Tables<D, W>,
    work: &W,
    number: u32,
    now: u64,
    list: &mut Vec<Task<W::View>>,
) -> Result<bool, NoMemory>
    requires sound { IsSound D.told D.seen D.faults tables.old }
    requires work { tables.old.opening.work.value ≡ work.now }
    ensures sound { IsSound D.told D.seen D.faults tables.new }
    ensures opening { tables.new.opening ≡ tables.old.opening }
{
    'tasks: for _ in 0..together(tables.tasks()) {
        match tables.claim(number, now)? {
            Claimed::Work { task, ticket } => {
                take_task(alloc, tables, work, task, ticket, list)?;
            }
            Claimed::Wait => return Ok(true),
            Claimed::RoundDone => {
                tables.advance(alloc, work)?;
                return Ok(true);
            }
            Claimed::Finished => return Ok(false),
        }
    }
    Ok(true)
}

// Gives the leases of these tasks back. One that is stored stays so.
fn abandon_all<D: Disk, W: Work>(tables: &mut Tables<D, W>, tasks: &[Task<W::View>])
    requires { IsSound D.told D.seen D.faults tables.old }
    ensures sound { IsSound D.told D.seen D.faults tables.new }
    ensures opening { tables.new.opening ≡ tables.old.opening }
{
    'tasks: for task in tasks {
        let turn = &task.turn;
        tables.abandon(turn.round(), turn.task(), turn.ticket());
    }
}

// Claims tasks, none where the worker is to try again. It answers nothing where the worker is to leave.
fn claimed<D: Disk, W: Work>(
    alloc: Global,
    tables: &mut Tables<D, W>,
    work: &W,
    number: u32,
    now: u64,
) -> Option<Vec<Task<W::View>>>
    requires sound { IsSound D.told D.seen D.faults tables.old }
    requires work { tables.old.opening.work.value ≡ work.now }
    ensures sound { IsSound D.told D.seen D.faults tables.new }
    ensures opening { tables.new.opening ≡ tables.old.opening }
{
    let mut list = Vec::new(alloc);
    match claim_some(alloc, tables, work, number, now, &mut list) {
        Ok(true) => Some(list),
        Ok(false) => None,
        Err(NoMemory) => {
            abandon_all(tables, &list);
            None
        }
    }
}

// Passes the gate with each task, and computes it.
fn computed<W: Work, G: Gate>(
    alloc: Global,
    work: &W,
    gate: &G,
    number: u32,
    tasks: &[Task<W::View>],
) -> Result<Vec<Publication>, NoMemory>
    ensures { IfOk result (λ list. All (λ p. IsNoMark p.artifact.items) list.items) }
{
    let mut list = Vec::new(alloc);
    'tasks: for task in tasks {
        let turn = &task.turn;
        gate.at(number, turn.round(), turn.task());
        let artifact = work.compute(alloc, turn, &task.view)?;
        list.push(Publication {
            task: turn.task(),
            ticket: turn.ticket(),
            artifact,
        })?;
    }
    Ok(list)
}

// Stores what was computed of a round.
fn store<D: Disk, W: Work>(
    alloc: Global,
    tables: &mut Tables<D, W>,
    work: &W,
    round: u32,
    computed: Result<Vec<Publication>, NoMemory>,
) -> Result<(), Stop>
    requires sound { IsSound D.told D.seen D.faults tables.old }
    requires work { tables.old.opening.work.value ≡ work.now }
    requires artifacts { IfOk computed (λ list. All (λ p. IsNoMark p.artifact.items) list.items) }
    ensures sound { IsSound D.told D.seen D.faults tables.new }
    ensures opening { tables.new.opening ≡ tables.old.opening }
{
    let answers = tables.publish_all(alloc, work, round, computed?)?;
    match stop_of(&answers) {
        Some(stop) => Err(stop),
        None => Ok(()),
    }
}

// Stores what was computed of these tasks, or gives their leases back. It answers whether the worker is to go on.
fn stored<D: Disk, W: Work>(
    alloc: Global,
    tables: &mut Tables<D, W>,
    work: &W,
    tasks: &[Task<W::View>],
    computed: Result<Vec<Publication>, NoMemory>,
) -> bool
    requires sound { IsSound D.told D.seen D.faults tables.old }
    requires work { tables.old.opening.work.value ≡ work.now }
    requires artifacts { IfOk computed (λ list. All (λ p. IsNoMark p.artifact.items) list.items) }
    ensures sound { IsSound D.told D.seen D.faults tables.new }
    ensures opening { tables.new.opening ≡ tables.old.opening }
{
    let Some(first) = tasks.first() else {
        return true;
    };
    match store(alloc, tables, work, first.turn.round(), computed) {
        Ok(()) => true,
        Err(_) => {
            abandon_all(tables, tasks);
            false
        }
    }
}

/// Does tasks of a work, while other threads do others of it, until there is nothing left to do or something stops it.
/// Tasks are claimed under one hold of the lock, and stored under another.
pub fn work<R: Wait, D: Disk, W: Work, C: Clock, G: Gate>(
    rt: &R,
    alloc: Global,
    lock: &Lock<D, W>,
    mut seat: Seat<D, W>,
    work: &W,
    clock: &C,
    gate: &G,
    number: u32,
)
    requires own { seat.seat.table_id ≡ lock.now.table.shared.table_id }
    requires work { seat.seat.me.0.opening.work.value ≡ work.now }
{
    for _ in rt.forever() {
        let now = clock.now();
        let tasks = lock.with(
            rt,
            &mut seat,
            |tables: &mut Tables<D, W>| -> Option<Vec<Task<W::View>>>
                requires { IsSound D.told D.seen D.faults tables.old × (tables.old.opening.work.value ≡ work.now) }
                ensures sound { IsSound D.told D.seen D.faults tables.new }
                ensures opening { tables.new.opening ≡ tables.old.opening }
            { claimed(alloc, tables, work, number, now) },
        );
        let Some(tasks) = tasks else {
            return;
        };
        let list = computed(alloc, work, gate, number, &tasks);
        let more = lock.with(
            rt,
            &mut seat,
            |tables: &mut Tables<D, W>| -> bool
                requires { IsSound D.told D.seen D.faults tables.old × (tables.old.opening.work.value ≡ work.now) × IfOk list (λ l. All (λ p. IsNoMark p.artifact.items) l.items) }
                ensures sound { IsSound D.told D.seen D.faults tables.new }
                ensures opening { tables.new.opening ≡ tables.old.opening }
            { stored(alloc, tables, work, &tasks, list) },
        );
        if !more {
            return;
        }
    }
    unreachable!()
}
