ghost use Rattle.std.specs.Prelude.{◌≡◌, ◌<◌, ◌≤◌, ◌+◌, ◌^◌, ℕ, true, false, All, IfOk, IfErr, OnOk, slice_get};
ghost use Rattle.journal.specs.Journals.{journal_disk, journal_gate, has_failed};
ghost use Rattle.sv_outside.specs.Outside.{Rose};
ghost use Rattle.lease_table.specs.Machine.{IsLeasedBy};
ghost use Rattle.tables.specs.Sound.{IsSound, machine_of, journal_of};
ghost use Rattle.tables.specs.Works.{IsNoMark};
ghost use Rattle.worker_loop.specs.Left.{left};

use crate::answers::stop_of;
use lease_table::Claimed;
use std::alloc::Global;
use sv_base::NoMemory;
use sv_outside::Disk;
use tables::{Publication, Stop, Tables, Work};

// How many tasks are computed before they are stored together.
const BATCH: usize = 64;

// The artifact of a task that is leased by this ticket.
fn computed<D: Disk, W: Work>(
    alloc: Global,
    tables: &Tables<D, W>,
    work: &W,
    task: u32,
    ticket: u64,
) -> Result<Publication, NoMemory>
    requires work { tables.now.opening.work.value ≡ work.now }
    requires leased { IsLeasedBy ticket (slice_get (machine_of tables.now).tasks task) }
    ensures { IfOk result (λ p. IsNoMark p.artifact.items) }
{
    let turn = tables.turn(task, ticket);
    let view = tables.view(alloc, work, task)?;
    let artifact = work.compute(alloc, &turn, &view)?;
    Ok(Publication {
        task,
        ticket,
        artifact,
    })
}

// Claims tasks and computes them, so many at most. Every lease is new, so the time is always 0.
fn some_computed<D: Disk, W: Work>(
    alloc: Global,
    tables: &mut Tables<D, W>,
    work: &W,
) -> Result<Vec<Publication>, NoMemory>
    requires sound { IsSound D.told D.seen D.faults tables.old }
    requires work { tables.old.opening.work.value ≡ work.now }
    ensures sound { IsSound D.told D.seen D.faults tables.new }
    ensures opening { tables.new.opening ≡ tables.old.opening }
    ensures journal { journal_of tables.new ≡ journal_of tables.old }
    ensures artifacts { IfOk result (λ list. All (λ p. IsNoMark p.artifact.items) list.items) }
{
    let mut list = Vec::new(alloc);
    'tasks: for _ in 0..BATCH {
        match tables.claim(0, 0)? {
            Claimed::Work { task, ticket } => {
                list.push(computed(alloc, tables, work, task, ticket)?)?;
            }
            _ => break 'tasks,
        }
    }
    Ok(list)
}

// Does some tasks of the round, at least one of those that are left.
fn do_some<D: Disk, W: Work>(alloc: Global, tables: &mut Tables<D, W>, work: &W) -> Result<(), Stop>
    requires sound { IsSound D.told D.seen D.faults tables.old }
    requires work { tables.old.opening.work.value ≡ work.now }
    ensures sound { IsSound D.told D.seen D.faults tables.new }
    ensures opening { tables.new.opening ≡ tables.old.opening }
    ensures more { OnOk result (journal_gate (journal_of tables.old) + 1 ≤ journal_gate (journal_of tables.new)) }
    ensures failed { IfErr result (λ stop. stop ≡ Stop.Disk → has_failed (journal_of tables.new) ≡ true) }
    ensures full { IfErr result (λ stop. (size : ℕ) → stop ≡ Stop.Full size → 2 ^ 31 < size) }
{
    let size = tables.size();
    let round = tables.round();
    let list = some_computed(alloc, tables, work)?;
    let answers = tables.publish_all(alloc, work, round, list)?;
    if let Some(stop) = stop_of(&answers) {
        return Err(stop);
    }
    if tables.size() == size {
        return Err(Stop::NoMemory);
    }
    Ok(())
}

// Does some tasks of the round, or begins the next one.
fn go_on<D: Disk, W: Work>(alloc: Global, tables: &mut Tables<D, W>, work: &W) -> Result<(), Stop>
    requires sound { IsSound D.told D.seen D.faults tables.old }
    requires work { tables.old.opening.work.value ≡ work.now }
    requires going { (machine_of tables.old).ended ≡ false }
    ensures sound { IsSound D.told D.seen D.faults tables.new }
    ensures opening { tables.new.opening ≡ tables.old.opening }
    ensures less { OnOk result (left tables.new < left tables.old) }
    ensures failed { IfErr result (λ stop. stop ≡ Stop.Disk → has_failed (journal_of tables.new) ≡ true) }
    ensures full { IfErr result (λ stop. (size : ℕ) → stop ≡ Stop.Full size → 2 ^ 31 < size) }
{
    if tables.round_done() {
        tables.advance(alloc, work)?;
        return Ok(());
    }
    do_some(alloc, tables, work)
}

/// Does all that is left of a work, on one thread. Where it answers `Ok` the tables are finished.
pub fn finish<D: Disk, W: Work>(
    alloc: Global,
    tables: &mut Tables<D, W>,
    work: &W,
) -> Result<(), Stop>
    requires sound { IsSound D.told D.seen D.faults tables.old }
    requires work { tables.old.opening.work.value ≡ work.now }
    ensures sound { IsSound D.told D.seen D.faults tables.new }
    ensures opening { tables.new.opening ≡ tables.old.opening }
    ensures finished { OnOk result ((machine_of tables.new).ended ≡ true) }

    // It stops for a disk only where a call of it has failed since the tables were opened, and for want of room only where
    // the image would be longer than 2,147,483,648 bytes.
    ensures failed { IfErr result (λ stop. stop ≡ Stop.Disk → Rose (D.faults tables.new.opening.disk.value) (D.faults (journal_disk (journal_of tables.new)))) }
    ensures full { IfErr result (λ stop. (size : ℕ) → stop ≡ Stop.Full size → 2 ^ 31 < size) }
{
    tables.expire(u64::MAX);
    'turns: while !tables.is_finished() {
        go_on(alloc, tables, work)?;
    }
    Ok(())
}
