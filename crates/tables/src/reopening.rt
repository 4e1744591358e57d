//! What was published before, read back into rounds.
ghost use Rattle.std.specs.Prelude.{◌≡◌, ◌≢◌, ◌≤◌, ◌+◌, ◌*◌, ◌^◌, ◌<◌, ℕ, [], Some, true, false, length, IfOk, IfErr, OnOk};
ghost use Rattle.sv_outside.specs.Outside.{Rose};
ghost use Rattle.journal.specs.declared.digests.Digests.{Digests as Digested};
ghost use Rattle.journal.specs.Readings.{reading_disk, reading_scan, IsReading, IsGoing, HasEnded};
ghost use Rattle.journal.specs.Scans.{HasRead};
ghost use Rattle.journal.specs.Steps.{entry_of};
ghost use Rattle.tables.specs.Replays.{artifact_in, Takes, IsReadBack};
ghost use Rattle.tables.specs.Sound.{Spaced, BeginsNext};

use crate::mark::is_mark;
use crate::rounds::Rounds;
use crate::{Shelf, Work};
use journal::{Kept, OpenFault, Reading};
use lease_table::Standing;
use std::alloc::Global;
use sv_outside::Disk;

// The artifact of a record: its body, or the artifact of the same task in the round before.
fn artifact_of(
    alloc: Global,
    shelf: &Shelf,
    round: u32,
    task: u32,
    body: Vec<u8>,
    at: u64,
) -> Result<Vec<u8>, OpenFault>
    ensures artifact { IfOk result (λ artifact. artifact_in shelf.now round task body.items ≡ Some artifact.items) }
    ensures fault { IfErr result (λ fault. fault ≢ OpenFault.Disk) }
{
    if !is_mark(&body) {
        return Ok(body);
    }
    if round == 0 {
        return Err(OpenFault::Damaged { at });
    }
    match shelf.get(round - 1, task) {
        Some(artifact) => Ok(artifact.to_vec(alloc)?),
        None => Err(OpenFault::Damaged { at }),
    }
}

// Whether a record of this round begins the next round.
fn begins_next<B: Drop>(rounds: &Rounds<B>, round: u32) -> bool
    ensures { result ≡ true → BeginsNext rounds.now.machine round }
{
    rounds.is_round_done() && !rounds.is_ended() && round > 0 && round - 1 == rounds.round()
}

// Takes a record as done, and begins its round where it is the next one. It is damaged where its task is not open, or its
// bytes are no spelling.
fn take<W: Work>(
    alloc: Global,
    work: &W,
    rounds: &mut Rounds<W::Basis>,
    kept: Kept,
) -> Result<(), OpenFault>
    requires { 13 * rounds.old.machine.round ≤ 2 ^ 31 }
    ensures spaced { (at : ℕ) → Spaced rounds.old.machine at → OnOk result (Spaced rounds.new.machine (at + 13)) }
    ensures takes { OnOk result (Takes (entry_of kept) rounds.old rounds.new) }
    ensures fault { IfErr result (λ fault. fault ≢ OpenFault.Disk) }
{
    let Kept {
        round,
        task,
        body,
        at,
    } = kept;
    if begins_next(rounds, round) {
        let next = work.plan(alloc, round, rounds.shelf())?;
        rounds.advance(alloc, next)?;
    }
    match rounds.found(round, task) {
        Some(Standing::Free) => (),
        _ => return Err(OpenFault::Damaged { at }),
    }
    let artifact = artifact_of(alloc, rounds.shelf(), round, task, body, at)?;
    if !work.spelled(round, task, &artifact) {
        return Err(OpenFault::Damaged { at });
    }
    rounds.keep(task, artifact)?;
    Ok(())
}

/// The rounds as the records of a journal leave them.
pub(crate) fn read_back<D: Disk, W: Work>(
    alloc: Global,
    reading: &mut Reading<D>,
    work: &W,
) -> Result<Rounds<W::Basis>, OpenFault>
    requires reading { IsReading D.told D.seen D.may_leave reading.old }
    requires going { IsGoing reading.old }
    ensures reading { IsReading D.told D.seen D.may_leave reading.new }
    ensures ended { OnOk result (HasEnded reading.new) }
    ensures spaced { IfOk result (λ rounds. Spaced rounds.machine (reading_scan reading.new).at) }
    ensures read { D.told ≡ true → (digests : Digested) → HasRead digests [] (reading_scan reading.old) (D.seen (reading_disk reading.old)) →
        IfOk result (λ rounds. IsReadBack D.told D.may_leave digests (D.seen (reading_disk reading.old)) reading.new rounds) }
    ensures failed { IfErr result (λ fault. fault ≡ OpenFault.Disk → Rose (D.faults (reading_disk reading.old)) (D.faults (reading_disk reading.new))) }
    ensures later { D.faults (reading_disk reading.old) ≤ D.faults (reading_disk reading.new) }
{
    let first = work.plan(alloc, 0, &Shelf::new(alloc))?;
    let mut rounds = Rounds::new(alloc, first)?;
    loop {
        match reading.next(alloc) {
            Ok(Some(kept)) => take(alloc, work, &mut rounds, kept)?,
            Ok(None) => return Ok(rounds),
            Err(fault) => return Err(fault),
        }
    }
}
