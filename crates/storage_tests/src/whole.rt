ghost use Rattle.std.specs.Prelude.{◌≤◌, ◌^◌, ◌<◌, ◌-◌, length, IfOk};
ghost use Rattle.journal.specs.Journals.{IsJournal};
ghost use Rattle.journal.specs.Readings.{IsReading, HasEnded};

use journal::{Digests, Journal, Kept, NoRoom, OpenFault, Piece, Reading};
use std::alloc::Global;
use sv_outside::Disk;

/// Why a record was not added.
#[derive(Clone, Copy, Debug, PartialEq, Eq)]
pub enum NotAdded {
    Full { size: u64 },
    Disk,
    NoMemory,
}

fn finish<D: Disk>(
    alloc: Global,
    reading: Reading<D>,
    records: Vec<Kept>,
) -> Result<(Journal<D>, Vec<Kept>), (D, OpenFault)>
    requires reading { IsReading D.told D.seen D.may_leave reading }
    requires ended { HasEnded reading }
    ensures { IfOk result (λ r. IsJournal D.told D.seen r.0) }
{
    match reading.into_journal(alloc) {
        Ok(journal) => Ok((journal, records)),
        Err(refused) => Err(refused),
    }
}

/// Opens a journal and reads all its records.
pub fn open_whole<D: Disk>(
    alloc: Global,
    disk: D,
    digests: &Digests,
) -> Result<(Journal<D>, Vec<Kept>), (D, OpenFault)>
    ensures { IfOk result (λ r. IsJournal D.told D.seen r.0) }
{
    let mut reading = match Journal::open(alloc, disk, digests) {
        Ok(reading) => reading,
        Err(refused) => return Err(refused),
    };
    let mut records = Vec::new(alloc);
    for _ in 0..u64::MAX {
        match reading.next(alloc) {
            Ok(Some(kept)) => {
                if records.push(kept).is_err() {
                    return Err((reading.into_disk(), OpenFault::NoMemory));
                }
            }
            Ok(None) => return finish(alloc, reading, records),
            Err(fault) => return Err((reading.into_disk(), fault)),
        }
    }
    Err((reading.into_disk(), OpenFault::NoMemory))
}

/// Makes room for a record and adds it.
pub fn append_one<D: Disk>(
    alloc: Global,
    journal: &mut Journal<D>,
    round: u32,
    task: u32,
    body: &[u8],
) -> Result<(), NotAdded>
    requires journal { IsJournal D.told D.seen journal.old }
    requires body { length body.now ≤ 2 ^ 31 }
    requires round { round < 2 ^ 32 - 1 }
    ensures { IsJournal D.told D.seen journal.new }
{
    let piece = match Piece::new(alloc, round, task, body) {
        Ok(piece) => piece,
        Err(_) => return Err(NotAdded::NoMemory),
    };
    match journal.reserve(body.len() as u32) {
        Ok(()) => (),
        Err(NoRoom::Full { size }) => return Err(NotAdded::Full { size }),
        Err(NoRoom::NoMemory) => return Err(NotAdded::NoMemory),
    }
    match journal.append(&piece) {
        Ok(()) => Ok(()),
        Err(_) => Err(NotAdded::Disk),
    }
}

/// Adds records of two bytes to the first round, of its tasks in order, and says how many were acknowledged before one
/// was not.
pub fn append_all<D: Disk>(alloc: Global, journal: &mut Journal<D>, count: u8) -> u8
    requires { IsJournal D.told D.seen journal.old }
    ensures { IsJournal D.told D.seen journal.new }
{
    for task in 0..count {
        if append_one(alloc, journal, 0, u32::from(task), &[5, task]).is_err() {
            return task;
        }
    }
    count
}
