ghost use Rattle.std.specs.Prelude.{◌≤◌, ◌^◌, length, IfOk, OnOk};
ghost use Rattle.journal.specs.Journals.{IsJournal};
ghost use Rattle.journal.specs.Readings.{IsReading, IsGoing, HasEnded};

use crate::trouble::Trouble;
use journal::{Digests, Journal, Kept, NoRoom, Piece, Reading};
use std::alloc::Global;
use sv_outside::Disk;

/// The digests of the source that the journal is said to be of.
const DIGESTS: Digests = Digests {
    current: [7; 32],
    old: None,
};

/// How many records were read, and how many bytes their bodies have.
#[derive(Clone, Copy, Debug, PartialEq, Eq)]
pub(crate) struct Tally {
    pub(crate) records: u32,
    pub(crate) bytes: u64,
}

// The byte that each place in the body of a record has.
fn byte_of(number: u32) -> u8 {
    (number % 251) as u8
}

fn is_right(kept: &Kept, number: u32) -> bool {
    for byte in &kept.body {
        if *byte != byte_of(number) {
            return false;
        }
    }
    kept.round == 0 && kept.task == number
}

/// Reads on to the end.
fn read_all<D: Disk>(
    alloc: Global,
    reading: &mut Reading<D>,
    checked: bool,
) -> Result<Tally, Trouble>
    requires reading { IsReading D.told D.seen D.may_leave reading.old }
    requires going { IsGoing reading.old }
    ensures ended { OnOk result (HasEnded reading.new) }
    ensures reading { IsReading D.told D.seen D.may_leave reading.new }
{
    let mut tally = Tally {
        records: 0,
        bytes: 0,
    };
    for _ in 0..u32::MAX {
        match reading.next(alloc) {
            Ok(None) => return Ok(tally),
            Ok(Some(kept)) => {
                if checked && !is_right(&kept, tally.records) {
                    return Err(Trouble::Record {
                        number: tally.records,
                    });
                }
                tally.records = tally.records.saturating_add(1);
                tally.bytes = tally.bytes.saturating_add(kept.body.len() as u64);
            }
            Err(fault) => return Err(Trouble::Open(fault)),
        }
    }
    Err(Trouble::Full)
}

fn open<D: Disk>(alloc: Global, disk: D, checked: bool) -> Result<(Reading<D>, Tally), Trouble>
    ensures ended { IfOk result (λ r. HasEnded r.0) }
    ensures reading { IfOk result (λ r. IsReading D.told D.seen D.may_leave r.0) }
{
    let mut reading = match Journal::open(alloc, disk, &DIGESTS) {
        Ok(reading) => reading,
        Err((_, fault)) => return Err(Trouble::Open(fault)),
    };
    match read_all(alloc, &mut reading, checked) {
        Ok(tally) => Ok((reading, tally)),
        Err(trouble) => Err(trouble),
    }
}

/// Opens a journal, and reads all its records.
pub(crate) fn read<D: Disk>(alloc: Global, disk: D, checked: bool) -> Result<Tally, Trouble> {
    match open(alloc, disk, checked) {
        Ok((_, tally)) => Ok(tally),
        Err(trouble) => Err(trouble),
    }
}

// Adds one record after so many.
fn append_one<D: Disk>(
    alloc: Global,
    journal: &mut Journal<D>,
    number: u32,
    body: &[u8],
) -> Result<(), Trouble>
    requires body { length body.now ≤ 2 ^ 31 }
    requires journal { IsJournal D.told D.seen journal.old }
    ensures journal { IsJournal D.told D.seen journal.new }
{
    match journal.reserve(body.len() as u32) {
        Ok(()) => (),
        Err(NoRoom::Full { .. }) => return Err(Trouble::Full),
        Err(NoRoom::NoMemory) => return Err(Trouble::NoMemory),
    }
    let piece = Piece::new(alloc, 0, number, body)?;
    journal.append(&piece)?;
    Ok(())
}

/// Opens a journal, appends so many records with bodies of so many bytes, and writes a line for each that was appended.
pub(crate) fn append<D: Disk>(
    rt: &HostRuntime,
    disk: D,
    count: u32,
    size: u16,
) -> Result<Tally, Trouble> {
    let alloc = rt.alloc();
    let (reading, mut tally) = open(alloc, disk, false)?;
    let mut journal = match reading.into_journal(alloc) {
        Ok(journal) => journal,
        Err((_, fault)) => return Err(Trouble::Open(fault)),
    };
    for _ in 0..count {
        let number = tally.records;
        let body = vec![in alloc; byte_of(number); size as usize]?;
        append_one(alloc, &mut journal, number, &body)?;
        println!(rt; "appended {number}")?;
        tally.records = tally.records.saturating_add(1);
        tally.bytes = tally.bytes.saturating_add(size as u64);
    }
    Ok(tally)
}
