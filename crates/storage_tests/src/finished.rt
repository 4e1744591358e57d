ghost use Rattle.std.specs.Prelude.{◌≡◌};
ghost use Rattle.journal.specs.Journals.{IsJournal};

use crate::rows::digests;
use crate::{Steps, append_one, open_whole};
use disk_memory::{MemoryDisk, SureDisk};
use journal::{Journal, OpenFault, look};
use lease_table::{Claimed, Standing};
use std::alloc::Global;
use std::test::Fail;
use sv_outside::Disk;
use tables::{Publication, Publish, Stop, Tables};
use worker_loop::finish;

const TERM: u64 = 100;

// Five rounds of three tasks; from the fourth on nothing changes.
const WORK: Steps = Steps {
    rounds: 5,
    tasks: 3,
};

// Opens tables and finishes them.
fn run<D: Disk>(alloc: Global, disk: D) -> (D, Result<(), Stop>) {
    match Tables::open(alloc, disk, &WORK, &digests(), TERM) {
        Ok(mut tables) => {
            let answer = finish(alloc, &mut tables, &WORK);
            (tables.into_disk(), answer)
        }
        Err((disk, _)) => (disk, Err(Stop::Disk)),
    }
}

// What stands on a disk once the tables on it are finished.
fn finished(alloc: Global, image: &[u8]) -> Result<Option<Vec<u8>>, Fail> {
    let disk = SureDisk::new(alloc, image.to_vec(alloc)?)?;
    let (disk, answer) = run(alloc, disk);
    if answer.is_err() {
        return Ok(None);
    }
    let images = disk.images(alloc)?;
    match images.first() {
        Some(image) => Ok(Some(image.as_slice().to_vec(alloc)?)),
        None => Ok(None),
    }
}

// Nine records of 15 bytes and six of 14, behind 40 bytes and before one.
#[test]
fn an_unchanged_artifact_takes_one_byte(rt: HostRuntime) -> Result<(), Fail> {
    let alloc = rt.alloc();
    let first = finished(alloc, &[])?.ok_or("not finished")?;
    assert_eq!(rt; first.len(), 260);
    let again = finished(alloc, &first)?.ok_or("not finished again")?;
    assert_eq!(rt; again.as_slice(), first.as_slice());
    Ok(())
}

// Whether a run that was stopped can be finished from each image that it may have left, with the same image at the end.
fn goes_on(alloc: Global, disk: MemoryDisk, wanted: &[u8]) -> Result<bool, Fail> {
    let (disk, _) = run(alloc, disk);
    for image in &disk.images(alloc)? {
        match finished(alloc, image)? {
            Some(end) if end.as_slice() == wanted => (),
            _ => return Ok(false),
        }
    }
    Ok(true)
}

#[test]
fn a_crash_at_each_call(rt: HostRuntime) -> Result<(), Fail> {
    let alloc = rt.alloc();
    let wanted = finished(alloc, &[])?.ok_or("not finished")?;
    for stop in 0..36 {
        let disk = MemoryDisk::new(alloc, Vec::new(alloc), Vec::new(alloc), Some(stop))?;
        assert!(rt; goes_on(alloc, disk, &wanted)?, "stopped at {stop}");
    }
    Ok(())
}

// Adds records, each with its round, its task and its body, and says whether all were added.
fn append_each<D: Disk>(
    alloc: Global,
    journal: &mut Journal<D>,
    records: &[(u32, u32, &[u8])],
) -> bool
    requires { IsJournal D.told D.seen journal.old }
    ensures { IsJournal D.told D.seen journal.new }
{
    for (round, task, body) in records {
        if *round > 9 || body.len() > 9 {
            return false;
        }
        if append_one(alloc, journal, *round, *task, body).is_err() {
            return false;
        }
    }
    true
}

// What opening tables answers over a journal with these records.
fn opened(alloc: Global, records: &[(u32, u32, &[u8])]) -> Result<Option<OpenFault>, Fail> {
    let disk = SureDisk::new(alloc, Vec::new(alloc))?;
    let (mut journal, _) = match open_whole(alloc, disk, &digests()) {
        Ok(opened) => opened,
        Err(_) => return Ok(Some(OpenFault::Disk)),
    };
    if !append_each(alloc, &mut journal, records) {
        return Ok(Some(OpenFault::Disk));
    }
    match Tables::open(alloc, journal.into_disk(), &WORK, &digests(), TERM) {
        Ok(_) => Ok(None),
        Err((_, fault)) => Ok(Some(fault)),
    }
}

#[test]
fn a_record_out_of_place_is_a_damage(rt: HostRuntime) -> Result<(), Fail> {
    let alloc = rt.alloc();
    let first: (u32, u32, &[u8]) = (0, 0, &[5, 1]);
    let second: (u32, u32, &[u8]) = (0, 1, &[5, 1]);
    let third: (u32, u32, &[u8]) = (0, 2, &[5, 1]);
    let damaged = |at| Some(OpenFault::Damaged { at });
    assert_eq!(rt; opened(alloc, &[first, third, second, (1, 1, &[6])])?, None);
    assert_eq!(rt; opened(alloc, &[(0, 3, &[5, 1])])?, damaged(40));
    assert_eq!(rt; opened(alloc, &[(1, 0, &[5, 1])])?, damaged(40));
    assert_eq!(rt; opened(alloc, &[(0, 0, &[6])])?, damaged(40));
    assert_eq!(rt; opened(alloc, &[(0, 0, &[7, 7])])?, damaged(40));
    assert_eq!(rt; opened(alloc, &[first, first])?, damaged(55));
    assert_eq!(rt; opened(alloc, &[first, second, (1, 0, &[6])])?, damaged(70));
    assert_eq!(rt;
        opened(alloc, &[first, second, third, (2, 0, &[6])])?,
        damaged(85)
    );
    Ok(())
}

fn publication(task: u32, ticket: u64, artifact: Vec<u8>) -> Publication
    ensures { result.artifact.items ≡ artifact.items }
{
    Publication {
        task,
        ticket,
        artifact,
    }
}

#[test]
fn a_late_publication_is_lost(rt: HostRuntime) -> Result<(), Fail> {
    let alloc = rt.alloc();
    let disk = SureDisk::new(alloc, Vec::new(alloc))?;
    match Tables::open(alloc, disk, &WORK, &digests(), TERM) {
        Ok(mut tables) => {
            assert_eq!(rt; tables.claim(0, 0)?, Claimed::Work { task: 0, ticket: 0 });
            assert_eq!(rt; tables.claim(1, 0)?, Claimed::Work { task: 1, ticket: 1 });
            assert_eq!(rt; tables.claim(1, 100)?, Claimed::Work { task: 0, ticket: 2 });
            let until_200 = Some(Standing::Leased {
                ticket: 2,
                until: 200,
            });
            let late = tables.publish(alloc, &WORK, 0, 0, 0, [5, 1].to_vec(alloc)?);
            assert_eq!(rt;
                late,
                Publish::Lost {
                    round: 0,
                    standing: until_200
                }
            );
            let in_time = tables.publish(alloc, &WORK, 0, 0, 2, [5, 1].to_vec(alloc)?);
            assert_eq!(rt; in_time, Publish::Stored);
            assert_eq!(rt; tables.artifact(0, 0), Some([5, 1].as_slice()));
            assert_eq!(rt; tables.artifact(0, 1), None);
            assert_eq!(rt; tables.size(), 56);
        }
        Err(_) => assert!(rt; false),
    }
    Ok(())
}

#[test]
fn publications_together(rt: HostRuntime) -> Result<(), Fail> {
    let alloc = rt.alloc();
    let disk = SureDisk::new(alloc, Vec::new(alloc))?;
    match Tables::open(alloc, disk, &WORK, &digests(), TERM) {
        Ok(mut tables) => {
            assert_eq!(rt; tables.claim(0, 0)?, Claimed::Work { task: 0, ticket: 0 });
            assert_eq!(rt; tables.claim(0, 0)?, Claimed::Work { task: 1, ticket: 1 });
            let first = publication(0, 0, [5, 1].to_vec(alloc)?);
            let other = publication(2, 1, [5, 1].to_vec(alloc)?);
            let second = publication(1, 1, [5, 1].to_vec(alloc)?);
            let again = publication(0, 0, [5, 2].to_vec(alloc)?);
            let list = vec![in alloc; first, other, second, again]?;
            let answers = tables.publish_all(alloc, &WORK, 0, list)?;
            let free = Publish::Lost {
                round: 0,
                standing: Some(Standing::Free),
            };
            let done = Publish::Lost {
                round: 0,
                standing: Some(Standing::Done { ticket: 0 }),
            };
            let wanted = [Publish::Stored, free, Publish::Stored, done];
            assert_eq!(rt; answers.as_slice(), wanted.as_slice());
            assert_eq!(rt; tables.artifact(0, 0), Some([5, 1].as_slice()));
            let mut disk = tables.into_disk();
            let records = look(alloc, &mut disk, &digests());
            assert_eq!(rt; records.map(|list| list.len()), Ok(2));
        }
        Err(_) => assert!(rt; false),
    }
    Ok(())
}
