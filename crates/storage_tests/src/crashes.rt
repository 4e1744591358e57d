use crate::rows::digests;
use crate::{append_all, open_whole};
use disk_memory::{MemoryDisk, SureDisk};
use std::alloc::Global;
use std::test::Fail;

// How many records a run adds, and more calls of the disk than it makes.
const RECORDS: u8 = 3;

const CALLS: u64 = 30;

// Opens a journal on a disk and adds records, and says how many were acknowledged.
fn run(alloc: Global, disk: MemoryDisk) -> (MemoryDisk, u8) {
    match open_whole(alloc, disk, &digests()) {
        Ok((mut journal, _)) => {
            let done = append_all(alloc, &mut journal, RECORDS);
            (journal.into_disk(), done)
        }
        Err((disk, _)) => (disk, 0),
    }
}

// Whether an image opens, and holds the first records of a run, so many or one more.
fn holds(alloc: Global, image: &[u8], done: u8) -> Result<bool, Fail> {
    let disk = SureDisk::new(alloc, image.to_vec(alloc)?)?;
    match open_whole(alloc, disk, &digests()) {
        Ok((_, records)) => {
            let right = records.iter().zip(0..RECORDS).all(|(kept, task)| {
                kept.round == 0
                    && kept.task == u32::from(task)
                    && kept.body.as_slice() == [5, task].as_slice()
            });
            let done = usize::from(done);
            Ok(right && (records.len() == done || records.len() == done + 1))
        }
        Err(_) => Ok(false),
    }
}

// How many images of a disk were tried, or none where one of them lost a record.
fn tried(alloc: Global, disk: MemoryDisk) -> Result<Option<usize>, Fail> {
    let (disk, done) = run(alloc, disk);
    let images = disk.images(alloc)?;
    for image in &images {
        if !holds(alloc, image, done)? {
            return Ok(None);
        }
    }
    Ok(Some(images.len()))
}

#[test]
fn a_crash_at_each_call(rt: HostRuntime) -> Result<(), Fail> {
    let alloc = rt.alloc();
    for stop in 0..CALLS {
        let disk = MemoryDisk::new(alloc, Vec::new(alloc), Vec::new(alloc), Some(stop))?;
        let count = tried(alloc, disk)?;
        assert!(rt; count.is_some(), "stopped at {stop}");
    }
    Ok(())
}

#[test]
fn each_call_fails_once(rt: HostRuntime) -> Result<(), Fail> {
    let alloc = rt.alloc();
    for call in 0..CALLS {
        let failing = [call].to_vec(alloc)?;
        let disk = MemoryDisk::new(alloc, Vec::new(alloc), failing, None)?;
        let count = tried(alloc, disk)?;
        assert!(rt; count.is_some(), "failed at {call}");
    }
    Ok(())
}

#[test]
fn all_is_there_after_a_run_without_faults(rt: HostRuntime) -> Result<(), Fail> {
    let alloc = rt.alloc();
    let disk = MemoryDisk::new(alloc, Vec::new(alloc), Vec::new(alloc), None)?;
    let (disk, done) = run(alloc, disk);
    assert_eq!(rt; done, RECORDS);
    let images = disk.images(alloc)?;
    assert_eq!(rt; images.len(), 1);
    assert!(rt; holds(alloc, &images[0], done)?);
    Ok(())
}
