use crate::texts::{files, words_of};
use disk_memory::{MemoryDisk, MemoryDisks, SureDisks};
use std::alloc::Global;
use std::sync::Wait;
use std::test::Fail;
use std::thread::Threads;
use survey_check::{survey_stored, survey_trial};
use survey_crew::survey;
use sv_outside::{Clock, Gate, MemorySink, MemorySources, SureSink, SureSources};

/// What a call left: its status, what it put and told, and images of its disk.
#[derive(Drop)]
pub(crate) struct Left {
    pub(crate) status: u8,
    pub(crate) out: Vec<u8>,
    pub(crate) err: Vec<u8>,
    pub(crate) images: Vec<Vec<u8>>,
}

impl Left {
    /// Whether it is this status, with these texts.
    pub(crate) fn is(&self, status: u8, out: &str, err: &str) -> bool {
        self.status == status
            && self.out.as_slice() == out.as_bytes()
            && self.err.as_slice() == err.as_bytes()
    }

    /// Whether a crash leaves this image alone.
    pub(crate) fn stands(&self, image: &[u8]) -> bool {
        self.images.len() == 1 && self.images[0].as_slice() == image
    }
}

// This disk under the name `b`; calls of `open` fail that are named.
fn disks_of(alloc: Global, disk: MemoryDisk, failing: Vec<u64>) -> Result<MemoryDisks, Fail> {
    let mut disks = Vec::new(alloc);
    disks.push((String::from_str(alloc, "b")?, disk))?;
    Ok(MemoryDisks::new(alloc, disks, failing))
}

/// What a check on one thread leaves over a disk with the name `b`.
pub(crate) fn stored(
    alloc: Global,
    line: &str,
    text: &str,
    disk: MemoryDisk,
) -> Result<Left, Fail> {
    let words = words_of(alloc, line)?;
    let mut sources = SureSources::new(files(alloc, text)?);
    let mut out = SureSink::new(alloc);
    let mut err = SureSink::new(alloc);
    let mut disks = disks_of(alloc, disk, Vec::new(alloc))?;
    let ended = survey_stored(alloc, &words, &mut sources, &mut out, &mut err, &mut disks);
    let images = match &ended.disk {
        Some(disk) => disk.images(alloc)?,
        None => Vec::new(alloc),
    };
    Ok(Left {
        status: ended.status,
        out: Vec::from_slice(alloc, out.taken())?,
        err: Vec::from_slice(alloc, err.taken())?,
        images,
    })
}

/// What is left where loads, puts and calls of `open` fail.
pub(crate) fn stored_failing(
    alloc: Global,
    line: &str,
    text: &str,
    loads: Vec<u64>,
    puts: Vec<(u64, usize)>,
    opens: Vec<u64>,
) -> Result<Left, Fail> {
    let words = words_of(alloc, line)?;
    let mut sources = MemorySources::new(files(alloc, text)?, loads);
    let mut out = MemorySink::new(alloc, puts);
    let mut err = MemorySink::new(alloc, Vec::new(alloc));
    let disk = MemoryDisk::new(alloc, Vec::new(alloc), Vec::new(alloc), None)?;
    let mut disks = disks_of(alloc, disk, opens)?;
    let ended = survey_stored(alloc, &words, &mut sources, &mut out, &mut err, &mut disks);
    Ok(Left {
        status: ended.status,
        out: Vec::from_slice(alloc, out.taken())?,
        err: Vec::from_slice(alloc, err.taken())?,
        images: Vec::new(alloc),
    })
}

struct Still;

impl Clock for Still {
    fn now(&self) -> u64 {
        0
    }
}

impl Gate for Still {
    fn at(&self, _worker: u32, _round: u32, _task: u32) {}
}

/// What a check by workers leaves, over a disk in memory.
pub(crate) fn checked<R: Threads + Wait + Sync>(
    rt: &R,
    alloc: Global,
    line: &str,
    text: &str,
) -> Result<Left, Fail> {
    let words = words_of(alloc, line)?;
    let mut sources = SureSources::new(files(alloc, text)?);
    let mut out = SureSink::new(alloc);
    let mut err = SureSink::new(alloc);
    let mut disks = SureDisks::new(alloc, Vec::new(alloc));
    let ended = survey(
        rt,
        alloc,
        &words,
        &mut sources,
        &mut out,
        &mut err,
        &mut disks,
        &Still,
        &Still,
    );
    Ok(Left {
        status: ended.status,
        out: Vec::from_slice(alloc, out.taken())?,
        err: Vec::from_slice(alloc, err.taken())?,
        images: Vec::new(alloc),
    })
}

/// What a trial leaves.
pub(crate) fn tried(alloc: Global, line: &str) -> Result<Left, Fail> {
    let words = words_of(alloc, line)?;
    let mut out = SureSink::new(alloc);
    let mut err = SureSink::new(alloc);
    let mut disks = SureDisks::new(alloc, Vec::new(alloc));
    let ended = survey_trial(alloc, &words, &mut out, &mut err, &mut disks);
    Ok(Left {
        status: ended.status,
        out: Vec::from_slice(alloc, out.taken())?,
        err: Vec::from_slice(alloc, err.taken())?,
        images: Vec::new(alloc),
    })
}
