//! `journal append FILE COUNT SIZE` opens the journal in a file, reads on to its end and appends so many records with bodies
//! of so many bytes, and writes a line for each that the disk has; `journal read FILE` reads all records;
//! `journal check FILE` also looks whether they are those that the first form writes.

use crate::records::{Tally, append, read};
use crate::trouble::Trouble;
use disk_file::{HostDisk, HostDisks};
use sv_outside::Disks;

fn open(rt: &HostRuntime, file: &str) -> Result<HostDisk, Trouble> {
    match HostDisks::new(rt, rt.alloc()).open(file) {
        Ok(disk) => Ok(disk),
        Err(_) => Err(Trouble::Disk),
    }
}

fn append_to(rt: &HostRuntime, file: &str, count: &str, size: &str) -> Result<Tally, Trouble> {
    match (count.parse::<u32>(), size.parse::<u16>()) {
        (Ok(count), Ok(size)) => append(rt, open(rt, file)?, count, size),
        _ => Err(Trouble::Words),
    }
}

fn tally_of(rt: &HostRuntime, words: &[String]) -> Result<Tally, Trouble> {
    match words {
        [name, file] if name.as_str() == "read" => {
            read(rt.alloc(), open(rt, file.as_str())?, false)
        }
        [name, file] if name.as_str() == "check" => {
            read(rt.alloc(), open(rt, file.as_str())?, true)
        }
        [name, file, count, size] if name.as_str() == "append" => {
            append_to(rt, file.as_str(), count.as_str(), size.as_str())
        }
        _ => Err(Trouble::Words),
    }
}

pub(crate) fn answer(rt: &HostRuntime, words: &[String]) -> Result<(), Trouble> {
    let tally = tally_of(rt, words)?;
    println!(rt; "records {} bytes {}", tally.records, tally.bytes)?;
    Ok(())
}
