ghost use Rattle.std.specs.Prelude.{◌≡◌, ◌≤◌, OnErr, OnOk, IfOk};
ghost use Rattle.sv_outside.specs.Outside.{Rose};

use crate::medium::Medium;
use std::io;
use sv_base::{DiskFailed, NoMemory};
use sv_outside::Disk;

/// A file of the system, or a vector where it has no name. It tells nothing of what it holds.
#[derive(Drop)]
pub struct HostDisk {
    medium: Medium,
    faults: u64,
}

/// Counts a failure.
fn counted<T>(faults: &mut u64, answer: io::Result<T>) -> Result<T, DiskFailed>
    ensures failed { OnErr result (Rose faults.old faults.new) }
    ensures not_failed { OnOk result (faults.new ≡ faults.old) }
    ensures later { faults.old ≤ faults.new }
{
    match answer {
        Ok(value) => Ok(value),
        Err(_) => {
            *faults = faults.saturating_add(1);
            Err(DiskFailed)
        }
    }
}

impl HostDisk {
    ghost use Rattle.std.specs.Prelude.{◌≡◌};

    pub(crate) fn new(medium: Medium) -> HostDisk
        ensures { result.faults ≡ 0 }
    {
        HostDisk { medium, faults: 0 }
    }
}

impl Disk for HostDisk {
    ghost use Rattle.std.specs.Prelude.{false, []};
    ghost use Rattle.disk_file.specs.Untold.{unlimited, untold};

    ghost told = { false };

    ghost seen = { λ _. [] };

    ghost may_leave = { λ _ _. ⊥ };

    ghost moment = { λ _. 0 };

    ghost left_since = { λ _ _ _. ⊥ };

    ghost faults = { λ d. d.faults };

    ghost room = { λ _. unlimited };

    fn length(&mut self) -> Result<u64, DiskFailed> {
        counted(&mut self.faults, self.medium.length())
    }

    fn reserve(&mut self, length: u64, _calls: u32, _bytes: u64) -> Result<(), NoMemory> {
        self.medium.reserve(length)
    }

    fn read_at(&mut self, at: u64, into: &mut [u8]) -> Result<(), DiskFailed> {
        counted(&mut self.faults, self.medium.read_at(at, into))
    }

    fn write_at(&mut self, at: u64, bytes: &[u8]) -> Result<(), DiskFailed> {
        counted(&mut self.faults, self.medium.write_at(at, bytes))
    }

    fn cut(&mut self, to: u64) -> Result<(), DiskFailed> {
        counted(&mut self.faults, self.medium.cut(to))
    }

    fn sync(&mut self) -> Result<(), DiskFailed> {
        counted(&mut self.faults, self.medium.sync())
    }

    ghost counts_now = { λ d t c le left. left };

    ghost only_now = { λ d c left. left };

    ghost reads_image = { λ d told. untold told };
}
