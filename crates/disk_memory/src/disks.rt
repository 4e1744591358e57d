use crate::named::take_under;
use crate::{MemoryDisk, SureDisk};
use std::alloc::Global;
use sv_base::DiskFailed;
use sv_outside::Disks;

/// Disks in memory by name, of which some calls of `open` fail. Each disk is handed out once; a name that has none, and the
/// empty name, stand for an empty disk that never fails.
#[derive(Drop)]
pub struct MemoryDisks {
    alloc: Global,
    disks: Vec<(String, MemoryDisk)>,
    failing: Vec<u64>,
    calls: u64,
    faults: u64,
}

impl MemoryDisks {
    ghost use Rattle.std.specs.Prelude.{◌≡◌, ℕ, List};
    ghost use Rattle.disk_memory.specs.Named.{under};
    ghost use Rattle.disk_memory.specs.OpensViews.{memory_under, memory_failing_opens, memory_opens, memory_open_faults};

    /// Calls of `open` are numbered from 0, and those that `failing` names fail.
    pub fn new(alloc: Global, disks: Vec<(String, MemoryDisk)>, failing: Vec<u64>) -> MemoryDisks
        ensures disks { (name : List ℕ) → memory_under result name ≡ under disks.items name }
        ensures failing { memory_failing_opens result ≡ failing.items }
        ensures calls { memory_opens result ≡ 0 }
        ensures faults { memory_open_faults result ≡ 0 }
    {
        MemoryDisks {
            alloc,
            disks,
            failing,
            calls: 0,
            faults: 0,
        }
    }
}

impl Disks for MemoryDisks {
    ghost use Rattle.std.specs.Prelude.{◌≡◌, ◌≢◌, ◌⊎◌, ◌≤◌, ℕ, List, [], true, false, IfOk, OnOk, OnErr};
    ghost use Rattle.sv_outside.specs.Outside.{Rose, counted};
    ghost use Rattle.disk_memory.specs.OpensViews.{memory_under, memory_left, memory_failing_opens, memory_opens, memory_open_faults, memory_open_fails, MemoryHandsOut};
    ghost use Rattle.disk_memory.specs.Views.{memory_faults, memory_moment, memory_seen, memory_images};
    ghost use Rattle.disk_memory.specs.DisksViews.{memory_faults_of, memory_moment_of, memory_seen_of, memory_images_of};
    ghost use Rattle.disk_memory.specs.Named.{under, left_of};

    type D = MemoryDisk;

    ghost faults = { λ s. s.faults };

    ghost calls = { λ s. s.calls };

    ghost faults_of = { λ s name. memory_faults_of (under s.disks.items name) };

    ghost moment_of = { λ s name. memory_moment_of (under s.disks.items name) };

    ghost image_of = { λ s name. memory_seen_of (under s.disks.items name) };

    ghost may_leave_of = { λ s name. memory_images_of (under s.disks.items name) };

    fn open(&mut self, name: &str) -> Result<MemoryDisk, DiskFailed>
        ensures faults_of { IfOk result (λ d. memory_faults d ≡ memory_faults_of (memory_under self.old name.now)) }
        ensures moment_of { IfOk result (λ d. memory_moment d ≡ memory_moment_of (memory_under self.old name.now)) }
        ensures image { IfOk result (λ d. memory_seen d ≡ memory_seen_of (memory_under self.old name.now)) }
        ensures images { IfOk result (λ d. (c : List ℕ) → (memory_images d c → memory_images_of (memory_under self.old name.now) c) × (memory_images_of (memory_under self.old name.now) c → memory_images d c)) }
        ensures others { (other : List ℕ) → (other ≢ name.now) ⊎ (other ≡ []) →
            (memory_faults_of (memory_under self.new other) ≡ memory_faults_of (memory_under self.old other)) × (memory_moment_of (memory_under self.new other) ≡ memory_moment_of (memory_under self.old other))
            × (memory_seen_of (memory_under self.new other) ≡ memory_seen_of (memory_under self.old other))
            × ((c : List ℕ) → (memory_images_of (memory_under self.new other) c → memory_images_of (memory_under self.old other) c) × (memory_images_of (memory_under self.old other) c → memory_images_of (memory_under self.new other) c)) }
        ensures failed { OnErr result (Rose (memory_open_faults self.old) (memory_open_faults self.new)) }
        ensures counted_fault { OnErr result (memory_open_faults self.new ≡ counted (memory_open_faults self.old)) }
        ensures not_failed { OnOk result (memory_open_faults self.new ≡ memory_open_faults self.old) }
        ensures later { memory_open_faults self.old ≤ memory_open_faults self.new }
        ensures counted { memory_opens self.new ≡ counted (memory_opens self.old) }

        // It hands out the very disk that stands there, and the others stay.
        ensures handed { IfOk result (λ d. MemoryHandsOut (memory_under self.old name.now) d) }
        ensures same_others { (other : List ℕ) → (other ≢ name.now) ⊎ (other ≡ []) → memory_under self.new other ≡ memory_under self.old other }
        ensures left { OnOk result (memory_left self.new ≡ left_of (memory_left self.old) name.now) }

        // It fails exactly where its number is one of those that fail, and then nothing is handed out.
        ensures fails { OnErr result (memory_open_fails self.old ≡ true) }
        ensures passes { OnOk result (memory_open_fails self.old ≡ false) }
        ensures stays { OnErr result ((other : List ℕ) → memory_under self.new other ≡ memory_under self.old other) }
        ensures same_failing { memory_failing_opens self.new ≡ memory_failing_opens self.old }
    {
        let number = self.calls;
        self.calls = number.saturating_add(1);
        if self.failing.contains(&number) {
            self.faults = self.faults.saturating_add(1);
            return Err(DiskFailed);
        }
        match take_under(&mut self.disks, name) {
            Some(disk) => Ok(disk),
            None => Ok(MemoryDisk::empty(self.alloc)),
        }
    }

    ghost empty_name = { λ s told. Prim.search };

    ghost empty_images = { λ s c left. left };
}

/// Disks in memory by name, none of which fails. Each disk is handed out once; a name that has none, and the empty name,
/// stand for an empty disk.
#[derive(Drop)]
pub struct SureDisks {
    alloc: Global,
    disks: Vec<(String, SureDisk)>,
    calls: u64,
}

impl SureDisks {
    ghost use Rattle.std.specs.Prelude.{◌≡◌, ℕ, List};
    ghost use Rattle.disk_memory.specs.Named.{under};
    ghost use Rattle.disk_memory.specs.OpensViews.{sure_under, sure_opens};

    /// Of two disks of one name the first is meant.
    pub fn new(alloc: Global, disks: Vec<(String, SureDisk)>) -> SureDisks
        ensures disks { (name : List ℕ) → sure_under result name ≡ under disks.items name }
        ensures calls { sure_opens result ≡ 0 }
    {
        SureDisks {
            alloc,
            disks,
            calls: 0,
        }
    }
}

impl Disks for SureDisks {
    ghost use Rattle.std.specs.Prelude.{◌≡◌, ◌≢◌, ◌⊎◌, ℕ, List, [], IfOk, IsOk};
    ghost use Rattle.sv_outside.specs.Outside.{counted};
    ghost use Rattle.disk_memory.specs.OpensViews.{sure_under, sure_left, sure_opens, SureHandsOut};
    ghost use Rattle.disk_memory.specs.Views.{sure_moment, sure_seen, sure_images};
    ghost use Rattle.disk_memory.specs.DisksViews.{sure_moment_of, sure_seen_of, sure_images_of};
    ghost use Rattle.disk_memory.specs.Named.{under, left_of};

    type D = SureDisk;

    ghost faults = { λ s. 0 };

    ghost calls = { λ s. s.calls };

    ghost faults_of = { λ s name. 0 };

    ghost moment_of = { λ s name. sure_moment_of (under s.disks.items name) };

    ghost image_of = { λ s name. sure_seen_of (under s.disks.items name) };

    ghost may_leave_of = { λ s name. sure_images_of (under s.disks.items name) };

    fn open(&mut self, name: &str) -> Result<SureDisk, DiskFailed>
        ensures moment_of { IfOk result (λ d. sure_moment d ≡ sure_moment_of (sure_under self.old name.now)) }
        ensures image { IfOk result (λ d. sure_seen d ≡ sure_seen_of (sure_under self.old name.now)) }
        ensures images { IfOk result (λ d. (c : List ℕ) → (sure_images d c → sure_images_of (sure_under self.old name.now) c) × (sure_images_of (sure_under self.old name.now) c → sure_images d c)) }
        ensures others { (other : List ℕ) → (other ≢ name.now) ⊎ (other ≡ []) →
            (sure_moment_of (sure_under self.new other) ≡ sure_moment_of (sure_under self.old other))
            × (sure_seen_of (sure_under self.new other) ≡ sure_seen_of (sure_under self.old other))
            × ((c : List ℕ) → (sure_images_of (sure_under self.new other) c → sure_images_of (sure_under self.old other) c) × (sure_images_of (sure_under self.old other) c → sure_images_of (sure_under self.new other) c)) }
        ensures counted { sure_opens self.new ≡ counted (sure_opens self.old) }

        // It hands out the very disk that stands there, and the others stay.
        ensures handed { IfOk result (λ d. SureHandsOut (sure_under self.old name.now) d) }
        ensures same_others { (other : List ℕ) → (other ≢ name.now) ⊎ (other ≡ []) → sure_under self.new other ≡ sure_under self.old other }
        ensures left { sure_left self.new ≡ left_of (sure_left self.old) name.now }
        ensures never_fails { IsOk result }
    {
        self.calls = self.calls.saturating_add(1);
        match take_under(&mut self.disks, name) {
            Some(disk) => Ok(disk),
            None => Ok(SureDisk::empty(self.alloc)),
        }
    }

    ghost empty_name = { λ s told. Prim.search };

    ghost empty_images = { λ s c left. left };
}
