use crate::medium::Medium;
use std::alloc::Global;
use sv_base::{DiskFailed, NoMemory};
use sv_outside::Disk;

/// A disk in memory, of which some calls fail. It keeps its first image and each call of `write_at`, `cut` and `sync`.
#[derive(Drop)]
pub struct MemoryDisk {
    medium: Medium,
    failing: Vec<u64>,
    stop: Option<u64>,
    number: u64,
    faults: u64,
}

impl MemoryDisk {
    ghost use Rattle.std.specs.Prelude.{◌≡◌, ◌≤◌, ◌++◌, [], ◌∷◌, ℕ, List, None, true, false, not, All, Contains, IfOk};
    ghost use Rattle.sv_outside.specs.Outside.{Rose, counted};
    ghost use Rattle.sv_outside.specs.Disk.{Only};
    ghost use Rattle.disk_memory.specs.Calls.{Op};
    ghost use Rattle.disk_memory.specs.Calls.Op.{synced};
    ghost use Rattle.disk_memory.specs.Listed.{listed_images};
    ghost use Rattle.disk_memory.specs.Replay.{contents};
    ghost use Rattle.disk_memory.specs.Views.{memory_first, memory_seen, memory_record, memory_images, memory_moment, memory_faults, memory_failing, memory_stop, memory_calls, memory_fails};

    /// A disk that holds this, all of it on the disk. Calls are numbered from 0, those of `reserve` aside; a call fails
    /// that `failing` names, or that is `stop` or later.
    pub fn new(
        alloc: Global,
        image: Vec<u8>,
        failing: Vec<u64>,
        stop: Option<u64>,
    ) -> Result<MemoryDisk, NoMemory>
        ensures seen { IfOk result (λ d. memory_seen d ≡ image.items) }
        ensures only { IfOk result (λ d. Only image.items (memory_images d)) }
        ensures faults { IfOk result (λ d. memory_faults d ≡ 0) }
        ensures first { IfOk result (λ d. memory_first d ≡ image.items) }
        ensures no_calls { IfOk result (λ d. memory_record d ≡ []) }
        ensures failing { IfOk result (λ d. memory_failing d ≡ failing.items) }
        ensures stop { IfOk result (λ d. memory_stop d ≡ stop) }
        ensures number { IfOk result (λ d. memory_calls d ≡ 0) }
    {
        let medium = Medium::new(alloc, image)?;
        Ok(MemoryDisk {
            medium,
            failing,
            stop,
            number: 0,
            faults: 0,
        })
    }

    /// A disk that holds nothing and never fails.
    pub(crate) fn empty(alloc: Global) -> MemoryDisk
        ensures seen { memory_seen result ≡ [] }
        ensures images { (c : List ℕ) → (memory_images result c → c ≡ []) × (c ≡ [] → memory_images result c) }
        ensures moment { memory_moment result ≡ 0 }
        ensures faults { memory_faults result ≡ 0 }
        ensures first { memory_first result ≡ [] }
        ensures no_calls { memory_record result ≡ [] }
        ensures failing { memory_failing result ≡ [] }
        ensures stop { memory_stop result ≡ None }
        ensures number { memory_calls result ≡ 0 }
    {
        MemoryDisk {
            medium: Medium::empty(alloc),
            failing: Vec::new(alloc),
            stop: None,
            number: 0,
            faults: 0,
        }
    }

    /// Some of its crash images: what stood after the last sync that was done, that after each call since, and before each
    /// write what was read with ones in the range of the write.
    pub fn images(&self, alloc: Global) -> Result<Vec<Vec<u8>>, NoMemory>
        ensures listed { IfOk result (λ l. contents l.items ≡ listed_images (memory_first self.now) (memory_record self.now)) }
        ensures left { IfOk result (λ l. All (memory_images self.now) (contents l.items)) }
        ensures reads { IfOk result (λ l. Contains (contents l.items) (memory_seen self.now)) }
        ensures settled { (ops : List Op) → memory_record self.now ≡ ops ++ synced true ∷ [] → IfOk result (λ l. contents l.items ≡ memory_seen self.now ∷ []) }
    {
        self.medium.images(alloc)
    }

    // Counts a call, and says whether it is done.
    fn counts(&mut self) -> bool
        ensures done { result ≡ not (memory_fails self.old) }
        ensures medium { self.new.medium ≡ self.old.medium }
        ensures failing { memory_failing self.new ≡ memory_failing self.old }
        ensures stop { memory_stop self.new ≡ memory_stop self.old }
        ensures number { memory_calls self.new ≡ counted (memory_calls self.old) }
        ensures failed { result ≡ false → self.new.faults ≡ counted self.old.faults }
        ensures not_failed { result ≡ true → self.new.faults ≡ self.old.faults }
        ensures later { self.old.faults ≤ self.new.faults }
    {
        let stopped = match self.stop {
            Some(stop) => self.number >= stop,
            None => false,
        };
        let fails = stopped || self.failing.contains(&self.number);
        self.number = self.number.saturating_add(1);
        if fails {
            self.faults = self.faults.saturating_add(1);
        }
        !fails
    }
}

impl Disk for MemoryDisk {
    ghost use Rattle.std.specs.Prelude.{◌≡◌, ◌≤◌, ◌+◌, [], ◌∷◌, List, ℕ, true, false, not, length, take, drop, IfOk, OnOk, OnErr};
    ghost use Rattle.sv_outside.specs.Outside.{Rose, counted};
    ghost use Rattle.sv_outside.specs.Disk.{Only, Follows, Torn, Cut, Holds, Elapses, IsStill, HasRoom, TakesRoom};
    ghost use Rattle.disk_memory.specs.Calls.Op.{wrote, cut, synced};
    ghost use Rattle.disk_memory.specs.Media.{medium_seen, medium_images, medium_moment, medium_since, medium_room};
    ghost use Rattle.disk_memory.specs.Numbered.{IsNumbered, IsUnnumbered};
    ghost use Rattle.disk_memory.specs.Views.{memory_seen, memory_images, memory_moment, memory_since, memory_room, memory_faults, memory_fails};
    ghost use Rattle.disk_memory.specs.MediumLaws.{medium_counts_now, medium_only_now, medium_reads_image};

    ghost told = { true };

    ghost seen = { λ d. medium_seen d.medium };

    ghost may_leave = { λ d. medium_images d.medium };

    ghost moment = { λ d. medium_moment d.medium };

    ghost left_since = { λ d. medium_since d.medium };

    ghost faults = { λ d. d.faults };

    ghost room = { λ d. medium_room d.medium };

    fn length(&mut self) -> Result<u64, DiskFailed>
        ensures length { IfOk result (λ n. n ≡ length (memory_seen self.old)) }
        ensures seen { memory_seen self.new ≡ memory_seen self.old }
        ensures still { IsStill (memory_moment self.old) (memory_moment self.new) (memory_since self.old) (memory_since self.new) (memory_images self.old) (memory_images self.new) }
        ensures failed { OnErr result (Rose (memory_faults self.old) (memory_faults self.new)) }
        ensures counted { OnErr result (memory_faults self.new ≡ counted (memory_faults self.old)) }
        ensures not_failed { OnOk result (memory_faults self.new ≡ memory_faults self.old) }
        ensures later { memory_faults self.old ≤ memory_faults self.new }
        ensures room { memory_room self.new ≡ memory_room self.old }

        // It fails exactly where its number is one of those that fail.
        ensures fails { OnErr result (memory_fails self.old ≡ true) }
        ensures passes { OnOk result (memory_fails self.old ≡ false) }
        ensures numbered { IsNumbered self.old self.new [] }
    {
        if !self.counts() {
            return Err(DiskFailed);
        }
        Ok(self.medium.bytes.len() as u64)
    }

    fn reserve(&mut self, length: u64, calls: u32, bytes: u64) -> Result<(), NoMemory>
        ensures reserved { OnOk result (HasRoom (memory_room self.new) length calls bytes) }
        ensures more { TakesRoom 0 0 (memory_room self.old) (memory_room self.new) }
        ensures seen { memory_seen self.new ≡ memory_seen self.old }
        ensures still { IsStill (memory_moment self.old) (memory_moment self.new) (memory_since self.old) (memory_since self.new) (memory_images self.old) (memory_images self.new) }
        ensures faults { memory_faults self.new ≡ memory_faults self.old }
        ensures unnumbered { IsUnnumbered self.old self.new }
    {
        self.medium.reserve(length, calls, bytes)
    }

    fn read_at(&mut self, at: u64, into: &mut [u8]) -> Result<(), DiskFailed>
        requires { at + length into.old ≤ length (memory_seen self.old) }
        ensures read { OnOk result (into.new ≡ take (length into.old) (drop at (memory_seen self.old))) }
        ensures seen { memory_seen self.new ≡ memory_seen self.old }
        ensures still { IsStill (memory_moment self.old) (memory_moment self.new) (memory_since self.old) (memory_since self.new) (memory_images self.old) (memory_images self.new) }
        ensures failed { OnErr result (Rose (memory_faults self.old) (memory_faults self.new)) }
        ensures counted { OnErr result (memory_faults self.new ≡ counted (memory_faults self.old)) }
        ensures not_failed { OnOk result (memory_faults self.new ≡ memory_faults self.old) }
        ensures later { memory_faults self.old ≤ memory_faults self.new }
        ensures room { memory_room self.new ≡ memory_room self.old }

        // It fails exactly where its number is one of those that fail.
        ensures fails { OnErr result (memory_fails self.old ≡ true) }
        ensures passes { OnOk result (memory_fails self.old ≡ false) }
        ensures numbered { IsNumbered self.old self.new [] }
    {
        if !self.counts() {
            return Err(DiskFailed);
        }
        let at = at as usize;
        let end = at + into.len();
        into.copy_from_slice(&self.medium.bytes[at..end]);
        Ok(())
    }

    fn write_at(&mut self, at: u64, bytes: &[u8]) -> Result<(), DiskFailed>
        requires place { at ≤ length (memory_seen self.old) }
        requires room { HasRoom (memory_room self.old) (at + length bytes.now) 1 (length bytes.now) }
        ensures written { OnOk result (Holds (memory_seen self.old) at bytes.now (memory_seen self.new)) }
        ensures torn { OnErr result (Torn at (length bytes.now) (memory_seen self.old) (memory_seen self.new)) }
        ensures crash { Follows (Torn at (length bytes.now)) (memory_images self.old) (memory_images self.new) }
        ensures time { Elapses (memory_moment self.old) (memory_moment self.new) (memory_since self.old) (memory_since self.new) (memory_images self.new) }
        ensures failed { OnErr result (Rose (memory_faults self.old) (memory_faults self.new)) }
        ensures counted { OnErr result (memory_faults self.new ≡ counted (memory_faults self.old)) }
        ensures not_failed { OnOk result (memory_faults self.new ≡ memory_faults self.old) }
        ensures later { memory_faults self.old ≤ memory_faults self.new }
        ensures room { TakesRoom 1 (length bytes.now) (memory_room self.old) (memory_room self.new) }

        // It fails exactly where its number is one of those that fail.
        ensures fails { OnErr result (memory_fails self.old ≡ true) }
        ensures passes { OnOk result (memory_fails self.old ≡ false) }
        ensures numbered { IsNumbered self.old self.new (wrote at bytes.now (not (memory_fails self.old)) ∷ []) }
    {
        let done = self.counts();
        self.medium.write(done, at, bytes);
        if done { Ok(()) } else { Err(DiskFailed) }
    }

    fn cut(&mut self, to: u64) -> Result<(), DiskFailed>
        requires place { to ≤ length (memory_seen self.old) }
        requires room { HasRoom (memory_room self.old) 0 1 0 }
        ensures cut { OnOk result (memory_seen self.new ≡ take to (memory_seen self.old)) }
        ensures torn { OnErr result (Cut to (memory_seen self.old) (memory_seen self.new)) }
        ensures crash { Follows (Cut to) (memory_images self.old) (memory_images self.new) }
        ensures time { Elapses (memory_moment self.old) (memory_moment self.new) (memory_since self.old) (memory_since self.new) (memory_images self.new) }
        ensures failed { OnErr result (Rose (memory_faults self.old) (memory_faults self.new)) }
        ensures counted { OnErr result (memory_faults self.new ≡ counted (memory_faults self.old)) }
        ensures not_failed { OnOk result (memory_faults self.new ≡ memory_faults self.old) }
        ensures later { memory_faults self.old ≤ memory_faults self.new }
        ensures room { TakesRoom 1 0 (memory_room self.old) (memory_room self.new) }

        // It fails exactly where its number is one of those that fail.
        ensures fails { OnErr result (memory_fails self.old ≡ true) }
        ensures passes { OnOk result (memory_fails self.old ≡ false) }
        ensures numbered { IsNumbered self.old self.new (cut to (not (memory_fails self.old)) ∷ []) }
    {
        let done = self.counts();
        self.medium.cut(done, to);
        if done { Ok(()) } else { Err(DiskFailed) }
    }

    fn sync(&mut self) -> Result<(), DiskFailed>
        requires { HasRoom (memory_room self.old) 0 1 0 }
        ensures durable { OnOk result (Only (memory_seen self.old) (memory_images self.new)) }
        ensures seen { memory_seen self.new ≡ memory_seen self.old }
        ensures crash { (c : List ℕ) → memory_images self.new c → memory_images self.old c }
        ensures time { Elapses (memory_moment self.old) (memory_moment self.new) (memory_since self.old) (memory_since self.new) (memory_images self.new) }
        ensures failed { OnErr result (Rose (memory_faults self.old) (memory_faults self.new)) }
        ensures counted { OnErr result (memory_faults self.new ≡ counted (memory_faults self.old)) }
        ensures not_failed { OnOk result (memory_faults self.new ≡ memory_faults self.old) }
        ensures later { memory_faults self.old ≤ memory_faults self.new }
        ensures room { TakesRoom 1 0 (memory_room self.old) (memory_room self.new) }

        // It fails exactly where its number is one of those that fail.
        ensures fails { OnErr result (memory_fails self.old ≡ true) }
        ensures passes { OnOk result (memory_fails self.old ≡ false) }
        ensures numbered { IsNumbered self.old self.new (synced (not (memory_fails self.old)) ∷ []) }
    {
        let done = self.counts();
        self.medium.sync(done);
        if done { Ok(()) } else { Err(DiskFailed) }
    }

    ghost counts_now = { λ d. medium_counts_now d.medium };

    ghost only_now = { λ d. medium_only_now d.medium };

    ghost reads_image = { λ d told. medium_reads_image d.medium };
}
