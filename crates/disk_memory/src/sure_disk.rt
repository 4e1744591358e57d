use crate::medium::Medium;
use std::alloc::Global;
use sv_base::{DiskFailed, NoMemory};
use sv_outside::Disk;

/// A disk in memory that never fails. It keeps its first image and each call of `write_at`, `cut` and `sync`.
#[derive(Drop)]
pub struct SureDisk {
    medium: Medium,
}

impl SureDisk {
    ghost use Rattle.std.specs.Prelude.{◌≡◌, ◌++◌, [], ◌∷◌, ℕ, List, true, All, Contains, IfOk};
    ghost use Rattle.sv_outside.specs.Disk.{Only};
    ghost use Rattle.disk_memory.specs.Calls.{Op};
    ghost use Rattle.disk_memory.specs.Calls.Op.{synced};
    ghost use Rattle.disk_memory.specs.Listed.{listed_images};
    ghost use Rattle.disk_memory.specs.Replay.{contents};
    ghost use Rattle.disk_memory.specs.Views.{sure_first, sure_seen, sure_record, sure_images, sure_moment};

    /// A disk that holds this, all of it on the disk.
    pub fn new(alloc: Global, image: Vec<u8>) -> Result<SureDisk, NoMemory>
        ensures seen { IfOk result (λ d. sure_seen d ≡ image.items) }
        ensures only { IfOk result (λ d. Only image.items (sure_images d)) }
        ensures first { IfOk result (λ d. sure_first d ≡ image.items) }
        ensures no_calls { IfOk result (λ d. sure_record d ≡ []) }
    {
        let medium = Medium::new(alloc, image)?;
        Ok(SureDisk { medium })
    }

    /// A disk that holds nothing.
    pub(crate) fn empty(alloc: Global) -> SureDisk
        ensures seen { sure_seen result ≡ [] }
        ensures images { (c : List ℕ) → (sure_images result c → c ≡ []) × (c ≡ [] → sure_images result c) }
        ensures moment { sure_moment result ≡ 0 }
        ensures first { sure_first result ≡ [] }
        ensures no_calls { sure_record result ≡ [] }
    {
        SureDisk {
            medium: Medium::empty(alloc),
        }
    }

    /// Some of its crash images, as those of `MemoryDisk`.
    pub fn images(&self, alloc: Global) -> Result<Vec<Vec<u8>>, NoMemory>
        ensures listed { IfOk result (λ l. contents l.items ≡ listed_images (sure_first self.now) (sure_record self.now)) }
        ensures left { IfOk result (λ l. All (sure_images self.now) (contents l.items)) }
        ensures reads { IfOk result (λ l. Contains (contents l.items) (sure_seen self.now)) }
        ensures settled { (ops : List Op) → sure_record self.now ≡ ops ++ synced true ∷ [] → IfOk result (λ l. contents l.items ≡ sure_seen self.now ∷ []) }
    {
        self.medium.images(alloc)
    }
}

impl Disk for SureDisk {
    ghost use Rattle.std.specs.Prelude.{◌≡◌, ◌≤◌, ◌+◌, [], ◌∷◌, List, ℕ, true, length, take, drop, IfOk, IsOk, OnOk};
    ghost use Rattle.sv_outside.specs.Disk.{Only, Follows, Torn, Cut, Holds, Elapses, IsStill, HasRoom, TakesRoom};
    ghost use Rattle.disk_memory.specs.Calls.Op.{wrote, cut, synced};
    ghost use Rattle.disk_memory.specs.Media.{medium_seen, medium_images, medium_moment, medium_since, medium_room};
    ghost use Rattle.disk_memory.specs.Numbered.{IsNoted};
    ghost use Rattle.disk_memory.specs.Views.{sure_seen, sure_images, sure_moment, sure_since, sure_room};
    ghost use Rattle.disk_memory.specs.MediumLaws.{medium_counts_now, medium_only_now, medium_reads_image};

    ghost told = { true };

    ghost seen = { λ d. medium_seen d.medium };

    ghost may_leave = { λ d. medium_images d.medium };

    ghost moment = { λ d. medium_moment d.medium };

    ghost left_since = { λ d. medium_since d.medium };

    ghost faults = { λ d. 0 };

    ghost room = { λ d. medium_room d.medium };

    fn length(&mut self) -> Result<u64, DiskFailed>
        ensures length { IfOk result (λ n. n ≡ length (sure_seen self.old)) }
        ensures seen { sure_seen self.new ≡ sure_seen self.old }
        ensures still { IsStill (sure_moment self.old) (sure_moment self.new) (sure_since self.old) (sure_since self.new) (sure_images self.old) (sure_images self.new) }
        ensures room { sure_room self.new ≡ sure_room self.old }
        ensures never_fails { IsOk result }
        ensures noted { IsNoted self.old self.new [] }
    {
        Ok(self.medium.bytes.len() as u64)
    }

    fn reserve(&mut self, length: u64, calls: u32, bytes: u64) -> Result<(), NoMemory>
        ensures reserved { OnOk result (HasRoom (sure_room self.new) length calls bytes) }
        ensures more { TakesRoom 0 0 (sure_room self.old) (sure_room self.new) }
        ensures seen { sure_seen self.new ≡ sure_seen self.old }
        ensures still { IsStill (sure_moment self.old) (sure_moment self.new) (sure_since self.old) (sure_since self.new) (sure_images self.old) (sure_images self.new) }
        ensures noted { IsNoted self.old self.new [] }
    {
        self.medium.reserve(length, calls, bytes)
    }

    fn read_at(&mut self, at: u64, into: &mut [u8]) -> Result<(), DiskFailed>
        requires { at + length into.old ≤ length (sure_seen self.old) }
        ensures read { into.new ≡ take (length into.old) (drop at (sure_seen self.old)) }
        ensures seen { sure_seen self.new ≡ sure_seen self.old }
        ensures still { IsStill (sure_moment self.old) (sure_moment self.new) (sure_since self.old) (sure_since self.new) (sure_images self.old) (sure_images self.new) }
        ensures room { sure_room self.new ≡ sure_room self.old }
        ensures never_fails { IsOk result }
        ensures noted { IsNoted self.old self.new [] }
    {
        let at = at as usize;
        let end = at + into.len();
        into.copy_from_slice(&self.medium.bytes[at..end]);
        Ok(())
    }

    fn write_at(&mut self, at: u64, bytes: &[u8]) -> Result<(), DiskFailed>
        requires place { at ≤ length (sure_seen self.old) }
        requires room { HasRoom (sure_room self.old) (at + length bytes.now) 1 (length bytes.now) }
        ensures written { Holds (sure_seen self.old) at bytes.now (sure_seen self.new) }
        ensures crash { Follows (Torn at (length bytes.now)) (sure_images self.old) (sure_images self.new) }
        ensures time { Elapses (sure_moment self.old) (sure_moment self.new) (sure_since self.old) (sure_since self.new) (sure_images self.new) }
        ensures room { TakesRoom 1 (length bytes.now) (sure_room self.old) (sure_room self.new) }
        ensures never_fails { IsOk result }
        ensures noted { IsNoted self.old self.new (wrote at bytes.now true ∷ []) }
    {
        self.medium.write(true, at, bytes);
        Ok(())
    }

    fn cut(&mut self, to: u64) -> Result<(), DiskFailed>
        requires place { to ≤ length (sure_seen self.old) }
        requires room { HasRoom (sure_room self.old) 0 1 0 }
        ensures cut { sure_seen self.new ≡ take to (sure_seen self.old) }
        ensures crash { Follows (Cut to) (sure_images self.old) (sure_images self.new) }
        ensures time { Elapses (sure_moment self.old) (sure_moment self.new) (sure_since self.old) (sure_since self.new) (sure_images self.new) }
        ensures room { TakesRoom 1 0 (sure_room self.old) (sure_room self.new) }
        ensures never_fails { IsOk result }
        ensures noted { IsNoted self.old self.new (cut to true ∷ []) }
    {
        self.medium.cut(true, to);
        Ok(())
    }

    fn sync(&mut self) -> Result<(), DiskFailed>
        requires { HasRoom (sure_room self.old) 0 1 0 }
        ensures durable { Only (sure_seen self.old) (sure_images self.new) }
        ensures seen { sure_seen self.new ≡ sure_seen self.old }
        ensures crash { (c : List ℕ) → sure_images self.new c → sure_images self.old c }
        ensures time { Elapses (sure_moment self.old) (sure_moment self.new) (sure_since self.old) (sure_since self.new) (sure_images self.new) }
        ensures room { TakesRoom 1 0 (sure_room self.old) (sure_room self.new) }
        ensures never_fails { IsOk result }
        ensures noted { IsNoted self.old self.new (synced true ∷ []) }
    {
        self.medium.sync(true);
        Ok(())
    }

    ghost counts_now = { λ d. medium_counts_now d.medium };

    ghost only_now = { λ d. medium_only_now d.medium };

    ghost reads_image = { λ d told. medium_reads_image d.medium };
}
