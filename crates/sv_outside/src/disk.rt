ghost use Rattle.std.specs.Prelude.{◌≡◌, ◌≤◌, ◌+◌, List, ℕ, Bool, true, length, take, drop, OnOk, OnErr, IfOk};
ghost use Rattle.sv_outside.specs.Outside.{Rose};
ghost use Rattle.sv_outside.specs.Disk.{Only, Follows, Torn, Cut, Holds, Elapses, IsStill, Room, HasRoom, TakesRoom};

use sv_base::{DiskFailed, NoMemory};

/// One file of bytes, which a crash may leave otherwise than it reads. Offsets and lengths are in bytes. A call that
/// answers `DiskFailed` was counted.
pub trait Disk: Drop {
    /// Whether disks of this type tell what they hold. Clauses on content hold where they do.
    ghost told: { Bool };

    /// The bytes that a read gives.
    ghost seen: { Self → List ℕ };

    /// What a crash at this moment may leave.
    ghost may_leave: { Self → List ℕ → Type 0 };

    /// The moment, as a number that doesn't fall.
    ghost moment: { Self → ℕ };

    /// What a crash at some moment from that one on might have left.
    ghost left_since: { Self → ℕ → List ℕ → Type 0 };

    /// How often the disk has failed.
    ghost faults: { Self → ℕ };

    ghost room: { Self → Room };

    fn length(&mut self) -> Result<u64, DiskFailed>
        ensures length { IfOk result (λ n. told ≡ true → n ≡ length (seen self.old)) }
        ensures seen { seen self.new ≡ seen self.old }
        ensures still { IsStill (moment self.old) (moment self.new) (left_since self.old) (left_since self.new) (may_leave self.old) (may_leave self.new) }
        ensures failed { OnErr result (Rose (faults self.old) (faults self.new)) }
        ensures not_failed { OnOk result (faults self.new ≡ faults self.old) }
        ensures later { faults self.old ≤ faults self.new }
        ensures room { room self.new ≡ room self.old };

    /// Makes room for a length, and for so many further calls that write so many bytes together. A refusal leaves what
    /// the disk holds as it was, with no less room.
    fn reserve(&mut self, length: u64, calls: u32, bytes: u64) -> Result<(), NoMemory>
        ensures reserved { OnOk result (HasRoom (room self.new) length calls bytes) }
        ensures more { TakesRoom 0 0 (room self.old) (room self.new) }
        ensures seen { seen self.new ≡ seen self.old }
        ensures still { IsStill (moment self.old) (moment self.new) (left_since self.old) (left_since self.new) (may_leave self.old) (may_leave self.new) }
        ensures faults { faults self.new ≡ faults self.old };

    /// Fills the buffer from that offset on. After a refusal its bytes are unknown.
    fn read_at(&mut self, at: u64, into: &mut [u8]) -> Result<(), DiskFailed>
        requires { told ≡ true → at + length into.old ≤ length (seen self.old) }
        ensures read { told ≡ true → OnOk result (into.new ≡ take (length into.old) (drop at (seen self.old))) }
        ensures seen { seen self.new ≡ seen self.old }
        ensures still { IsStill (moment self.old) (moment self.new) (left_since self.old) (left_since self.new) (may_leave self.old) (may_leave self.new) }
        ensures failed { OnErr result (Rose (faults self.old) (faults self.new)) }
        ensures not_failed { OnOk result (faults self.new ≡ faults self.old) }
        ensures later { faults self.old ≤ faults self.new }
        ensures room { room self.new ≡ room self.old };

    /// Writes over what is there, and past the end. Until a sync a crash may leave any bytes in the range.
    fn write_at(&mut self, at: u64, bytes: &[u8]) -> Result<(), DiskFailed>
        requires place { told ≡ true → at ≤ length (seen self.old) }
        requires room { HasRoom (room self.old) (at + length bytes.now) 1 (length bytes.now) }
        ensures written { told ≡ true → OnOk result (Holds (seen self.old) at bytes.now (seen self.new)) }
        ensures torn { told ≡ true → OnErr result (Torn at (length bytes.now) (seen self.old) (seen self.new)) }
        ensures crash { Follows (Torn at (length bytes.now)) (may_leave self.old) (may_leave self.new) }
        ensures time { Elapses (moment self.old) (moment self.new) (left_since self.old) (left_since self.new) (may_leave self.new) }
        ensures failed { OnErr result (Rose (faults self.old) (faults self.new)) }
        ensures not_failed { OnOk result (faults self.new ≡ faults self.old) }
        ensures later { faults self.old ≤ faults self.new }
        ensures room { TakesRoom 1 (length bytes.now) (room self.old) (room self.new) };

    /// Makes the file no longer than that. Until a sync a crash may leave any length between, and any bytes past it.
    fn cut(&mut self, to: u64) -> Result<(), DiskFailed>
        requires place { told ≡ true → to ≤ length (seen self.old) }
        requires room { HasRoom (room self.old) 0 1 0 }
        ensures cut { told ≡ true → OnOk result (seen self.new ≡ take to (seen self.old)) }
        ensures torn { told ≡ true → OnErr result (Cut to (seen self.old) (seen self.new)) }
        ensures crash { Follows (Cut to) (may_leave self.old) (may_leave self.new) }
        ensures time { Elapses (moment self.old) (moment self.new) (left_since self.old) (left_since self.new) (may_leave self.new) }
        ensures failed { OnErr result (Rose (faults self.old) (faults self.new)) }
        ensures not_failed { OnOk result (faults self.new ≡ faults self.old) }
        ensures later { faults self.old ≤ faults self.new }
        ensures room { TakesRoom 1 0 (room self.old) (room self.new) };

    /// After it a crash leaves what reads.
    fn sync(&mut self) -> Result<(), DiskFailed>
        requires { HasRoom (room self.old) 0 1 0 }
        ensures durable { OnOk result (Only (seen self.old) (may_leave self.new)) }
        ensures seen { seen self.new ≡ seen self.old }
        ensures crash { (c : List ℕ) → may_leave self.new c → may_leave self.old c }
        ensures time { Elapses (moment self.old) (moment self.new) (left_since self.old) (left_since self.new) (may_leave self.new) }
        ensures failed { OnErr result (Rose (faults self.old) (faults self.new)) }
        ensures not_failed { OnOk result (faults self.new ≡ faults self.old) }
        ensures later { faults self.old ≤ faults self.new }
        ensures room { TakesRoom 1 0 (room self.old) (room self.new) };

    /// This moment is one of those since an earlier one.
    ghost counts_now: { (d : Self) (t : ℕ) (c : List ℕ) → t ≤ moment d → may_leave d c → left_since d t c };

    /// Since this moment there is no other.
    ghost only_now: { (d : Self) (c : List ℕ) → left_since d (moment d) c → may_leave d c };

    /// What reads is one of the images.
    ghost reads_image: { (d : Self) → told ≡ true → may_leave d (seen d) };
}
