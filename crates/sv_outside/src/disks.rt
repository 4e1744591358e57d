ghost use Rattle.std.specs.Prelude.{◌≡◌, ◌≢◌, ◌⊎◌, ◌≤◌, List, [], ℕ, Bool, true, OnErr, OnOk, IfOk};
ghost use Rattle.sv_outside.specs.Outside.{Rose, counted};
ghost use Rattle.sv_outside.specs.Disk.{Only};

use crate::Disk;
use sv_base::DiskFailed;

/// Disks by name. What it tells of a name is of the disk that the next `open` of that name gives.
pub trait Disks {
    type D: Disk + Send;

    /// How many calls of `open` have failed.
    ghost faults: { Self → ℕ };

    /// How many calls of `open` there were.
    ghost calls: { Self → ℕ };

    /// The count of faults, and the moment, of the disk of that name.
    ghost faults_of: { Self → List ℕ → ℕ };

    ghost moment_of: { Self → List ℕ → ℕ };

    /// What it reads, and what a crash may leave of it, where its type tells so.
    ghost image_of: { Self → List ℕ → List ℕ };

    ghost may_leave_of: { Self → List ℕ → List ℕ → Type 0 };

    /// The disk of that name. The empty name gives an empty disk in memory.
    fn open(&mut self, name: &str) -> Result<Self::D, DiskFailed>
        ensures faults_of { IfOk result (λ d. Self.D.faults d ≡ faults_of self.old name.now) }
        ensures moment_of { IfOk result (λ d. Self.D.moment d ≡ moment_of self.old name.now) }
        ensures image { Self.D.told ≡ true → IfOk result (λ d. Self.D.seen d ≡ image_of self.old name.now) }
        ensures images { IfOk result (λ d. (c : List ℕ) → (Self.D.may_leave d c → may_leave_of self.old name.now c) × (may_leave_of self.old name.now c → Self.D.may_leave d c)) }
        ensures others { (other : List ℕ) → (other ≢ name.now) ⊎ (other ≡ []) →
            (faults_of self.new other ≡ faults_of self.old other) × (moment_of self.new other ≡ moment_of self.old other)
            × (image_of self.new other ≡ image_of self.old other)
            × ((c : List ℕ) → (may_leave_of self.new other c → may_leave_of self.old other c) × (may_leave_of self.old other c → may_leave_of self.new other c)) }
        ensures failed { OnErr result (Rose (faults self.old) (faults self.new)) }
        ensures not_failed { OnOk result (faults self.new ≡ faults self.old) }
        ensures later { faults self.old ≤ faults self.new }
        ensures counted { calls self.new ≡ counted (calls self.old) };

    /// Under the empty name stands an empty disk.
    ghost empty_name: { (s : Self) → Self.D.told ≡ true → image_of s [] ≡ [] };

    ghost empty_images: { (s : Self) → Only [] (may_leave_of s []) };
}
