ghost use Rattle.std.specs.Prelude.{◌≡◌, ◌≤◌, ◌+◌, ◌++◌, List, ℕ, true, length, OnOk, OnErr};
ghost use Rattle.sv_outside.specs.Outside.{Rose};
ghost use Rattle.sv_outside.specs.Disk.{Only, LeavesOnly};
ghost use Rattle.journal.specs.Format.{Entry, opened, at_rest, Rests, IsBatch, IsBeforeOrAfter};
ghost use Rattle.journal.specs.Gates.{HasReserved};

use crate::synced::write_synced;
use sv_base::DiskFailed;
use sv_outside::Disk;

// Writes records and a closed gate behind them, and then opens the gate before the first.
pub(crate) fn append_at<D: Disk>(disk: &mut D, gate: u64, bytes: &[u8]) -> Result<(), DiskFailed>
    requires place { D.told ≡ true → gate + 1 ≤ length (D.seen disk.old) }
    requires room { HasReserved (D.room disk.old) gate (length bytes.now) }
    ensures any_moment { D.told ≡ true → (header : List ℕ) (entries : List Entry) (batch : List Entry) (now : List ℕ) → IsBatch batch bytes.now → length (header ++ opened entries) ≡ gate → Rests header entries now → Only now (D.may_leave disk.old)
        → LeavesOnly D.moment D.left_since disk.old disk.new (IsBeforeOrAfter header entries batch) }
    ensures appended { D.told ≡ true → (header : List ℕ) (entries : List Entry) (batch : List Entry) (now : List ℕ) → IsBatch batch bytes.now → length (header ++ opened entries) ≡ gate → Rests header entries now → Only now (D.may_leave disk.old)
        → OnOk result (Only (at_rest header (entries ++ batch)) (D.may_leave disk.new)) }
    ensures longer { D.told ≡ true → OnOk result (gate + 1 + length bytes.now ≤ length (D.seen disk.new)) }
    ensures failed { OnErr result (Rose (D.faults disk.old) (D.faults disk.new)) }
    ensures not_failed { OnOk result (D.faults disk.new ≡ D.faults disk.old) }
    ensures later { D.faults disk.old ≤ D.faults disk.new }
{
    write_synced(disk, gate + 1, bytes)?;
    write_synced(disk, gate, &[1])
}
