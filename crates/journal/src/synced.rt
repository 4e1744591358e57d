ghost use Rattle.std.specs.Prelude.{◌≡◌, ◌≤◌, ◌+◌, List, ℕ, true, length, OnOk, OnErr};
ghost use Rattle.sv_outside.specs.Outside.{Rose};
ghost use Rattle.sv_outside.specs.Disk.{Only, Torn, Holds, LeavesOnly, HasRoom, TakesRoom};

use sv_base::DiskFailed;
use sv_outside::Disk;

/// Writes, and makes it last.
pub(crate) fn write_synced<D: Disk>(disk: &mut D, at: u64, bytes: &[u8]) -> Result<(), DiskFailed>
    requires place { D.told ≡ true → at ≤ length (D.seen disk.old) }
    requires room { HasRoom (D.room disk.old) (at + length bytes.now) 2 (length bytes.now) }
    ensures any_moment { D.told ≡ true → (now : List ℕ) → Only now (D.may_leave disk.old) → LeavesOnly D.moment D.left_since disk.old disk.new (Torn at (length bytes.now) now) }
    ensures written { D.told ≡ true → OnOk result (Holds (D.seen disk.old) at bytes.now (D.seen disk.new)) }
    ensures durable { OnOk result (Only (D.seen disk.new) (D.may_leave disk.new)) }
    ensures failed { OnErr result (Rose (D.faults disk.old) (D.faults disk.new)) }
    ensures not_failed { OnOk result (D.faults disk.new ≡ D.faults disk.old) }
    ensures later { D.faults disk.old ≤ D.faults disk.new }
    ensures room { TakesRoom 2 (length bytes.now) (D.room disk.old) (D.room disk.new) }
{
    disk.write_at(at, bytes)?;
    disk.sync()
}
