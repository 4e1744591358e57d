ghost use Rattle.std.specs.Prelude.{◌≡◌, ◌≤◌, List, ℕ, true, length, take, OnOk, OnErr};
ghost use Rattle.sv_outside.specs.Outside.{Rose};
ghost use Rattle.sv_outside.specs.Disk.{Only, Cut, LeavesOnly, HasRoom, TakesRoom};

use sv_base::DiskFailed;
use sv_outside::Disk;

/// Cuts, and makes it last.
pub(crate) fn cut_synced<D: Disk>(disk: &mut D, to: u64) -> Result<(), DiskFailed>
    requires place { D.told ≡ true → to ≤ length (D.seen disk.old) }
    requires room { HasRoom (D.room disk.old) 0 2 0 }
    ensures any_moment { D.told ≡ true → (now : List ℕ) → Only now (D.may_leave disk.old) → LeavesOnly D.moment D.left_since disk.old disk.new (Cut to now) }
    ensures cut { D.told ≡ true → OnOk result (D.seen disk.new ≡ take to (D.seen disk.old)) }
    ensures durable { OnOk result (Only (D.seen disk.new) (D.may_leave disk.new)) }
    ensures failed { OnErr result (Rose (D.faults disk.old) (D.faults disk.new)) }
    ensures not_failed { OnOk result (D.faults disk.new ≡ D.faults disk.old) }
    ensures later { D.faults disk.old ≤ D.faults disk.new }
    ensures room { TakesRoom 2 0 (D.room disk.old) (D.room disk.new) }
{
    disk.cut(to)?;
    disk.sync()
}
