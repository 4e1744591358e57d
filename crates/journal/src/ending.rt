ghost use Rattle.std.specs.Prelude.{◌≡◌, ◌⊎◌, ◌+◌, ◌<◌, ◌≤◌, ◌^◌, List, ℕ, true, length, drop, OnOk, OnErr, IsErrOf};
ghost use Rattle.sv_outside.specs.Outside.{Rose};
ghost use Rattle.sv_outside.specs.Disk.{Only, LeavesOnly, HasRoom};
ghost use Rattle.journal.specs.declared.fault.OpenFault.TheVariants.{Disk as disk_fault, NoMemory as no_memory};
ghost use Rattle.journal.specs.Endings.{EndsThere, IsCutAt};
ghost use Rattle.journal.specs.Format.{IsClosed};
ghost use Rattle.journal.specs.Scans.{IsInside};

use crate::OpenFault;
use crate::cut::cut_synced;
use crate::scan::Scan;
use crate::synced::write_synced;
use sv_base::DiskFailed;
use sv_outside::Disk;

// Closes a gate that is the last byte, where it is open.
fn close_last<D: Disk>(disk: &mut D, gate: u64) -> Result<(), DiskFailed>
    requires last { D.told ≡ true → gate + 1 ≡ length (D.seen disk.old) }
    requires near { gate < 2 ^ 31 }
    requires durable { Only (D.seen disk.old) (D.may_leave disk.old) }
    requires room { HasRoom (D.room disk.old) (gate + 1) 2 1 }
    ensures any_moment { D.told ≡ true → LeavesOnly D.moment D.left_since disk.old disk.new (EndsThere gate (D.seen disk.old)) }
    ensures cut { D.told ≡ true → OnOk result (IsCutAt gate (D.seen disk.old) (D.seen disk.new)) }
    ensures durable { OnOk result (Only (D.seen disk.new) (D.may_leave disk.new)) }
    ensures failed { OnErr result (Rose (D.faults disk.old) (D.faults disk.new)) }
    ensures not_failed { OnOk result (D.faults disk.new ≡ D.faults disk.old) }
    ensures later { D.faults disk.old ≤ D.faults disk.new }
{
    let mut last = [0];
    disk.read_at(gate, &mut last)?;
    if last[0] != 1 {
        return Ok(());
    }
    write_synced(disk, gate, &[0])
}

/// Cuts away what stands behind a closed gate, and closes an open one that is the last byte.
pub(crate) fn settle<D: Disk>(disk: &mut D, scan: &Scan) -> Result<(), OpenFault>
    requires inside { IsInside scan.now }
    requires size { D.told ≡ true → scan.now.size ≡ length (D.seen disk.old) }
    requires closed { D.told ≡ true → IsClosed (drop scan.now.at (D.seen disk.old)) }
    requires durable { Only (D.seen disk.old) (D.may_leave disk.old) }
    ensures any_moment { D.told ≡ true → LeavesOnly D.moment D.left_since disk.old disk.new (EndsThere scan.now.at (D.seen disk.old)) }
    ensures cut { D.told ≡ true → OnOk result (IsCutAt scan.now.at (D.seen disk.old) (D.seen disk.new)) }
    ensures durable { OnOk result (Only (D.seen disk.new) (D.may_leave disk.new)) }
    ensures failed { IsErrOf result disk_fault → Rose (D.faults disk.old) (D.faults disk.new) }
    ensures refused { OnErr result (IsErrOf result disk_fault ⊎ IsErrOf result no_memory) }
    ensures unchanged { IsErrOf result no_memory → D.seen disk.new ≡ D.seen disk.old }
    ensures undone { IsErrOf result no_memory → Only (D.seen disk.new) (D.may_leave disk.new) }
    ensures later { D.faults disk.old ≤ D.faults disk.new }
{
    let gate = scan.at;
    disk.reserve(gate + 1, 2, 1)?;
    if scan.size > gate + 1 {
        cut_synced(disk, gate + 1)?;
        return Ok(());
    }
    close_last(disk, gate)?;
    Ok(())
}
