ghost use Rattle.std.specs.Prelude.{◌≡◌, ◌+◌, ◌≤◌, List, ℕ, true, length, drop, OnOk, IsErrOf};
ghost use Rattle.sv_outside.specs.Outside.{Rose};
ghost use Rattle.sv_outside.specs.Disk.{Only, IsStill, LeavesOnly};
ghost use Rattle.journal.specs.declared.digests.Digests.{Digests as Digested};
ghost use Rattle.journal.specs.declared.fault.OpenFault.TheVariants.{Disk as disk_fault};
ghost use Rattle.journal.specs.Endings.{LeftByReading};
ghost use Rattle.journal.specs.Format.{Entry, IsClosed};
ghost use Rattle.journal.specs.Scans.{HasRead, IsInside};
ghost use Rattle.journal.specs.Steps.{IsStepAnswer};
ghost use Rattle.journal.specs.Nexts.{ReadsOn, AdvancesTo, UnlessDone, IfEnded, PassesOn};

use crate::ending::settle;
use crate::record::step;
use crate::scan::{Scan, Step};
use crate::{Kept, OpenFault};
use std::alloc::Global;
use sv_outside::Disk;

/// Reads the next record that is no version record, or says that the next gate is closed.
pub(crate) fn read_on<D: Disk>(
    alloc: Global,
    disk: &mut D,
    scan: &mut Scan,
) -> Result<Option<Kept>, OpenFault>
    requires inside { IsInside scan.old }
    requires size { D.told ≡ true → scan.old.size ≡ length (D.seen disk.old) }
    ensures reads { D.told ≡ true → (digests : Digested) (entries : List Entry) → HasRead digests entries scan.old (D.seen disk.old) → ReadsOn digests entries scan.old.version (D.seen disk.old) scan.new result }
    ensures further { PassesOn scan.old scan.new result }
    ensures ended { D.told ≡ true → IfEnded result (IsClosed (drop scan.new.at (D.seen disk.old))) }
    ensures answer { IsStepAnswer result }
    ensures inside { IsInside scan.new }
    ensures same { (scan.new.size ≡ scan.old.size) × (scan.new.version ≡ scan.old.version) }
    ensures seen { D.seen disk.new ≡ D.seen disk.old }
    ensures still { IsStill (D.moment disk.old) (D.moment disk.new) (D.left_since disk.old) (D.left_since disk.new) (D.may_leave disk.old) (D.may_leave disk.new) }
    ensures failed { IsErrOf result disk_fault → Rose (D.faults disk.old) (D.faults disk.new) }
    ensures later { D.faults disk.old ≤ D.faults disk.new }
    ensures room { D.room disk.new ≡ D.room disk.old }
{
    match step(alloc, disk, scan) {
        Ok(Step::Record(kept)) => return Ok(Some(kept)),
        Ok(Step::Closed) => return Ok(None),
        Ok(Step::Version) => (),
        Err(fault) => return Err(fault),
    }
    match step(alloc, disk, scan) {
        Ok(Step::Record(kept)) => Ok(Some(kept)),
        Ok(Step::Closed) => Ok(None),
        Ok(Step::Version) => unreachable!(),
        Err(fault) => Err(fault),
    }
}

/// The same, and mends the end of the image at a closed gate.
pub(crate) fn advance<D: Disk>(
    alloc: Global,
    disk: &mut D,
    scan: &mut Scan,
) -> Result<Option<Kept>, OpenFault>
    requires inside { IsInside scan.old }
    requires size { D.told ≡ true → scan.old.size ≡ length (D.seen disk.old) }
    requires durable { Only (D.seen disk.old) (D.may_leave disk.old) }
    ensures advances { D.told ≡ true → (digests : Digested) (entries : List Entry) → HasRead digests entries scan.old (D.seen disk.old) → AdvancesTo digests entries scan.old.version (D.seen disk.old) scan.new (D.seen disk.new) result }
    ensures any_moment { D.told ≡ true → (digests : Digested) (entries : List Entry) → HasRead digests entries scan.old (D.seen disk.old) → LeavesOnly D.moment D.left_since disk.old disk.new (LeftByReading digests (D.seen disk.old)) }
    ensures durable { OnOk result (Only (D.seen disk.new) (D.may_leave disk.new)) }
    ensures kept { UnlessDone result (D.seen disk.new ≡ D.seen disk.old) }
    ensures as_durable { UnlessDone result (Only (D.seen disk.new) (D.may_leave disk.new)) }
    ensures answer { IsStepAnswer result }
    ensures inside { IsInside scan.new }
    ensures same { (scan.new.size ≡ scan.old.size) × (scan.new.version ≡ scan.old.version) }
    ensures further { PassesOn scan.old scan.new result }
    ensures place { D.told ≡ true → IfEnded result (scan.new.at + 1 ≤ length (D.seen disk.new)) }
    ensures failed { IsErrOf result disk_fault → Rose (D.faults disk.old) (D.faults disk.new) }
    ensures later { D.faults disk.old ≤ D.faults disk.new }
{
    match read_on(alloc, disk, scan) {
        Ok(Some(kept)) => Ok(Some(kept)),
        Ok(None) => match settle(disk, scan) {
            Ok(()) => Ok(None),
            Err(fault) => Err(fault),
        },
        Err(fault) => Err(fault),
    }
}
