ghost use Rattle.std.specs.Prelude.{◌≡◌, ◌⊎◌, ◌≤◌, [], List, ℕ, Err, true, length, OnOk, OnErr, IfOk, IsErrOf};
ghost use Rattle.sv_outside.specs.Outside.{Rose};
ghost use Rattle.sv_outside.specs.Disk.{Only, LeavesOnly, HasRoom, TakesRoom};
ghost use Rattle.journal.specs.declared.digests.Version.TheVariants.{Second as version_2};
ghost use Rattle.journal.specs.declared.fault.OpenFault.TheVariants.{Disk as disk_fault, NoMemory as no_memory};
ghost use Rattle.journal.specs.Format.{at_rest};
ghost use Rattle.journal.specs.Headers.{header_of, IsUnfinished};
ghost use Rattle.journal.specs.Lists.{HoldsList};
ghost use Rattle.journal.specs.Openings.{Opens, BecomesOpen, LeftByOpening, RefusesContent, IsOpeningAnswer};
ghost use Rattle.journal.specs.Scans.{HasRead, IsInside};

use crate::cut::cut_synced;
use crate::digests::Version;
use crate::fresh::start_afresh;
use crate::header::{Front, read_front};
use crate::scan::Scan;
use crate::{Digests, OpenFault};
use sv_base::DiskFailed;
use sv_outside::Disk;

// Makes an image with an unfinished header a journal without records.
fn finish_header<D: Disk>(disk: &mut D, size: u64, digests: &Digests) -> Result<(), DiskFailed>
    requires size { D.told ≡ true → size ≡ length (D.seen disk.old) }
    requires unfinished { D.told ≡ true → IsUnfinished (D.seen disk.old) }
    requires durable { Only (D.seen disk.old) (D.may_leave disk.old) }
    requires room { HasRoom (D.room disk.old) 41 8 42 }
    ensures any_moment { D.told ≡ true → LeavesOnly D.moment D.left_since disk.old disk.new (HoldsList digests.now []) }
    ensures fresh { D.told ≡ true → OnOk result (D.seen disk.new ≡ at_rest (header_of version_2 digests.now.current) []) }
    ensures size { D.told ≡ true → OnOk result (length (D.seen disk.new) ≡ 41) }
    ensures durable { OnOk result (Only (D.seen disk.new) (D.may_leave disk.new)) }
    ensures failed { OnErr result (Rose (D.faults disk.old) (D.faults disk.new)) }
    ensures not_failed { OnOk result (D.faults disk.new ≡ D.faults disk.old) }
    ensures later { D.faults disk.old ≤ D.faults disk.new }
{
    if size <= 1 {
        return start_afresh(disk, digests);
    }
    cut_synced(disk, 1)?;
    start_afresh(disk, digests)
}

// Makes room, and what reads the one image that a crash leaves.
fn prepare<D: Disk>(disk: &mut D) -> Result<(), OpenFault>
    ensures any_moment { LeavesOnly D.moment D.left_since disk.old disk.new (D.may_leave disk.old) }
    ensures seen { D.seen disk.new ≡ D.seen disk.old }
    ensures durable { OnOk result (Only (D.seen disk.new) (D.may_leave disk.new)) }
    ensures room { OnOk result (HasRoom (D.room disk.new) 41 8 42) }
    ensures failed { IsErrOf result disk_fault → Rose (D.faults disk.old) (D.faults disk.new) }
    ensures refused { OnErr result (IsErrOf result disk_fault ⊎ IsErrOf result no_memory) }
    ensures not_failed { OnOk result (D.faults disk.new ≡ D.faults disk.old) }
    ensures later { D.faults disk.old ≤ D.faults disk.new }
{
    disk.reserve(41, 9, 42)?;
    disk.sync()?;
    Ok(())
}

/// Reads what a disk begins with, and makes it a journal where that is an unfinished header.
pub(crate) fn begin<D: Disk>(disk: &mut D, digests: &Digests) -> Result<Scan, OpenFault>
    ensures opens { D.told ≡ true → Opens digests.now (D.seen disk.old) result }
    ensures begun { D.told ≡ true → IfOk result (λ scan. HasRead digests.now [] scan (D.seen disk.new)) }
    ensures inside { IfOk result IsInside }
    ensures answer { IsOpeningAnswer result }
    ensures becomes { D.told ≡ true → OnOk result (BecomesOpen digests.now (D.seen disk.old) (D.seen disk.new)) }
    ensures durable { OnOk result (Only (D.seen disk.new) (D.may_leave disk.new)) }
    ensures any_moment { D.told ≡ true → LeavesOnly D.moment D.left_since disk.old disk.new (LeftByOpening digests.now (D.seen disk.old) (D.may_leave disk.old)) }
    ensures kept { RefusesContent result → D.seen disk.new ≡ D.seen disk.old }
    ensures failed { IsErrOf result disk_fault → Rose (D.faults disk.old) (D.faults disk.new) }
    ensures later { D.faults disk.old ≤ D.faults disk.new }
{
    prepare(disk)?;
    let (size, front) = read_front(disk, digests)?;
    match front {
        Front::Unfinished => {
            finish_header(disk, size, digests)?;
            Ok(Scan::new(Version::Second, 41, digests))
        }
        Front::Foreign => Err(OpenFault::NotDatabase),
        Front::Other(stored) => Err(OpenFault::OtherSource {
            stored,
            wanted: digests.current,
        }),
        Front::Known(version) => Ok(Scan::new(version, size, digests)),
    }
}
