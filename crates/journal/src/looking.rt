ghost use Rattle.std.specs.Prelude.{◌≡◌, ◌≤◌, ℕ, [], true, length, map, IfOk, IsErrOf};
ghost use Rattle.sv_outside.specs.Outside.{Rose};
ghost use Rattle.sv_outside.specs.Disk.{IsStill};
ghost use Rattle.journal.specs.declared.digests.Digests.{Digests as Digested};
ghost use Rattle.journal.specs.declared.fault.OpenFault.TheVariants.{Disk as disk_fault};
ghost use Rattle.journal.specs.Looks.{ReadsAll, Looks};
ghost use Rattle.journal.specs.Scans.{HasRead, IsInside};
ghost use Rattle.journal.specs.Steps.{IsStepAnswer};

use crate::first_bodies::FirstBodies;
use crate::header::{Front, read_front};
use crate::reading::read_on;
use crate::scan::Scan;
use crate::{Digests, Kept, OpenFault};
use std::alloc::Global;
use sv_outside::Disk;

// The records up to the first closed gate.
fn read_records<D: Disk>(alloc: Global, disk: &mut D, scan: Scan) -> Result<Vec<Kept>, OpenFault>
    requires inside { IsInside scan }
    requires size { D.told ≡ true → scan.size ≡ length (D.seen disk.old) }
    ensures reads { D.told ≡ true → (digests : Digested) → HasRead digests [] scan (D.seen disk.old) → ReadsAll digests scan.version (D.seen disk.old) result }
    ensures answer { IsStepAnswer result }
    ensures seen { D.seen disk.new ≡ D.seen disk.old }
    ensures still { IsStill (D.moment disk.old) (D.moment disk.new) (D.left_since disk.old) (D.left_since disk.new) (D.may_leave disk.old) (D.may_leave disk.new) }
    ensures failed { IsErrOf result disk_fault → Rose (D.faults disk.old) (D.faults disk.new) }
    ensures later { D.faults disk.old ≤ D.faults disk.new }
    ensures room { D.room disk.new ≡ D.room disk.old }
{
    let mut scan = scan;
    let mut bodies = FirstBodies::new(alloc);
    loop {
        match read_on(alloc, disk, &mut scan) {
            Ok(Some(kept)) => bodies.add(alloc, kept)?,
            Ok(None) => return Ok(bodies.into_records()),
            Err(fault) => return Err(fault),
        }
    }
}

/// The records of a disk up to its first closed gate, in order, without version records; none where the header was not
/// finished. It writes nothing. A record whose body is the byte 6 is given with the body that is given for the first
/// record before it of the same task in the round before, where there is one.
pub fn look<D: Disk>(alloc: Global, disk: &mut D, digests: &Digests) -> Result<Vec<Kept>, OpenFault>
    ensures looks { D.told ≡ true → Looks digests.now (D.seen disk.old) result }
    ensures seen { D.seen disk.new ≡ D.seen disk.old }
    ensures still { IsStill (D.moment disk.old) (D.moment disk.new) (D.left_since disk.old) (D.left_since disk.new) (D.may_leave disk.old) (D.may_leave disk.new) }
    ensures failed { IsErrOf result disk_fault → Rose (D.faults disk.old) (D.faults disk.new) }
    ensures later { D.faults disk.old ≤ D.faults disk.new }
    ensures room { D.room disk.new ≡ D.room disk.old }
{
    let (size, front) = read_front(disk, digests)?;
    match front {
        Front::Unfinished => Ok(Vec::new(alloc)),
        Front::Foreign => Err(OpenFault::NotDatabase),
        Front::Other(stored) => Err(OpenFault::OtherSource {
            stored,
            wanted: digests.current,
        }),
        Front::Known(version) => { read_records(alloc, disk, Scan::new(version, size, digests)) }
    }
}
