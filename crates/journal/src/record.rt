ghost use Rattle.std.specs.Prelude.{◌≡◌, ◌⊎◌, ◌≤◌, ◌<◌, ◌^◌, List, ℕ, true, false, length, drop, OnOk, OnErr, IfOk, IsErrOf};
ghost use Rattle.sv_outside.specs.Outside.{Rose};
ghost use Rattle.sv_outside.specs.Disk.{IsStill};
ghost use Rattle.journal.specs.declared.digests.Digests.{Digests as Digested};
ghost use Rattle.journal.specs.declared.fault.OpenFault.TheVariants.{Disk as disk_fault};
ghost use Rattle.journal.specs.Format.{Entry, IsOpen, IsClosed};
ghost use Rattle.journal.specs.Scans.{HasRead, IsInside};
ghost use Rattle.journal.specs.Steps.{IsRecordAt, IsRecordAnswer, EndsInside, StepsOn, IsStepAnswer, IsOnce, GoesFurther, StopsAtClosed};

use crate::bytes::{read_body, read_numbers};
use crate::scan::{Scan, Step};
use crate::{Kept, OpenFault};
use std::alloc::Global;
use sv_base::DiskFailed;
use sv_outside::Disk;

/// The greatest length of an image in bytes.
pub const LIMIT: u64 = 2147483648;

// Whether the gate is open, and not the last byte.
fn is_open<D: Disk>(disk: &mut D, scan: &Scan) -> Result<bool, DiskFailed>
    requires inside { IsInside scan.now }
    requires size { D.told ≡ true → scan.now.size ≡ length (D.seen disk.old) }
    ensures open { D.told ≡ true → IfOk result (λ b. b ≡ true → IsOpen (drop scan.now.at (D.seen disk.old))) }
    ensures closed { D.told ≡ true → IfOk result (λ b. b ≡ false → IsClosed (drop scan.now.at (D.seen disk.old))) }
    ensures seen { D.seen disk.new ≡ D.seen disk.old }
    ensures still { IsStill (D.moment disk.old) (D.moment disk.new) (D.left_since disk.old) (D.left_since disk.new) (D.may_leave disk.old) (D.may_leave disk.new) }
    ensures failed { OnErr result (Rose (D.faults disk.old) (D.faults disk.new)) }
    ensures not_failed { OnOk result (D.faults disk.new ≡ D.faults disk.old) }
    ensures later { D.faults disk.old ≤ D.faults disk.new }
    ensures room { D.room disk.new ≡ D.room disk.old }
{
    if scan.at + 1 == scan.size {
        return Ok(false);
    }
    let mut gate = [0];
    disk.read_at(scan.at, &mut gate)?;
    Ok(gate[0] == 1)
}

// The record behind an open gate.
fn read_record<D: Disk>(alloc: Global, disk: &mut D, scan: &Scan) -> Result<Kept, OpenFault>
    requires inside { IsInside scan.now }
    requires short { scan.now.size ≤ 2 ^ 31 }
    requires size { D.told ≡ true → scan.now.size ≡ length (D.seen disk.old) }
    requires open { D.told ≡ true → IsOpen (drop scan.now.at (D.seen disk.old)) }
    ensures record { D.told ≡ true → IsRecordAt (D.seen disk.old) scan.now.at result }
    ensures answer { IsRecordAnswer scan.now.at result }
    ensures ends { IfOk result (EndsInside scan.now.size) }
    ensures seen { D.seen disk.new ≡ D.seen disk.old }
    ensures still { IsStill (D.moment disk.old) (D.moment disk.new) (D.left_since disk.old) (D.left_since disk.new) (D.may_leave disk.old) (D.may_leave disk.new) }
    ensures failed { IsErrOf result disk_fault → Rose (D.faults disk.old) (D.faults disk.new) }
    ensures later { D.faults disk.old ≤ D.faults disk.new }
    ensures room { D.room disk.new ≡ D.room disk.old }
{
    let at = scan.at;
    if scan.size - at <= 13 {
        return Err(OpenFault::Damaged { at });
    }
    let numbers = read_numbers(disk, at + 1)?;
    if at + 13 + numbers.length as u64 >= scan.size {
        return Err(OpenFault::Damaged { at });
    }
    let body = read_body(alloc, disk, at + 13, numbers.length)?;
    Ok(Kept {
        round: numbers.round,
        task: numbers.task,
        body,
        at,
    })
}

/// Reads what stands at the next gate, and goes on behind it.
pub(crate) fn step<D: Disk>(alloc: Global, disk: &mut D, scan: &mut Scan) -> Result<Step, OpenFault>
    requires inside { IsInside scan.old }
    requires size { D.told ≡ true → scan.old.size ≡ length (D.seen disk.old) }
    ensures steps { D.told ≡ true → (digests : Digested) (entries : List Entry) → HasRead digests entries scan.old (D.seen disk.old) → StepsOn digests entries scan.old (D.seen disk.old) scan.new result }
    ensures answer { IsStepAnswer result }
    ensures inside { IsInside scan.new }
    ensures same { (scan.new.size ≡ scan.old.size) × (scan.new.version ≡ scan.old.version) }
    ensures refused { OnErr result (scan.new ≡ scan.old) }
    ensures closed { D.told ≡ true → StopsAtClosed scan.old (D.seen disk.old) scan.new result }
    ensures further { GoesFurther scan.old scan.new result }
    ensures once { IsOnce scan.old.versioned scan.new.versioned result }
    ensures seen { D.seen disk.new ≡ D.seen disk.old }
    ensures still { IsStill (D.moment disk.old) (D.moment disk.new) (D.left_since disk.old) (D.left_since disk.new) (D.may_leave disk.old) (D.may_leave disk.new) }
    ensures failed { IsErrOf result disk_fault → Rose (D.faults disk.old) (D.faults disk.new) }
    ensures later { D.faults disk.old ≤ D.faults disk.new }
    ensures room { D.room disk.new ≡ D.room disk.old }
{
    if !is_open(disk, scan)? {
        return Ok(Step::Closed);
    }
    if scan.size > LIMIT {
        return Err(OpenFault::Damaged { at: scan.at });
    }
    match read_record(alloc, disk, scan) {
        Ok(kept) => scan.accept(kept),
        Err(fault) => Err(fault),
    }
}
