ghost use Rattle.std.specs.Prelude.{◌≡◌, ◌≤◌, ◌+◌, ◌++◌, ◌^◌, ◌⊎◌, true, length, take, drop, vec_len, OnOk, OnErr, IfOk, IsErrOf};
ghost use Rattle.byteorder.specs.Endian.{big_bytes};
ghost use Rattle.sv_outside.specs.Outside.{Rose};
ghost use Rattle.sv_outside.specs.Disk.{IsStill};
ghost use Rattle.journal.specs.declared.fault.OpenFault.TheVariants.{Disk as disk_fault, NoMemory as no_memory};

use crate::OpenFault;
use byteorder::{BigEndian, ByteOrder};
use std::alloc::Global;
use sv_base::DiskFailed;
use sv_outside::Disk;

/// The most bytes that a call of the disk reads.
const PAGE: usize = 65536;

/// What stands before the body of a record.
#[derive(Clone, Copy)]
pub(crate) struct Numbers {
    pub(crate) round: u32,
    pub(crate) task: u32,
    pub(crate) length: u32,
}

fn numbers_in(bytes: &[u8; 12]) -> Numbers
    ensures { big_bytes 4 result.round ++ big_bytes 4 result.task ++ big_bytes 4 result.length ≡ bytes.now }
{
    Numbers {
        round: BigEndian::read_u32(&bytes[..4]),
        task: BigEndian::read_u32(&bytes[4..8]),
        length: BigEndian::read_u32(&bytes[8..]),
    }
}

/// The numbers that stand there.
pub(crate) fn read_numbers<D: Disk>(disk: &mut D, at: u64) -> Result<Numbers, DiskFailed>
    requires { D.told ≡ true → at + 12 ≤ length (D.seen disk.old) }
    ensures numbers { D.told ≡ true → IfOk result (λ n. big_bytes 4 n.round ++ big_bytes 4 n.task ++ big_bytes 4 n.length ≡ take 12 (drop at (D.seen disk.old))) }
    ensures seen { D.seen disk.new ≡ D.seen disk.old }
    ensures still { IsStill (D.moment disk.old) (D.moment disk.new) (D.left_since disk.old) (D.left_since disk.new) (D.may_leave disk.old) (D.may_leave disk.new) }
    ensures failed { OnErr result (Rose (D.faults disk.old) (D.faults disk.new)) }
    ensures not_failed { OnOk result (D.faults disk.new ≡ D.faults disk.old) }
    ensures later { D.faults disk.old ≤ D.faults disk.new }
    ensures room { D.room disk.new ≡ D.room disk.old }
{
    let mut bytes = [0; 12];
    disk.read_at(at, &mut bytes)?;
    Ok(numbers_in(&bytes))
}

// Fills the buffer from that offset on, a page at a time.
fn read_pages<D: Disk>(disk: &mut D, at: u64, into: &mut [u8]) -> Result<(), DiskFailed>
    requires place { D.told ≡ true → at + length into.old ≤ length (D.seen disk.old) }
    requires near { at + length into.old ≤ 2 ^ 33 }
    ensures read { D.told ≡ true → OnOk result (into.new ≡ take (length into.old) (drop at (D.seen disk.old))) }
    ensures seen { D.seen disk.new ≡ D.seen disk.old }
    ensures still { IsStill (D.moment disk.old) (D.moment disk.new) (D.left_since disk.old) (D.left_since disk.new) (D.may_leave disk.old) (D.may_leave disk.new) }
    ensures failed { OnErr result (Rose (D.faults disk.old) (D.faults disk.new)) }
    ensures not_failed { OnOk result (D.faults disk.new ≡ D.faults disk.old) }
    ensures later { D.faults disk.old ≤ D.faults disk.new }
    ensures room { D.room disk.new ≡ D.room disk.old }
{
    let mut done = 0;
    while done < into.len() {
        let end = into.len().min(done + PAGE);
        disk.read_at(at + done as u64, &mut into[done..end])?;
        done = end;
    }
    Ok(())
}

/// The bytes that stand there.
pub(crate) fn read_body<D: Disk>(
    alloc: Global,
    disk: &mut D,
    at: u64,
    size: u32,
) -> Result<Vec<u8>, OpenFault>
    requires place { D.told ≡ true → at + size ≤ length (D.seen disk.old) }
    requires near { at ≤ 2 ^ 32 }
    ensures body { D.told ≡ true → IfOk result (λ v. v.items ≡ take size (drop at (D.seen disk.old))) }
    ensures size { IfOk result (λ v. vec_len v ≡ size) }
    ensures seen { D.seen disk.new ≡ D.seen disk.old }
    ensures still { IsStill (D.moment disk.old) (D.moment disk.new) (D.left_since disk.old) (D.left_since disk.new) (D.may_leave disk.old) (D.may_leave disk.new) }
    ensures failed { IsErrOf result disk_fault → Rose (D.faults disk.old) (D.faults disk.new) }
    ensures refused { OnErr result (IsErrOf result disk_fault ⊎ IsErrOf result no_memory) }
    ensures not_failed { OnOk result (D.faults disk.new ≡ D.faults disk.old) }
    ensures later { D.faults disk.old ≤ D.faults disk.new }
    ensures room { D.room disk.new ≡ D.room disk.old }
{
    let mut body = vec![in alloc; 0; size as usize]?;
    read_pages(disk, at, &mut body)?;
    Ok(body)
}
