ghost use Rattle.std.specs.Prelude.{◌≡◌, ◌≤◌, ◌++◌, ◌∷◌, [], List, ℕ, true, length, OnOk, OnErr};
ghost use Rattle.sv_outside.specs.Outside.{Rose};
ghost use Rattle.sv_outside.specs.Disk.{Only, LeavesOnly, HasRoom, TakesRoom};
ghost use Rattle.journal.specs.declared.digests.Version.TheVariants.{Second as version_2};
ghost use Rattle.journal.specs.Format.{at_rest};
ghost use Rattle.journal.specs.Headers.{name_of, header_of, IsUnfinished};
ghost use Rattle.journal.specs.Lists.{HoldsList};

use crate::Digests;
use crate::synced::write_synced;
use sv_base::DiskFailed;
use sv_outside::Disk;

// A header behind its gate, and the closed gate of the first record.
fn header_bytes(current: &[u8; 32]) -> [u8; 40]
    ensures bytes { result ≡ (name_of version_2 ++ current.now) ++ 0 ∷ [] }
    ensures len { length result ≡ 40 }
{
    let mut bytes = [0; 40];
    bytes[..7].copy_from_slice(b"CGSURV2");
    bytes[7..39].copy_from_slice(current);
    bytes
}

// Writes a header behind a closed gate, over at most one byte.
fn write_header<D: Disk>(disk: &mut D, bytes: &[u8; 40]) -> Result<(), DiskFailed>
    requires place { D.told ≡ true → length (D.seen disk.old) ≤ 1 }
    requires room { HasRoom (D.room disk.old) 41 4 41 }
    ensures any_moment { D.told ≡ true → (now : List ℕ) → Only now (D.may_leave disk.old) → LeavesOnly D.moment D.left_since disk.old disk.new IsUnfinished }
    ensures written { D.told ≡ true → OnOk result (D.seen disk.new ≡ 0 ∷ bytes.now) }
    ensures durable { OnOk result (Only (D.seen disk.new) (D.may_leave disk.new)) }
    ensures failed { OnErr result (Rose (D.faults disk.old) (D.faults disk.new)) }
    ensures not_failed { OnOk result (D.faults disk.new ≡ D.faults disk.old) }
    ensures later { D.faults disk.old ≤ D.faults disk.new }
    ensures room { TakesRoom 4 41 (D.room disk.old) (D.room disk.new) }
{
    write_synced(disk, 0, &[0])?;
    write_synced(disk, 1, bytes)
}

/// Makes a disk that holds at most one byte a journal without records.
pub(crate) fn start_afresh<D: Disk>(disk: &mut D, digests: &Digests) -> Result<(), DiskFailed>
    requires place { D.told ≡ true → length (D.seen disk.old) ≤ 1 }
    requires room { HasRoom (D.room disk.old) 41 6 42 }
    ensures any_moment { D.told ≡ true → (now : List ℕ) → Only now (D.may_leave disk.old) → LeavesOnly D.moment D.left_since disk.old disk.new (HoldsList digests.now []) }
    ensures fresh { D.told ≡ true → OnOk result (D.seen disk.new ≡ at_rest (header_of version_2 digests.now.current) []) }
    ensures size { D.told ≡ true → OnOk result (length (D.seen disk.new) ≡ 41) }
    ensures durable { OnOk result (Only (D.seen disk.new) (D.may_leave disk.new)) }
    ensures failed { OnErr result (Rose (D.faults disk.old) (D.faults disk.new)) }
    ensures not_failed { OnOk result (D.faults disk.new ≡ D.faults disk.old) }
    ensures later { D.faults disk.old ≤ D.faults disk.new }
{
    let bytes = header_bytes(&digests.current);
    write_header(disk, &bytes)?;
    write_synced(disk, 0, &[1])
}
