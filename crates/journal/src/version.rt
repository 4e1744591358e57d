ghost use Rattle.std.specs.Prelude.{◌≡◌, ◌⊎◌, ◌↔◌, ◌≤◌, ◌+◌, ◌++◌, ◌∷◌, ◌^◌, [], List, ℕ, true, false, length, OnOk, OnErr, IsErrOf};
ghost use Rattle.sv_outside.specs.Outside.{Rose};
ghost use Rattle.sv_outside.specs.Disk.{Only, LeavesOnly};
ghost use Rattle.journal.specs.declared.digests.Version.TheVariants.{First as version_1};
ghost use Rattle.journal.specs.declared.fault.OpenFault.TheVariants.{Disk as disk_fault, NoMemory as no_memory};
ghost use Rattle.journal.specs.Format.{Entry, opened, at_rest, Rests, IsBatch, IsBeforeOrAfter};
ghost use Rattle.journal.specs.Lists.{version_entry};
ghost use Rattle.journal.specs.Scans.{IsInside};

use crate::OpenFault;
use crate::append::append_at;
use crate::digests::Version;
use crate::piece::numbers;
use crate::record::LIMIT;
use crate::scan::{Scan, VERSION_ROUND, VERSION_TASK};
use sv_outside::Disk;

/// The length of a version record behind its gate, with the gate of the next record.
pub(crate) const VERSION_LENGTH: u64 = 45;

/// Whether a database of version 1 has no version record, and has room for it.
pub(crate) fn wants_version(scan: &Scan) -> bool
    requires { IsInside scan.now }
    ensures { result ≡ true ↔ ((scan.now.version ≡ version_1) × (scan.now.versioned ≡ false) × (scan.now.at + 46 ≤ 2 ^ 31)) }
{
    match scan.version {
        Version::First => !scan.versioned && scan.at + 1 + VERSION_LENGTH <= LIMIT,
        Version::Second => false,
    }
}

// The bytes of a version record behind its gate, and the closed gate of the next record.
fn version_bytes(current: &[u8; 32]) -> [u8; 45]
    ensures bytes { IsBatch (version_entry current.now ∷ []) result }
    ensures len { length result ≡ 45 }
{
    let mut bytes = [0; 45];
    bytes[..12].copy_from_slice(&numbers(VERSION_ROUND, VERSION_TASK, 32));
    bytes[12..44].copy_from_slice(current);
    bytes
}

/// Adds the version record behind the closed gate at the end.
pub(crate) fn add_version<D: Disk>(
    disk: &mut D,
    gate: u64,
    current: &[u8; 32],
) -> Result<(), OpenFault>
    requires place { D.told ≡ true → gate + 1 ≤ length (D.seen disk.old) }
    requires short { gate + 46 ≤ 2 ^ 31 }
    ensures any_moment { D.told ≡ true → (header : List ℕ) (entries : List Entry) (now : List ℕ) → length (header ++ opened entries) ≡ gate → Rests header entries now → Only now (D.may_leave disk.old)
        → LeavesOnly D.moment D.left_since disk.old disk.new (IsBeforeOrAfter header entries (version_entry current.now ∷ [])) }
    ensures appended { D.told ≡ true → (header : List ℕ) (entries : List Entry) (now : List ℕ) → length (header ++ opened entries) ≡ gate → Rests header entries now → Only now (D.may_leave disk.old)
        → OnOk result (Only (at_rest header (entries ++ version_entry current.now ∷ [])) (D.may_leave disk.new)) }
    ensures digest { length current.now ≡ 32 }
    ensures longer { D.told ≡ true → OnOk result (gate + 46 ≤ length (D.seen disk.new)) }
    ensures failed { IsErrOf result disk_fault → Rose (D.faults disk.old) (D.faults disk.new) }
    ensures refused { OnErr result (IsErrOf result disk_fault ⊎ IsErrOf result no_memory) }
    ensures later { D.faults disk.old ≤ D.faults disk.new }
{
    disk.reserve(gate + 1 + VERSION_LENGTH, 4, VERSION_LENGTH + 1)?;
    let bytes = version_bytes(current);
    append_at(disk, gate, &bytes)?;
    Ok(())
}
