ghost use Rattle.std.specs.Prelude.{◌≡◌, ◌≢◌, ◌≤◌, List, ℕ, Some, true, length, take, drop, slice_index, IfOk, OnErr, OnOk, MatchOption};
ghost use Rattle.sv_outside.specs.Outside.{Rose};
ghost use Rattle.sv_outside.specs.Disk.{IsStill};
ghost use Rattle.journal.specs.declared.digests.Version.{Version as Named};
ghost use Rattle.journal.specs.Headers.{name_of, header_of, digest_for, BeginsWith, KnownIsLong};

use crate::Digests;
use crate::digests::Version;
use sv_base::DiskFailed;
use sv_outside::Disk;

/// What an image begins with.
#[derive(Clone, Copy)]
pub(crate) enum Front {
    /// A header that was not finished.
    Unfinished,
    /// No header.
    Foreign,
    /// A header with another digest than its version has to have.
    Other([u8; 32]),
    /// A header that is accepted.
    Known(Version),
}

// The version that these bytes name.
fn version_of(name: &[u8]) -> Option<Version>
    ensures { MatchOption result ((v : Named) → name.now ≢ name_of v) (λ v. name.now ≡ name_of v) }
{
    if name == b"CGSURV1".as_slice() {
        return Some(Version::First);
    }
    if name == b"CGSURV2".as_slice() {
        return Some(Version::Second);
    }
    None
}

// Whether a database of a version may have this digest.
fn is_accepted(digests: &Digests, version: Version, stored: &[u8; 32]) -> bool
    ensures accepted { result ≡ true → digest_for digests.now version ≡ Some stored.now }
    ensures refused { digest_for digests.now version ≡ Some stored.now → result ≡ true }
{
    match version {
        Version::First => match digests.old {
            Some(old) => old == *stored,
            None => false,
        },
        Version::Second => digests.current == *stored,
    }
}

fn digest_in(header: &[u8; 40]) -> [u8; 32]
    ensures { result ≡ drop 8 header.now }
{
    let mut digest = [0; 32];
    digest.copy_from_slice(&header[8..]);
    digest
}

// What an image of at least 41 bytes begins with.
fn judge(size: u64, header: &[u8; 40], digests: &Digests) -> Front
    requires { 41 ≤ size }
    ensures { (image : List ℕ) → length image ≡ size → take 40 image ≡ header.now → BeginsWith digests.now image result }
{
    if header[0] != 1 {
        return if size == 41 {
            Front::Unfinished
        } else {
            Front::Foreign
        };
    }
    let stored = digest_in(header);
    match version_of(&header[1..8]) {
        None => Front::Foreign,
        Some(version) => {
            if is_accepted(digests, version, &stored) {
                Front::Known(version)
            } else {
                Front::Other(stored)
            }
        }
    }
}

/// The length of what a disk holds, and what it begins with.
pub(crate) fn read_front<D: Disk>(
    disk: &mut D,
    digests: &Digests,
) -> Result<(u64, Front), DiskFailed>
    ensures length { D.told ≡ true → IfOk result (λ r. r.0 ≡ length (D.seen disk.old)) }
    ensures long { IfOk result (λ r. KnownIsLong r.0 r.1) }
    ensures front { D.told ≡ true → IfOk result (λ r. BeginsWith digests.now (D.seen disk.old) r.1) }
    ensures seen { D.seen disk.new ≡ D.seen disk.old }
    ensures still { IsStill (D.moment disk.old) (D.moment disk.new) (D.left_since disk.old) (D.left_since disk.new) (D.may_leave disk.old) (D.may_leave disk.new) }
    ensures failed { OnErr result (Rose (D.faults disk.old) (D.faults disk.new)) }
    ensures not_failed { OnOk result (D.faults disk.new ≡ D.faults disk.old) }
    ensures later { D.faults disk.old ≤ D.faults disk.new }
    ensures room { D.room disk.new ≡ D.room disk.old }
{
    let length = disk.length()?;
    if length <= 1 {
        return Ok((length, Front::Unfinished));
    }
    if length <= 40 {
        let mut first = [0];
        disk.read_at(0, &mut first)?;
        return Ok(if first[0] == 1 {
            (length, Front::Foreign)
        } else {
            (length, Front::Unfinished)
        });
    }
    let mut header = [0; 40];
    disk.read_at(0, &mut header)?;
    Ok((length, judge(length, &header, digests)))
}
