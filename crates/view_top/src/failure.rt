ghost use Rattle.std.specs.Prelude.{◌≡◌};
ghost use Rattle.view_top.specs.Statuses.{failure_status, IsRefused};

use std::alloc::{AllocError, AllocFailed};
use sv_base::NoMemory;

/// Why there is nothing to put.
#[derive(Drop)]
pub(crate) enum Failure {
    /// The report or the notes are not what they are to be, with the line that says so.
    Bad(Vec<u8>),
    /// A report or the notes cannot be read, with the line that says so.
    CannotRead(Vec<u8>),
    NoMemory,
}

impl From<AllocError> for Failure {
    fn from(_error: AllocError) -> Failure {
        Failure::NoMemory
    }
}

impl<T: Drop> From<AllocFailed<T>> for Failure {
    fn from(_error: AllocFailed<T>) -> Failure {
        Failure::NoMemory
    }
}

impl From<NoMemory> for Failure {
    fn from(_error: NoMemory) -> Failure {
        Failure::NoMemory
    }
}

/// The exit status of a failure.
pub(crate) fn failure_status(failure: &Failure) -> u8
    ensures status { result ≡ failure_status failure.now }
    ensures refused { IsRefused result }
{
    match failure {
        Failure::Bad(_) => 2,
        Failure::CannotRead(_) => 4,
        Failure::NoMemory => 8,
    }
}

/// What a failure tells.
pub(crate) fn complaint(failure: &Failure) -> &[u8] {
    match failure {
        Failure::Bad(line) | Failure::CannotRead(line) => line.as_slice(),
        Failure::NoMemory => NO_MEMORY,
    }
}

pub(crate) const USAGE: &[u8] = b"\
usage: surveyor-view lines [--notes FILE] [--sources DIR] REPORT
       surveyor-view sarif [--notes FILE] [--sources DIR] REPORT
       surveyor-view html [--notes FILE] [--sources DIR] REPORT [FILE..]
       surveyor-view diff [--notes FILE] [--sources DIR] [--old-sources DIR] OLD NEW
";

pub(crate) const NOT_WRITTEN: &[u8] = b"surveyor-view: cannot write\n";

pub(crate) const NO_MEMORY: &[u8] = b"surveyor-view: no memory\n";
