use journal::OpenFault;
use std::alloc::{AllocError, AllocFailed};
use std::io;
use sv_base::{DiskFailed, NoMemory};

/// Why a run ends early.
#[derive(Debug, Drop)]
pub(crate) enum Trouble {
    /// The words ask for nothing that is known.
    Words,
    /// A journal does not open.
    Open(OpenFault),
    /// A record is not the one that stands there by its number.
    Record { number: u32 },
    /// A journal takes no more.
    Full,
    Disk,
    /// A source has a fault, or memory ran out while it was cut.
    Source,
    /// A file has a word that is no number, or too few or too many of them.
    Form,
    /// A node is out of range.
    Range,
    NoMemory,
    /// The file, the clock or the output failed.
    System,
}

impl From<io::Error> for Trouble {
    fn from(_error: io::Error) -> Trouble {
        Trouble::System
    }
}

impl From<NoMemory> for Trouble {
    fn from(_error: NoMemory) -> Trouble {
        Trouble::NoMemory
    }
}

impl From<AllocError> for Trouble {
    fn from(_error: AllocError) -> Trouble {
        Trouble::NoMemory
    }
}

impl<T: Drop> From<AllocFailed<T>> for Trouble {
    fn from(_error: AllocFailed<T>) -> Trouble {
        Trouble::NoMemory
    }
}

impl From<DiskFailed> for Trouble {
    fn from(_error: DiskFailed) -> Trouble {
        Trouble::Disk
    }
}
