use crate::fault::{Fault, Spot};
use std::alloc::{AllocError, AllocFailed};
use sv_base::{FaultKind, FrontFault, NoMemory, SourceFault};

/// Why checking goes no further.
#[derive(Clone, Copy, Debug, PartialEq, Eq)]
pub enum Stop {
    Fault(Fault),
    NoMemory,
}

impl From<AllocError> for Stop {
    ghost use Rattle.std.specs.Prelude.{◌≡◌};
    ghost use Rattle.c_faults.specs.declared.stop.Stop.TheVariants as stops;

    ghost from_gives = { λ _ e. e ≡ stops.NoMemory };

    fn from(_error: AllocError) -> Stop {
        Stop::NoMemory
    }
}

impl<T: Drop> From<AllocFailed<T>> for Stop {
    ghost use Rattle.std.specs.Prelude.{◌≡◌};
    ghost use Rattle.c_faults.specs.declared.stop.Stop.TheVariants as stops;

    ghost from_gives = { λ _ e. e ≡ stops.NoMemory };

    fn from(_error: AllocFailed<T>) -> Stop {
        Stop::NoMemory
    }
}

impl From<NoMemory> for Stop {
    ghost use Rattle.std.specs.Prelude.{◌≡◌};
    ghost use Rattle.c_faults.specs.declared.stop.Stop.TheVariants as stops;

    ghost from_gives = { λ _ e. e ≡ stops.NoMemory };

    fn from(_error: NoMemory) -> Stop {
        Stop::NoMemory
    }
}

impl From<Stop> for FrontFault {
    fn from(stop: Stop) -> FrontFault {
        match stop {
            Stop::Fault(fault) => FrontFault::Fault(SourceFault {
                kind: fault.kind,
                place: fault.at.place,
            }),
            Stop::NoMemory => FrontFault::NoMemory,
        }
    }
}

/// Refuses the source at a token.
pub fn refuse<T>(kind: FaultKind, at: Spot) -> Result<T, Stop> {
    Err(Stop::Fault(Fault { kind, at }))
}
