use crate::errors::NoMemory;
use crate::place::Place;
use std::alloc::{AllocError, AllocFailed};

/// Why a source is refused: the phase, and in most phases a code. `faults` names the
/// codes, and `docs/FORMATS.md` has their texts.
#[derive(Clone, Copy, Debug, PartialEq, Eq)]
pub enum FaultKind {
    Lex,
    Syntax,
    Unsupported(u16),
    Typing(u16),
    Link(u16),
    Limit(u16),
}

/// Why a source is refused, and where.
#[derive(Clone, Copy, Debug, PartialEq, Eq)]
pub struct SourceFault {
    pub kind: FaultKind,
    pub place: Place,
}

/// What a phase of the front end answers in place of its result.
#[derive(Clone, Copy, Debug, PartialEq, Eq)]
pub enum FrontFault {
    /// The source is refused.
    Fault(SourceFault),
    NoMemory,
}

impl From<NoMemory> for FrontFault {
    ghost use Rattle.std.specs.Prelude.{◌≡◌};
    ghost use Rattle.sv_base.specs.declared.fault.FrontFault.TheVariants as faults;

    ghost from_gives = { λ _ e. e ≡ faults.NoMemory };

    fn from(_error: NoMemory) -> FrontFault {
        FrontFault::NoMemory
    }
}

impl From<AllocError> for FrontFault {
    ghost use Rattle.std.specs.Prelude.{◌≡◌};
    ghost use Rattle.sv_base.specs.declared.fault.FrontFault.TheVariants as faults;

    ghost from_gives = { λ _ e. e ≡ faults.NoMemory };

    fn from(_error: AllocError) -> FrontFault {
        FrontFault::NoMemory
    }
}

impl<T: Drop> From<AllocFailed<T>> for FrontFault {
    ghost use Rattle.std.specs.Prelude.{◌≡◌};
    ghost use Rattle.sv_base.specs.declared.fault.FrontFault.TheVariants as faults;

    ghost from_gives = { λ _ e. e ≡ faults.NoMemory };

    fn from(_error: AllocFailed<T>) -> FrontFault {
        FrontFault::NoMemory
    }
}
