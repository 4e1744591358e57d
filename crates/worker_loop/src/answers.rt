ghost use Rattle.std.specs.Prelude.{◌≡◌, ◌<◌, ◌^◌, ℕ, Bool, true, All, IfSome};
ghost use Rattle.tables.specs.Sound.{HasCause};

use tables::{Publish, Stop};

/// Why one of these was not stored, if one was not.
pub(crate) fn stop_of(answers: &[Publish]) -> Option<Stop>
    ensures failed { (failed : Bool) → All (HasCause failed) answers.now → IfSome result (λ stop. stop ≡ Stop.Disk → failed ≡ true) }
    ensures full { (failed : Bool) → All (HasCause failed) answers.now → IfSome result (λ stop. (size : ℕ) → stop ≡ Stop.Full size → 2 ^ 31 < size) }
{
    for answer in answers {
        match answer {
            Publish::Stored | Publish::Lost { .. } => (),
            Publish::Disk => return Some(Stop::Disk),
            Publish::Full { size } => return Some(Stop::Full { size: *size }),
            Publish::NoMemory => return Some(Stop::NoMemory),
        }
    }
    None
}
