ghost use Rattle.std.specs.Prelude.{◌≡◌, ◌<◌, length, IfOk};
ghost use Rattle.sv_base.specs.Faults.{IsListed};
ghost use Rattle.survey.specs.Outcome.{Tells, IsFaultLine, cannot_read_text};
ghost use Rattle.survey.specs.computed.Endings.{complaint_text};

use crate::ending::{Ending, complaint};
use report::fault_text;
use std::alloc::Global;
use sv_base::{FaultKind, Names, NoMemory, Place, SourceFault};
use sv_outside::Sink;

/// The line of a fault of the file of that name as a whole.
pub(crate) fn file_fault_line(
    alloc: Global,
    name: &[u8],
    kind: FaultKind,
) -> Result<Vec<u8>, NoMemory>
    requires { IsListed kind }
    ensures { IfOk result (λ line. IsFaultLine line.items) }
{
    let mut names = Names::new(alloc);
    let Ok(file) = names.number_of(alloc, name) else {
        return Err(NoMemory);
    };
    let fault = SourceFault {
        kind,
        place: Place::of_file(file),
    };
    fault_line(alloc, &names, &fault)
}

/// The line of a fault.
pub(crate) fn fault_line(
    alloc: Global,
    names: &Names,
    fault: &SourceFault,
) -> Result<Vec<u8>, NoMemory>
    requires named { fault.now.place.file.0 < length names.now }
    requires listed { IsListed fault.now.kind }
    ensures { IfOk result (λ line. IsFaultLine line.items) }
{
    let mut text = Vec::new(alloc);
    fault_text(fault, names, &mut text)?;
    Ok(text)
}

#[tactic(auto, unfolding(crate::specs::Outcome::cannot_read_text))]
pub(crate) fn cannot_read_line(alloc: Global, name: &[u8]) -> Result<Vec<u8>, NoMemory>
    ensures { IfOk result (λ text. text.items ≡ cannot_read_text name.now) }
{
    let mut text = Vec::from_slice(alloc, b"surveyor: cannot read ")?;
    text.extend_from_slice(name)?;
    text.extend_from_slice(b"\n")?;
    Ok(text)
}

/// Puts what an ending tells. What is not taken is lost.
pub(crate) fn tell<K: Sink>(ending: &Ending, err: &mut K)
    ensures { Tells (K.taken err.old) (K.taken err.new) (K.faults err.old) (K.faults err.new) (K.refusals err.old) (K.refusals err.new) (complaint_text ending.now) }
{
    let _ = err.put(complaint(ending));
}
