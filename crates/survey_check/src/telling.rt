ghost use Rattle.survey.specs.Outcome.{Tells};
ghost use Rattle.survey_check.specs.computed.Endings.{told_text};

use crate::Ending;
use crate::ending::told;
use sv_outside::Sink;

/// Tells how a call ended. What is not taken is lost.
pub fn tell<K: Sink>(ending: &Ending, err: &mut K)
    ensures { Tells (K.taken err.old) (K.taken err.new) (K.faults err.old) (K.faults err.new) (K.refusals err.old) (K.refusals err.new) (told_text ending.now) }
{
    let _ = err.put(told(ending));
}
