ghost use Rattle.std.specs.Prelude.{◌≡◌, ◌≢◌, ◌≤◌, ◌⊎◌, [], Some, None};
ghost use Rattle.sv_outside.specs.Outside.{Rose};
ghost use Rattle.survey.specs.Words.{texts};
ghost use Rattle.survey.specs.Outcome.{IsReported, Tells};
ghost use Rattle.survey_check.specs.Words.{trial_of};
ghost use Rattle.survey_check.specs.Outcome.{IsTrial, Totals, Puts, PutsFront, Opens, HasFault, NothingUnread, Complains};
ghost use Rattle.survey_check.specs.computed.Endings.{making, Ends};

use crate::ending::status_of;
use crate::request::{Trial, trial_of};
use crate::telling::tell;
use crate::top::check_alone;
use crate::{Ended, Ending};
use c_front::SourceFile;
use cli_words::WordsFault;
use source_maker::make;
use std::alloc::Global;
use survey::Asked;
use sv_base::NoMemory;
use sv_outside::{Disks, Sink};

// The file of a trial.
fn trial_files(alloc: Global, trial: Trial) -> Result<Vec<SourceFile>, NoMemory> {
    let mut files = Vec::new(alloc);
    files.push(SourceFile {
        name: String::from_str(alloc, "trial.c")?,
        bytes: make(alloc, trial.number, trial.functions)?,
    })?;
    Ok(files)
}

// What a trial asks for.
fn trial_asked(alloc: Global) -> Result<Asked, NoMemory> {
    Ok(Asked {
        entry: String::from_str(alloc, "main")?,
        rounds: 24,
        files: Vec::new(alloc),
    })
}

// Makes the source of a trial and checks it, and puts its totals.
fn trial_made<K: Sink, M: Disks>(
    alloc: Global,
    trial: Trial,
    out: &mut K,
    disks: &mut M,
) -> (Option<M::D>, Ending)
    ensures ends { Ends result.1 (IsTrial trial.number trial.functions) NothingUnread (Some (making trial)) (K.taken out.old) (K.taken out.new)
        (record { unread_before = 0; unread_now = 0; puts_before = K.faults out.old; puts_now = K.faults out.new; opens_before = M.calls disks.old; opens_now = M.calls disks.new; unopened_before = M.faults disks.old; unopened_now = M.faults disks.new }) }
    ensures failed { result.1 ≡ Ending.DiskFailed → Rose (M.faults disks.old) (M.faults disks.new)
        ⊎ HasFault M.D.faults (M.faults_of disks.old []) result.0 }
{
    let (Ok(files), Ok(asked)) = (trial_files(alloc, trial), trial_asked(alloc)) else {
        return (None, Ending::Plain(survey::Ending::NoMemory));
    };
    check_alone(alloc, &asked, "", &files, Some(trial), out, disks)
}

// Does what the words of a trial ask for.
fn trial_words<K: Sink, M: Disks>(
    alloc: Global,
    words: &[String],
    out: &mut K,
    disks: &mut M,
) -> (Option<M::D>, Ending)
    ensures ends { Ends result.1 (Totals (trial_of (texts words.now))) NothingUnread (trial_of (texts words.now)) (K.taken out.old) (K.taken out.new)
        (record { unread_before = 0; unread_now = 0; puts_before = K.faults out.old; puts_now = K.faults out.new; opens_before = M.calls disks.old; opens_now = M.calls disks.new; unopened_before = M.faults disks.old; unopened_now = M.faults disks.new }) }
    ensures failed { result.1 ≡ Ending.DiskFailed → Rose (M.faults disks.old) (M.faults disks.new)
        ⊎ HasFault M.D.faults (M.faults_of disks.old []) result.0 }
{
    let trial = match trial_of(alloc, words) {
        Ok(trial) => trial,
        Err(WordsFault::Bad) => return (None, Ending::Plain(survey::Ending::Usage)),
        Err(WordsFault::NoMemory) => return (None, Ending::Plain(survey::Ending::NoMemory)),
    };
    trial_made(alloc, trial, out, disks)
}

/// Checks a source that is made of the numbers in the words, on one thread: the command `trial`. It puts the totals.
pub fn survey_trial<K: Sink, M: Disks>(
    alloc: Global,
    words: &[String],
    out: &mut K,
    err: &mut K,
    disks: &mut M,
) -> Ended<M::D>
    ensures statuses { result.status ≤ 9 }

    // With status 0 or 1 the sink gained the totals of the source, with status 7 its first bytes, with every other status nothing.
    ensures report { IsReported result.status → Puts (Totals (trial_of (texts words.now))) (K.taken out.old) (K.taken out.new) result.status }
    ensures cut_off { result.status ≡ 7 → PutsFront (Totals (trial_of (texts words.now))) (K.taken out.old) (K.taken out.new) }
    ensures untouched { result.status ≢ 0 → result.status ≢ 1 → result.status ≢ 7 → K.taken out.new ≡ K.taken out.old }

    // Status 2 comes exactly where the words are not accepted, unless memory runs out.
    ensures usage { result.status ≡ 2 → trial_of (texts words.now) ≡ None }
    ensures other_words { trial_of (texts words.now) ≡ None → (result.status ≡ 2) ⊎ (result.status ≡ 8) }

    // Status 4 never comes, status 7 only where a put has failed, and no failure goes untold.
    ensures unread { result.status ≢ 4 }
    ensures unwritten { result.status ≡ 7 → Rose (K.faults out.old) (K.faults out.new) }
    ensures all_written { result.status ≢ 7 → K.faults out.new ≡ K.faults out.old }
    ensures all_opened { result.status ≢ 5 → M.faults disks.new ≡ M.faults disks.old }

    // Status 5 comes only where the disk could not be opened, or has counted a fault since.
    ensures failed { result.status ≡ 5 → Rose (M.faults disks.old) (M.faults disks.new)
        ⊎ HasFault M.D.faults (M.faults_of disks.old []) result.disk }

    // One disk is opened at most, and none where the words or the source are refused.
    ensures opens { Opens result.status (M.calls disks.old) (M.calls disks.new) }

    // The other sink was told the text of the status, as far as it took it.
    ensures told { Complains NothingUnread result.status
        (Tells (K.taken err.old) (K.taken err.new) (K.faults err.old) (K.faults err.new) (K.refusals err.old) (K.refusals err.new)) }
{
    let said = trial_words(alloc, words, out, disks);
    tell(&said.1, err);
    let status = status_of(&said.1);
    Ended {
        status,
        disk: said.0,
    }
}
