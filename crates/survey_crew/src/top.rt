ghost use Rattle.std.specs.Prelude.{◌≡◌, ◌≢◌, ◌≤◌, Some, None, ◌⊎◌, string_bytes};
ghost use Rattle.sv_outside.specs.Outside.{Rose};
ghost use Rattle.survey.specs.Words.{texts};
ghost use Rattle.survey.specs.Outcome.{IsReport, IsReported, Tells};
ghost use Rattle.survey.specs.computed.Asking.{asking};
ghost use Rattle.survey_check.specs.Words.{check_of, files_of, path_of};
ghost use Rattle.survey_check.specs.Outcome.{Puts, PutsFront, Opens, HasFault, UnreadAs, Complains};
ghost use Rattle.survey_check.specs.computed.Endings.{wanting, Ends};

use cli_words::WordsFault;
use std::alloc::Global;
use std::sync::Wait;
use std::thread::Threads;
use survey::load_all;
use survey_check::{
    Ended, Ending, Request, check_of, conclude, open_tables, prepare, status_of, tell,
};
use sv_outside::{Clock, Disks, Gate, Sink, Sources};
use work_crew::work_together;

// Loads and checks the files that are asked for by workers, and puts their report.
fn check_files<
    R: Threads + Wait + Sync,
    S: Sources,
    K: Sink,
    M: Disks,
    C: Clock + Sync,
    G: Gate + Sync,
>(
    rt: &R,
    alloc: Global,
    request: &Request,
    sources: &mut S,
    out: &mut K,
    disks: &mut M,
    clock: &C,
    gate: &G,
) -> (Option<M::D>, Ending)
    ensures ends { Ends result.1 IsReport (UnreadAs (Some (asking request.now.asked)) (S.calls sources.old) (S.calls sources.new)) (Some (wanting request.now)) (K.taken out.old) (K.taken out.new)
        (record { unread_before = S.faults sources.old; unread_now = S.faults sources.new; puts_before = K.faults out.old; puts_now = K.faults out.new; opens_before = M.calls disks.old; opens_now = M.calls disks.new; unopened_before = M.faults disks.old; unopened_now = M.faults disks.new }) }
    ensures failed { result.1 ≡ Ending.DiskFailed → Rose (M.faults disks.old) (M.faults disks.new)
        ⊎ HasFault M.D.faults (M.faults_of disks.old (string_bytes request.now.path)) result.0 }
{
    let files = match load_all(alloc, &request.asked, sources) {
        Ok(files) => files,
        Err(ending) => return (None, Ending::Plain(ending)),
    };
    let prepared = match prepare(alloc, &request.asked, &files) {
        Ok(prepared) => prepared,
        Err(ending) => return (None, Ending::Plain(ending)),
    };
    let tables = match open_tables(alloc, disks, request.path.as_str(), &prepared) {
        Ok(tables) => tables,
        Err(refused) => return refused,
    };
    let tables = work_together(
        rt,
        alloc,
        tables,
        &prepared.plan,
        clock,
        gate,
        request.workers,
    );
    let (disk, ending) = conclude(alloc, &prepared, tables, out);
    (Some(disk), ending)
}

// Does what the words of a check by workers ask for.
fn check_words<
    R: Threads + Wait + Sync,
    S: Sources,
    K: Sink,
    M: Disks,
    C: Clock + Sync,
    G: Gate + Sync,
>(
    rt: &R,
    alloc: Global,
    words: &[String],
    sources: &mut S,
    out: &mut K,
    disks: &mut M,
    clock: &C,
    gate: &G,
) -> (Option<M::D>, Ending)
    ensures ends { Ends result.1 IsReport (UnreadAs (files_of (check_of (texts words.now))) (S.calls sources.old) (S.calls sources.new)) (check_of (texts words.now)) (K.taken out.old) (K.taken out.new)
        (record { unread_before = S.faults sources.old; unread_now = S.faults sources.new; puts_before = K.faults out.old; puts_now = K.faults out.new; opens_before = M.calls disks.old; opens_now = M.calls disks.new; unopened_before = M.faults disks.old; unopened_now = M.faults disks.new }) }
    ensures failed { result.1 ≡ Ending.DiskFailed → Rose (M.faults disks.old) (M.faults disks.new)
        ⊎ HasFault M.D.faults (M.faults_of disks.old (path_of (check_of (texts words.now)))) result.0 }
{
    let request = match check_of(alloc, words) {
        Ok(request) => request,
        Err(WordsFault::Bad) => return (None, Ending::Plain(survey::Ending::Usage)),
        Err(WordsFault::NoMemory) => return (None, Ending::Plain(survey::Ending::NoMemory)),
    };
    check_files(rt, alloc, &request, sources, out, disks, clock, gate)
}

/// Checks the files that the words name over a database, by workers on threads of their own: the command `check`. It puts
/// the report to `out`, and tells `err` why where there is none.
pub fn survey<
    R: Threads + Wait + Sync,
    S: Sources,
    K: Sink,
    M: Disks,
    C: Clock + Sync,
    G: Gate + Sync,
>(
    rt: &R,
    alloc: Global,
    words: &[String],
    sources: &mut S,
    out: &mut K,
    err: &mut K,
    disks: &mut M,
    clock: &C,
    gate: &G,
) -> Ended<M::D>
    ensures statuses { result.status ≤ 9 }

    // With status 0 or 1 the sink gained a report, a line for each site and the totals, with status 7 its first bytes, with every other status nothing.
    ensures report { IsReported result.status → Puts IsReport (K.taken out.old) (K.taken out.new) result.status }
    ensures cut_off { result.status ≡ 7 → PutsFront IsReport (K.taken out.old) (K.taken out.new) }
    ensures untouched { result.status ≢ 0 → result.status ≢ 1 → result.status ≢ 7 → K.taken out.new ≡ K.taken out.old }

    // Status 2 comes exactly where the words are not accepted, unless memory runs out.
    ensures usage { result.status ≡ 2 → check_of (texts words.now) ≡ None }
    ensures other_words { check_of (texts words.now) ≡ None → (result.status ≡ 2) ⊎ (result.status ≡ 8) }

    // Statuses 4 and 7 come only where a load or a put has failed, and no failure goes untold.
    ensures unread { result.status ≡ 4 → Rose (S.faults sources.old) (S.faults sources.new) }
    ensures unwritten { result.status ≡ 7 → Rose (K.faults out.old) (K.faults out.new) }
    ensures all_read { result.status ≢ 4 → result.status ≢ 8 → S.faults sources.new ≡ S.faults sources.old }
    ensures all_written { result.status ≢ 7 → K.faults out.new ≡ K.faults out.old }
    ensures all_opened { result.status ≢ 5 → M.faults disks.new ≡ M.faults disks.old }

    // Status 5 comes only where the disk could not be opened, or has counted a fault since.
    ensures failed { result.status ≡ 5 → Rose (M.faults disks.old) (M.faults disks.new)
        ⊎ HasFault M.D.faults (M.faults_of disks.old (path_of (check_of (texts words.now)))) result.disk }

    // One disk is opened at most, and none where the words or the source are refused.
    ensures opens { Opens result.status (M.calls disks.old) (M.calls disks.new) }

    // The other sink was told the text of the status, as far as it took it.
    ensures told { Complains (UnreadAs (files_of (check_of (texts words.now))) (S.calls sources.old) (S.calls sources.new)) result.status
        (Tells (K.taken err.old) (K.taken err.new) (K.faults err.old) (K.faults err.new) (K.refusals err.old) (K.refusals err.new)) }
{
    let said = check_words(rt, alloc, words, sources, out, disks, clock, gate);
    tell(&said.1, err);
    let status = status_of(&said.1);
    Ended {
        status,
        disk: said.0,
    }
}
