ghost use Rattle.std.specs.Prelude.{◌≡◌, ◌≢◌, ◌≤◌, ◌++◌, map, Some, None, IfOk};
ghost use Rattle.report.specs.Report.{report_text, totals_text, report_status};
ghost use Rattle.sv_outside.specs.Outside.{Rose};
ghost use Rattle.journal.specs.Journals.{journal_disk};
ghost use Rattle.survey.specs.Outcome.{IsReport};
ghost use Rattle.survey_check.specs.Texts.{trial_words};
ghost use Rattle.survey_check.specs.Outcome.{IsTrial};
ghost use Rattle.survey_check.specs.computed.Endings.{Text, PutAs, Concludes};
ghost use Rattle.tables.specs.Sound.{IsSound, journal_of};

use crate::opening::stopped;
use crate::request::Trial;
use crate::texts::trial_words;
use crate::{Ending, Prepared};
use report::{Line, report_status, report_text, totals_text};
use round_plan::{Plan, stored_colours};
use sqlite_items::Items;
use std::alloc::Global;
use survey::{assumed_of, lines_of};
use sv_base::NoMemory;
use sv_outside::{Disk, Put, Sink};
use tables::Tables;
use worker_loop::finish;

// The whole report.
fn whole(alloc: Global, prepared: &Prepared, lines: &[Line]) -> Result<Vec<u8>, NoMemory>
    ensures { IfOk result (λ text. IsReport text.items (report_status lines.now)) }
{
    let assumed = assumed_of(alloc, prepared.plan.core())?;
    let mut text = Vec::new(alloc);
    report_text(lines, &assumed, &mut text)?;
    Ok(text)
}

// The totals alone, behind what a trial is of.
fn totals(alloc: Global, trial: Trial, lines: &[Line]) -> Result<Vec<u8>, NoMemory>
    ensures { IfOk result (λ text. IsTrial trial.number trial.functions text.items (report_status lines.now)) }
{
    let mut text = trial_words(alloc, trial.number, trial.functions)?;
    totals_text(lines, &mut text)?;
    Ok(text)
}

// The text of lines: the whole report, or the totals of a trial.
fn lines_text(
    alloc: Global,
    prepared: &Prepared,
    lines: &[Line],
    trial: Option<Trial>,
) -> Result<Vec<u8>, NoMemory>
    ensures { IfOk result (λ text. Text trial text.items (report_status lines.now)) }
{
    match trial {
        Some(trial) => return totals(alloc, trial, lines),
        None => return whole(alloc, prepared, lines),
    }
}

// The text that finished tables give, and its status.
fn text_of<D: Disk>(
    alloc: Global,
    prepared: &Prepared,
    tables: &Tables<D, Plan>,
    trial: Option<Trial>,
) -> Result<(Vec<u8>, u8), NoMemory>
    ensures text { IfOk result (λ r. Text trial r.0.items r.1) }
    ensures small { IfOk result (λ r. r.1 ≤ 1) }
{
    let colours = stored_colours(alloc, tables)?;
    let lines = lines_of(alloc, &prepared.names, prepared.plan.core(), &colours)?;
    let text = lines_text(alloc, prepared, lines.as_slice(), trial)?;
    Ok((text, report_status(lines.as_slice())))
}

// Puts the report.
fn put_text<K: Sink>(text: &[u8], status: u8, out: &mut K) -> Ending
    ensures put { PutAs result text.now status (K.taken out.old) (K.taken out.new) (K.faults out.old) (K.faults out.new) }
    ensures other { result ≢ Ending.DiskFailed }
{
    match out.put(text) {
        Put::Ok => return Ending::Plain(survey::Ending::Reported(status)),
        Put::Failed => return Ending::Plain(survey::Ending::NotWritten),
        Put::NoMemory => return Ending::Plain(survey::Ending::NoMemory),
    }
}

// Puts the report that finished tables give.
fn put_report<D: Disk, K: Sink>(
    alloc: Global,
    prepared: &Prepared,
    tables: &Tables<D, Plan>,
    trial: Option<Trial>,
    out: &mut K,
) -> Ending
    ensures ends { Concludes result (Text trial) (K.taken out.old) (K.taken out.new) (K.faults out.old) (K.faults out.new) }
    ensures other { result ≢ Ending.DiskFailed }
{
    match text_of(alloc, prepared, tables, trial) {
        Ok((text, status)) => return put_text(&text, status, out),
        Err(NoMemory) => return Ending::Plain(survey::Ending::NoMemory),
    }
}

// Does what is left to be done, and puts the report.
fn finish_and_put<D: Disk, K: Sink>(
    alloc: Global,
    prepared: &Prepared,
    tables: &mut Tables<D, Plan>,
    trial: Option<Trial>,
    out: &mut K,
) -> Ending
    requires sound { IsSound D.told D.seen D.faults tables.old }
    requires work { tables.old.opening.work.value ≡ prepared.now.plan }
    ensures ends { Concludes result (Text trial) (K.taken out.old) (K.taken out.new) (K.faults out.old) (K.faults out.new) }
    ensures failed { result ≡ Ending.DiskFailed → Rose (D.faults tables.old.opening.disk.value) (D.faults (journal_disk (journal_of tables.new))) }
{
    match finish(alloc, tables, &prepared.plan) {
        Ok(()) => return put_report(alloc, prepared, tables, trial, out),
        Err(stop) => {
            let ending = stopped(alloc, stop);
            return ending;
        }
    }
}

/// Does what is left to be done, puts the report or the totals of a trial, and hands the disk back.
pub(crate) fn conclude_as<D: Disk, K: Sink>(
    alloc: Global,
    prepared: &Prepared,
    tables: Tables<D, Plan>,
    trial: Option<Trial>,
    out: &mut K,
) -> (D, Ending)
    requires sound { IsSound D.told D.seen D.faults tables }
    requires work { tables.opening.work.value ≡ prepared.now.plan }
    ensures ends { Concludes result.1 (Text trial) (K.taken out.old) (K.taken out.new) (K.faults out.old) (K.faults out.new) }
    ensures failed { result.1 ≡ Ending.DiskFailed → Rose (D.faults tables.opening.disk.value) (D.faults result.0) }
{
    let mut tables = tables;
    let ending = finish_and_put(alloc, prepared, &mut tables, trial, out);
    (tables.into_disk(), ending)
}

/// Does what is left to be done of a check, puts its report, and hands the disk back.
pub fn conclude<D: Disk, K: Sink>(
    alloc: Global,
    prepared: &Prepared,
    tables: Tables<D, Plan>,
    out: &mut K,
) -> (D, Ending)
    requires sound { IsSound D.told D.seen D.faults tables }
    requires work { tables.opening.work.value ≡ prepared.now.plan }
    ensures ends { Concludes result.1 IsReport (K.taken out.old) (K.taken out.new) (K.faults out.old) (K.faults out.new) }
    ensures failed { result.1 ≡ Ending.DiskFailed → Rose (D.faults tables.opening.disk.value) (D.faults result.0) }
{
    conclude_as(alloc, prepared, tables, None, out)
}
