ghost use Rattle.std.specs.Prelude.{◌≡◌, ◌≢◌, ◌⊎◌, ◌<◌, ◌^◌, ℕ, IfOk, IfErr, OnOk};
ghost use Rattle.sv_outside.specs.Outside.{Rose, counted};
ghost use Rattle.tables.specs.Sound.{IsSound};
ghost use Rattle.survey_check.specs.Outcome.{HasFault};
ghost use Rattle.survey_check.specs.Texts.{IsRefusalLine};
ghost use Rattle.survey_check.specs.computed.Endings.{IsUnopened, IsStopped, status_number};

use crate::texts::{damaged, full, not_a_database, of_another_source};
use crate::{Ending, Prepared};
use journal::OpenFault;
use round_plan::Plan;
use std::alloc::Global;
use sv_base::{DiskFailed, NoMemory};
use sv_outside::Disks;
use tables::{Stop, Tables};

/// How long a worker may hold a task before others may take it, in units of the clock.
const TERM: u64 = 60_000;

// The line that refuses a database, or want of memory for it.
fn refused(line: Result<Vec<u8>, NoMemory>) -> Ending
    requires { IfOk line (λ l. IsRefusalLine l.items) }
    ensures unopened { IsUnopened result }
    ensures other { result ≢ Ending.DiskFailed }
{
    match line {
        Ok(line) => Ending::Refused(line),
        Err(NoMemory) => Ending::Plain(survey::Ending::NoMemory),
    }
}

// How a call ends whose database is not opened.
fn unopened(alloc: Global, fault: OpenFault) -> Ending
    ensures unopened { IsUnopened result }
    ensures failed { result ≡ Ending.DiskFailed → fault ≡ OpenFault.Disk }
{
    match fault {
        OpenFault::Disk => Ending::DiskFailed,
        OpenFault::NotDatabase => refused(not_a_database(alloc)),
        OpenFault::OtherSource { stored, wanted } => {
            refused(of_another_source(alloc, stored.as_slice(), wanted.as_slice()))
        }
        OpenFault::Damaged { at } => refused(damaged(alloc, at)),
        OpenFault::NoMemory => Ending::Plain(survey::Ending::NoMemory),
    }
}

/// How a call ends whose rounds are not all computed.
pub(crate) fn stopped(alloc: Global, stop: Stop) -> Ending
    requires { (size : ℕ) → stop ≡ Stop.Full size → 2 ^ 31 < size }
    ensures stopped { IsStopped result }
    ensures failed { result ≡ Ending.DiskFailed → stop ≡ Stop.Disk }
{
    match stop {
        Stop::Disk => Ending::DiskFailed,
        Stop::NoMemory => Ending::Plain(survey::Ending::NoMemory),
        Stop::Full { size } => match full(alloc, size) {
            Ok(line) => Ending::Full(line),
            Err(NoMemory) => Ending::Plain(survey::Ending::NoMemory),
        },
    }
}

/// Opens the database of that name. A refusal hands the disk back, where there is one.
pub fn open_tables<M: Disks>(
    alloc: Global,
    disks: &mut M,
    path: &str,
    prepared: &Prepared,
) -> Result<Tables<M::D, Plan>, (Option<M::D>, Ending)>
    ensures sound { IfOk result (λ t. IsSound M.D.told M.D.seen M.D.faults t) }
    ensures work { IfOk result (λ t. t.opening.work.value ≡ prepared.now.plan) }
    ensures faults { IfOk result (λ t. M.D.faults t.opening.disk.value ≡ M.faults_of disks.old path.now) }
    ensures opened { OnOk result (M.faults disks.new ≡ M.faults disks.old) }
    ensures refused { IfErr result (λ r. IsUnopened r.1) }
    ensures failed { IfErr result (λ r. r.1 ≡ Ending.DiskFailed → Rose (M.faults disks.old) (M.faults disks.new)
        ⊎ HasFault M.D.faults (M.faults_of disks.old path.now) r.0) }
    ensures all_opened { IfErr result (λ r. status_number r.1 ≢ 5 → M.faults disks.new ≡ M.faults disks.old) }
    ensures counted { M.calls disks.new ≡ counted (M.calls disks.old) }
{
    let disk = match disks.open(path) {
        Ok(disk) => disk,
        Err(DiskFailed) => return Err((None, Ending::DiskFailed)),
    };
    match Tables::open(alloc, disk, &prepared.plan, &prepared.digests, TERM) {
        Ok(tables) => Ok(tables),
        Err((disk, fault)) => Err((Some(disk), unopened(alloc, fault))),
    }
}
