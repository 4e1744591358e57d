ghost use Rattle.std.specs.Prelude.{◌≡◌, ◌≤◌, length, IfOk, IfErr, OnOk};
ghost use Rattle.sv_base.specs.Faults.{IsListed};
ghost use Rattle.sv_outside.specs.Outside.{counted};
ghost use Rattle.survey.specs.computed.Asking.{asking};
ghost use Rattle.survey.specs.Sources.{source_of, sources_of};
ghost use Rattle.survey.specs.computed.Endings.{IsRefusal, IsUnread, Stands, StopsOne, AllStand, Stopped};
ghost use Rattle.survey.specs.Outcome.{loads_after};

use crate::asked::Asked;
use crate::ending::Ending;
use crate::telling::{cannot_read_line, file_fault_line};
use c_front::SourceFile;
use std::alloc::Global;
use sv_base::limits::{FILE_BYTES, TOTAL_BYTES};
use sv_base::{FaultKind, NoMemory, faults};
use sv_outside::{Loaded, Sources};

/// The refusal of a file as a whole, in place of its report.
fn refused(alloc: Global, name: &[u8], kind: FaultKind) -> Ending
    requires { IsListed kind }
    ensures { IsRefusal result }
{
    match file_fault_line(alloc, name, kind) {
        Ok(line) => return Ending::Refused(line),
        Err(NoMemory) => return Ending::NoMemory,
    }
}

/// A load that failed, in place of the report.
fn unread(alloc: Global, name: &[u8]) -> Ending
    ensures { IsUnread result name.now }
{
    match cannot_read_line(alloc, name) {
        Ok(text) => return Ending::CannotRead(text),
        Err(NoMemory) => return Ending::NoMemory,
    }
}

/// Loads the file of that name, where it has no more bytes than there is room for.
fn load<S: Sources>(
    alloc: Global,
    name: &str,
    room: usize,
    sources: &mut S,
) -> Result<SourceFile, Ending>
    ensures named { IfOk result (λ file. (source_of file).name ≡ name.now) }
    ensures stands { IfOk result (λ file. Stands (S.files sources.old) (source_of file)) }
    ensures within { IfOk result (λ file. length (source_of file).bytes ≤ room) }
    ensures all_read { OnOk result (S.faults sources.new ≡ S.faults sources.old) }
    ensures stops { IfErr result (λ e. StopsOne e (S.files sources.old) name.now room (S.faults sources.old) (S.faults sources.new)) }
    ensures same { S.files sources.new ≡ S.files sources.old }
    ensures counted { S.calls sources.new ≡ counted (S.calls sources.old) }
{
    let mut bytes = Vec::new(alloc);
    match sources.load(name, FILE_BYTES as u64, &mut bytes) {
        Loaded::Ok if bytes.len() > room => {
            let ending = refused(alloc, name.as_bytes(), faults::FILES_TOO_LONG);
            return Err(ending);
        }
        Loaded::Ok => match String::from_str(alloc, name) {
            Ok(name) => return Ok(SourceFile { name, bytes }),
            Err(_) => return Err(Ending::NoMemory),
        },
        Loaded::Failed => {
            let ending = unread(alloc, name.as_bytes());
            return Err(ending);
        }
        Loaded::NoMemory => return Err(Ending::NoMemory),
        Loaded::TooLarge => {
            let ending = refused(alloc, name.as_bytes(), faults::FILE_TOO_LONG);
            return Err(ending);
        }
    }
}

/// Loads the files in their order.
pub fn load_all<S: Sources>(
    alloc: Global,
    asked: &Asked,
    sources: &mut S,
) -> Result<Vec<SourceFile>, Ending>
    ensures stands { IfOk result (λ files. AllStand (S.files sources.old) (asking asked.now).files (sources_of files.items)) }
    ensures all_read { OnOk result (S.faults sources.new ≡ S.faults sources.old) }
    ensures counted { OnOk result (S.calls sources.new ≡ loads_after (length (asking asked.now).files) (S.calls sources.old)) }
    ensures stops { IfErr result (λ e. Stopped e (S.files sources.old) (asking asked.now)
        (record { loads_before = S.calls sources.old; loads_now = S.calls sources.new; unread_before = S.faults sources.old; unread_now = S.faults sources.new; puts_before = 0; puts_now = 0 })) }
{
    let mut files = Vec::new(alloc);
    let mut room = TOTAL_BYTES;
    for name in asked.files.iter() {
        let file = match load(alloc, name.as_str(), room, sources) {
            Ok(file) => file,
            Err(ending) => return Err(ending),
        };
        room -= file.bytes.len();
        let Ok(()) = files.push(file) else {
            return Err(Ending::NoMemory);
        };
    }
    Ok(files)
}
