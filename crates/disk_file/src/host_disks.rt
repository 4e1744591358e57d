use crate::host_disk::HostDisk;
use crate::host_file::HostFile;
use crate::medium::Medium;
use std::alloc::Global;
use std::fs::File;
use std::io;
use std::path::Path;
use sv_base::DiskFailed;
use sv_outside::Disks;

/// The files of the system as disks. A file that is missing is made; one that another program has open as a disk is not
/// opened.
#[derive(Drop)]
pub struct HostDisks<'a> {
    rt: &'a HostRuntime,
    alloc: Global,
    calls: u64,
    faults: u64,
}

impl<'a> HostDisks<'a> {
    ghost use Rattle.std.specs.Prelude.{◌≡◌};
    ghost use Rattle.disk_file.specs.HostViews.{host_opens, host_open_faults};

    pub fn new(rt: &'a HostRuntime, alloc: Global) -> HostDisks<'a>
        ensures calls { host_opens result ≡ 0 }
        ensures faults { host_open_faults result ≡ 0 }
    {
        HostDisks {
            rt,
            alloc,
            calls: 0,
            faults: 0,
        }
    }
}

/// Waits until the folder's entry of that file is on the medium: a crash may otherwise leave no file.
fn sync_folder(rt: &HostRuntime, name: &str) -> io::Result<()> {
    let folder = match Path::new(name).parent() {
        Some(folder) if !folder.as_str().is_empty() => folder,
        _ => Path::new("."),
    };
    File::open(rt, folder)?.sync_all()
}

/// Opens a file that no other program has locked. Where it is empty it may just have been made.
fn open_file(rt: &HostRuntime, name: &str) -> io::Result<File> {
    let file = File::options()
        .read(true)
        .write(true)
        .create(true)
        .open(rt, name)?;
    if file.try_lock().is_err() {
        return Err(io::ErrorKind::WouldBlock.into());
    }
    if file.metadata()?.len() == 0 {
        sync_folder(rt, name)?;
    }
    Ok(file)
}

impl<'a> Disks for HostDisks<'a> {
    ghost use Rattle.std.specs.Prelude.{[]};

    type D = HostDisk;

    ghost faults = { λ s. s.faults };

    ghost calls = { λ s. s.calls };

    ghost faults_of = { λ _ _. 0 };

    ghost moment_of = { λ _ _. 0 };

    ghost image_of = { λ _ _. [] };

    ghost may_leave_of = { λ _ _ _. ⊥ };

    fn open(&mut self, name: &str) -> Result<HostDisk, DiskFailed> {
        self.calls = self.calls.saturating_add(1);
        if name.is_empty() {
            return Ok(HostDisk::new(Medium::Memory(Vec::new(self.alloc))));
        }
        match open_file(self.rt, name) {
            Ok(file) => Ok(HostDisk::new(Medium::File(HostFile::new(self.alloc, file)))),
            Err(_) => {
                self.faults = self.faults.saturating_add(1);
                Err(DiskFailed)
            }
        }
    }

    ghost empty_name = { λ s told. Prim.search };

    ghost empty_images = { λ s c left. Prim.search };
}
