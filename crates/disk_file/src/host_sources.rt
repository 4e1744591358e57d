ghost use Rattle.std.specs.Prelude.{◌≡◌, ◌≤◌, length, take};
ghost use Rattle.sv_outside.specs.Outside.{gained};

use std::fs::File;
use std::io::Read;
use sv_outside::{Loaded, Sources};

/// How many bytes are read at a time.
const CHUNK: usize = 65_536;

/// The files of the system. They tell nothing of their content.
#[derive(Drop)]
pub struct HostSources<'a> {
    rt: &'a HostRuntime,
    calls: u64,
    faults: u64,
}

impl<'a> HostSources<'a> {
    ghost use Rattle.std.specs.Prelude.{◌≡◌};
    ghost use Rattle.disk_file.specs.HostViews.{host_loads, host_load_faults};

    pub fn new(rt: &'a HostRuntime) -> HostSources<'a>
        ensures calls { host_loads result ≡ 0 }
        ensures faults { host_load_faults result ≡ 0 }
    {
        HostSources {
            rt,
            calls: 0,
            faults: 0,
        }
    }
}

/// Appends what the file gives, up to the limit.
fn read_up_to(file: &mut File, limit: u64, into: &mut Vec<u8>) -> Loaded
    ensures kept { take (length into.old.items) into.new.items ≡ into.old.items }
    ensures within { result ≡ Loaded.Ok → length (gained into.old.items into.new.items) ≤ limit }
{
    let mut left = limit;
    let mut chunk = [0u8; CHUNK];
    'reads: for _ in 0..u64::MAX {
        let Ok(count) = file.read(&mut chunk) else {
            return Loaded::Failed;
        };
        if count == 0 {
            return Loaded::Ok;
        }
        let is_long = count as u64 > left;
        let room = if is_long { left as usize } else { count };
        if into.extend_from_slice(&chunk[..room]).is_err() {
            return Loaded::NoMemory;
        }
        if is_long {
            return Loaded::TooLarge;
        }
        left -= room as u64;
    }
    Loaded::Failed
}

impl<'a> Sources for HostSources<'a> {
    ghost use Rattle.std.specs.Prelude.{None};

    ghost files = { λ _. None };

    ghost faults = { λ s. s.faults };

    ghost calls = { λ s. s.calls };

    fn load(&mut self, name: &str, limit: u64, into: &mut Vec<u8>) -> Loaded {
        self.calls = self.calls.saturating_add(1);
        let answer = match File::open(self.rt, name) {
            Ok(mut file) => read_up_to(&mut file, limit, into),
            Err(_) => Loaded::Failed,
        };
        if answer == Loaded::Failed {
            self.faults = self.faults.saturating_add(1);
        }
        answer
    }
}
