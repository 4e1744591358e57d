use crate::files::{append_up_to, find};
use crate::{Loaded, Sources};

/// Files in memory, of which some loads fail.
#[derive(Drop)]
pub struct MemorySources {
    files: Vec<(String, Vec<u8>)>,
    failing: Vec<u64>,
    calls: u64,
    faults: u64,
}

impl MemorySources {
    ghost use Rattle.std.specs.Prelude.{◌≡◌};
    ghost use Rattle.sv_outside.specs.Memory.{file_named};
    ghost use Rattle.sv_outside.specs.MemoryViews.{memory_files, memory_failing_loads, memory_loads, memory_load_faults};

    /// Loads are numbered from 0, and those that `failing` names fail. Of two files of one name the first is meant.
    pub fn new(files: Vec<(String, Vec<u8>)>, failing: Vec<u64>) -> MemorySources
        ensures files { memory_files result ≡ file_named files.items }
        ensures failing { memory_failing_loads result ≡ failing.items }
        ensures calls { memory_loads result ≡ 0 }
        ensures faults { memory_load_faults result ≡ 0 }
    {
        MemorySources {
            files,
            failing,
            calls: 0,
            faults: 0,
        }
    }
}

impl Sources for MemorySources {
    ghost use Rattle.std.specs.Prelude.{◌≡◌, ◌≢◌, ◌≤◌, length, take, true, false, Some};
    ghost use Rattle.sv_outside.specs.Outside.{LoadsFrom, Rose, counted, gained};
    ghost use Rattle.sv_outside.specs.Memory.{file_named};
    ghost use Rattle.sv_outside.specs.MemoryViews.{memory_files, memory_failing_loads, memory_loads, memory_load_faults, memory_load_fails};

    ghost files = { λ s. Some (file_named s.files.items) };

    ghost faults = { λ s. s.faults };

    ghost calls = { λ s. s.calls };

    fn load(&mut self, name: &str, limit: u64, into: &mut Vec<u8>) -> Loaded
        ensures same { Some (memory_files self.new) ≡ Some (memory_files self.old) }
        ensures kept { take (length into.old.items) into.new.items ≡ into.old.items }
        ensures within { result ≡ Loaded.Ok → length (gained into.old.items into.new.items) ≤ limit }
        ensures told { LoadsFrom result limit (memory_files self.old name.now) (gained into.old.items into.new.items) }
        ensures failed { result ≡ Loaded.Failed → Rose (memory_load_faults self.old) (memory_load_faults self.new) }
        ensures not_failed { result ≢ Loaded.Failed → memory_load_faults self.new ≡ memory_load_faults self.old }
        ensures later { memory_load_faults self.old ≤ memory_load_faults self.new }
        ensures counted { memory_loads self.new ≡ counted (memory_loads self.old) }

        // It fails exactly where its number is one of those that fail, or the name is absent.
        ensures fails { result ≡ Loaded.Failed → memory_load_fails self.old name.now ≡ true }
        ensures passes { result ≢ Loaded.Failed → memory_load_fails self.old name.now ≡ false }
        ensures same_failing { memory_failing_loads self.new ≡ memory_failing_loads self.old }
    {
        let number = self.calls;
        self.calls = number.saturating_add(1);
        if !self.failing.contains(&number) {
            if let Some(bytes) = find(&self.files, name) {
                return append_up_to(bytes, limit, into);
            }
        }
        self.faults = self.faults.saturating_add(1);
        Loaded::Failed
    }
}
