use crate::files::{append_up_to, find};
use crate::{Loaded, Sources};

/// Files in memory whose loads never fail. A name that was not given is an empty file.
#[derive(Drop)]
pub struct SureSources {
    files: Vec<(String, Vec<u8>)>,
    calls: u64,
}

impl SureSources {
    ghost use Rattle.std.specs.Prelude.{◌≡◌};
    ghost use Rattle.sv_outside.specs.Memory.{file_or_empty};
    ghost use Rattle.sv_outside.specs.SureViews.{sure_files, sure_loads};

    /// Of two files of one name the first is meant.
    pub fn new(files: Vec<(String, Vec<u8>)>) -> SureSources
        ensures files { sure_files result ≡ file_or_empty files.items }
        ensures calls { sure_loads result ≡ 0 }
    {
        SureSources { files, calls: 0 }
    }
}

impl Sources for SureSources {
    ghost use Rattle.std.specs.Prelude.{Some};
    ghost use Rattle.sv_outside.specs.Memory.{file_or_empty};

    ghost files = { λ s. Some (file_or_empty s.files.items) };

    ghost faults = { λ _. 0 };

    ghost calls = { λ s. s.calls };

    fn load(&mut self, name: &str, limit: u64, into: &mut Vec<u8>) -> Loaded {
        self.calls = self.calls.saturating_add(1);
        match find(&self.files, name) {
            None => Loaded::Ok,
            Some(bytes) => append_up_to(bytes, limit, into),
        }
    }
}
