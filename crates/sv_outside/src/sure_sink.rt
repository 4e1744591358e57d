use crate::{Put, Sink};
use std::alloc::Global;

/// A place in memory that takes all, while memory lasts.
#[derive(Drop)]
pub struct SureSink {
    bytes: Vec<u8>,
    refusals: u64,
}

impl SureSink {
    ghost use Rattle.std.specs.Prelude.{◌≡◌, []};
    ghost use Rattle.sv_outside.specs.SureViews.{sure_taken, sure_put_refusals};

    pub fn new(alloc: Global) -> SureSink
        ensures taken { sure_taken result ≡ [] }
        ensures refusals { sure_put_refusals result ≡ 0 }
    {
        SureSink {
            bytes: Vec::new(alloc),
            refusals: 0,
        }
    }

    /// All that was taken.
    pub fn taken(&self) -> &[u8]
        ensures { result.now ≡ sure_taken self.now }
    {
        &self.bytes
    }
}

impl Sink for SureSink {
    ghost use Rattle.std.specs.Prelude.{Some};

    ghost taken = { λ s. Some s.bytes.items };

    ghost faults = { λ _. 0 };

    ghost refusals = { λ s. s.refusals };

    fn put(&mut self, piece: &[u8]) -> Put {
        match self.bytes.extend_from_slice(piece) {
            Ok(()) => Put::Ok,
            Err(_) => {
                self.refusals = self.refusals.saturating_add(1);
                Put::NoMemory
            }
        }
    }
}
