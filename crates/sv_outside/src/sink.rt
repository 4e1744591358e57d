ghost use Rattle.std.specs.Prelude.{◌≡◌, ◌≢◌, ℕ, ◌≤◌, List, Option};
ghost use Rattle.sv_outside.specs.Outside.{PutsTo, Rose};

/// How a put ended.
#[derive(Clone, Copy, Debug, PartialEq, Eq)]
pub enum Put {
    Ok,
    /// The piece was not taken whole, and the sink has counted it.
    Failed,
    NoMemory,
}

/// A place that takes bytes.
pub trait Sink {
    /// All that it has taken, where that is told.
    ghost taken: { Self → Option (List ℕ) };

    /// How many puts have failed.
    ghost faults: { Self → ℕ };

    /// How many puts were answered with `NoMemory`.
    ghost refusals: { Self → ℕ };

    /// Appends the piece. After `Failed` some first bytes of it were appended, after `NoMemory` none.
    fn put(&mut self, piece: &[u8]) -> Put
        ensures taken { PutsTo result piece.now (taken self.old) (taken self.new) }
        ensures failed { result ≡ Put.Failed → Rose (faults self.old) (faults self.new) }
        ensures not_failed { result ≢ Put.Failed → faults self.new ≡ faults self.old }
        ensures later { faults self.old ≤ faults self.new }
        ensures refused { result ≡ Put.NoMemory → Rose (refusals self.old) (refusals self.new) }
        ensures not_refused { result ≢ Put.NoMemory → refusals self.new ≡ refusals self.old }
        ensures refused_later { refusals self.old ≤ refusals self.new };
}
