ghost use Rattle.std.specs.Prelude.{◌≡◌, ◌≢◌, ℕ, ◌≤◌, length, take, Option, IfSome};
ghost use Rattle.sv_outside.specs.Outside.{Files, LoadsFrom, Rose, counted, gained};

/// How a load ended.
#[derive(Clone, Copy, Debug, PartialEq, Eq)]
pub enum Loaded {
    Ok,
    /// The file cannot be read, and the sources have counted it.
    Failed,
    /// The file has more bytes than the limit.
    TooLarge,
    NoMemory,
}

/// Files by name.
pub trait Sources {
    /// What stands under each name, where that is told. No load changes it.
    ghost files: { Self → Option Files };

    /// How many loads have failed.
    ghost faults: { Self → ℕ };

    /// How many loads there were.
    ghost calls: { Self → ℕ };

    /// Appends the file's bytes, if there are no more than `limit`. After a refusal some first bytes of the file were
    /// appended, after `TooLarge` the first `limit` of them.
    fn load(&mut self, name: &str, limit: u64, into: &mut Vec<u8>) -> Loaded
        ensures same { files self.new ≡ files self.old }
        ensures kept { take (length into.old.items) into.new.items ≡ into.old.items }
        ensures within { result ≡ Loaded.Ok → length (gained into.old.items into.new.items) ≤ limit }
        ensures told { IfSome (files self.old) (λ files. LoadsFrom result limit (files name.now) (gained into.old.items into.new.items)) }
        ensures failed { result ≡ Loaded.Failed → Rose (faults self.old) (faults self.new) }
        ensures not_failed { result ≢ Loaded.Failed → faults self.new ≡ faults self.old }
        ensures later { faults self.old ≤ faults self.new }
        ensures counted { calls self.new ≡ counted (calls self.old) };
}
