ghost use Rattle.std.specs.Prelude.{◌≡◌};
ghost use Rattle.sv_outside.specs.Memory.{failing_at};

use crate::{Put, Sink};
use std::alloc::Global;

/// A place in memory, of which some puts fail.
#[derive(Drop)]
pub struct MemorySink {
    bytes: Vec<u8>,
    failing: Vec<(u64, usize)>,
    calls: u64,
    faults: u64,
    refusals: u64,
}

impl MemorySink {
    ghost use Rattle.std.specs.Prelude.{◌≡◌, []};
    ghost use Rattle.sv_outside.specs.MemoryViews.{memory_taken, memory_failing_puts, memory_puts, memory_put_faults, memory_put_refusals};

    /// Puts are numbered from 0. Each pair is a put that fails, and the number of bytes that it takes before.
    pub fn new(alloc: Global, failing: Vec<(u64, usize)>) -> MemorySink
        ensures taken { memory_taken result ≡ [] }
        ensures failing { memory_failing_puts result ≡ failing.items }
        ensures calls { memory_puts result ≡ 0 }
        ensures faults { memory_put_faults result ≡ 0 }
        ensures refusals { memory_put_refusals result ≡ 0 }
    {
        MemorySink {
            bytes: Vec::new(alloc),
            failing,
            calls: 0,
            faults: 0,
            refusals: 0,
        }
    }

    /// All that was taken.
    pub fn taken(&self) -> &[u8]
        ensures { result.now ≡ memory_taken self.now }
    {
        &self.bytes
    }
}

/// How many bytes the put of that number takes before it fails, where it is one that fails.
fn failing_at(failing: &[(u64, usize)], number: u64) -> Option<usize>
    ensures { result ≡ failing_at failing.now number }
{
    for pair in failing {
        if pair.0 == number {
            return Some(pair.1);
        }
    }
    None
}

impl Sink for MemorySink {
    ghost use Rattle.std.specs.Prelude.{◌≡◌, ◌≢◌, ◌≤◌, ◌++◌, take, IsSome, IsNone, IfSome, Some};
    ghost use Rattle.sv_outside.specs.Outside.{PutsTo, Rose, counted};
    ghost use Rattle.sv_outside.specs.Memory.{failing_at};
    ghost use Rattle.sv_outside.specs.MemoryViews.{memory_taken, memory_failing_puts, memory_puts, memory_put_faults, memory_put_refusals};

    ghost taken = { λ s. Some s.bytes.items };

    ghost faults = { λ s. s.faults };

    ghost refusals = { λ s. s.refusals };

    fn put(&mut self, piece: &[u8]) -> Put
        ensures taken { PutsTo result piece.now (Some (memory_taken self.old)) (Some (memory_taken self.new)) }
        ensures failed { result ≡ Put.Failed → Rose (memory_put_faults self.old) (memory_put_faults self.new) }
        ensures not_failed { result ≢ Put.Failed → memory_put_faults self.new ≡ memory_put_faults self.old }
        ensures later { memory_put_faults self.old ≤ memory_put_faults self.new }
        ensures refused { result ≡ Put.NoMemory → Rose (memory_put_refusals self.old) (memory_put_refusals self.new) }
        ensures not_refused { result ≢ Put.NoMemory → memory_put_refusals self.new ≡ memory_put_refusals self.old }
        ensures refused_later { memory_put_refusals self.old ≤ memory_put_refusals self.new }

        // It fails exactly where its number is one of those that fail, unless memory ran out.
        ensures fails { result ≡ Put.Failed → IsSome (failing_at (memory_failing_puts self.old) (memory_puts self.old)) }
        ensures passes { result ≡ Put.Ok → IsNone (failing_at (memory_failing_puts self.old) (memory_puts self.old)) }
        ensures cut { result ≡ Put.Failed → IfSome (failing_at (memory_failing_puts self.old) (memory_puts self.old)) (λ n. memory_taken self.new ≡ memory_taken self.old ++ take n piece.now) }
        ensures same_failing { memory_failing_puts self.new ≡ memory_failing_puts self.old }
        ensures counted { memory_puts self.new ≡ counted (memory_puts self.old) }
    {
        let number = self.calls;
        self.calls = number.saturating_add(1);
        let (front, answer) = match failing_at(&self.failing, number) {
            None => (piece, Put::Ok),
            Some(taken) => (&piece[..taken.min(piece.len())], Put::Failed),
        };
        if self.bytes.extend_from_slice(front).is_err() {
            self.refusals = self.refusals.saturating_add(1);
            return Put::NoMemory;
        }
        if answer == Put::Failed {
            self.faults = self.faults.saturating_add(1);
        }
        answer
    }
}
